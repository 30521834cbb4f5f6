//! Histories, calls and searches of what a service has done.
use crate::parts::text;
use crate::services::served;
use hx_history::{histories, history, records, searches};
use hx_trace::Trace;
use hx_types::Script;
use std::process::Abort;

/// Whether the items of the history of "a" are those of its put and of its get.
fn are_items_of_a<R: Abort + AllocGlobal>(rt: &R, script: &Script, trace: &Trace) -> bool {
    let key = text(rt, "a");
    let items = history(rt.alloc(), script, trace, &key);
    drop(key);
    let items = items.expect(rt, "memory");
    match items.as_slice() {
        [put, get] => {
            (put.version.0 == 1 && put.caller.number == 2)
                && (get.version.0 == 1 && get.caller.number == 3)
        }
        _ => false,
    }
}

/// Whether there are histories of two keys, in byte order of these.
fn are_of_both<R: Abort + AllocGlobal>(rt: &R, script: &Script, trace: &Trace) -> bool {
    let listed = histories(rt.alloc(), script, trace).expect(rt, "memory");
    match listed.as_slice() {
        [first, second] => first.key.as_str() == "a" && second.key.as_str() == "b",
        _ => false,
    }
}

/// Whether there are four records, the third of a call of three entries.
fn are_recorded<R: Abort + AllocGlobal>(rt: &R, script: &Script, trace: &Trace) -> bool {
    let records = records(rt.alloc(), script, trace).expect(rt, "memory");
    match records.as_slice() {
        [_, _, get, _] => get.begin == 7 && get.end == Some(9),
        _ => false,
    }
}

/// Whether there is one search, with both keys' rows.
fn is_searched<R: Abort + AllocGlobal>(rt: &R, script: &Script, trace: &Trace) -> bool {
    let searches = searches(rt.alloc(), script, trace).expect(rt, "memory");
    match searches.as_slice() {
        [search] => search.begin == 10 && search.end == 12 && search.rows.len() == 2,
        _ => false,
    }
}

#[test]
fn what_a_trace_has_is_listed(rt: HostRuntime) {
    let service = served(&rt);
    let (script, trace) = (service.script(), service.trace());
    let are_items = are_items_of_a(&rt, script, trace) && are_of_both(&rt, script, trace);
    let are_calls = are_recorded(&rt, script, trace) && is_searched(&rt, script, trace);
    drop(service);
    assert!(rt; are_items);
    assert!(rt; are_calls);
}
