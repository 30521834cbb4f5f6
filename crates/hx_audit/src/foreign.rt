//! Items that are of no call on the key, or of a refused one, or stand twice.

ghost use Rattle.std.specs.Prelude.{◌≡◌, IfOk, IfSome, slice_get, take, true, false, not, ◌&&◌};
ghost use Rattle.hx_types.specs.Words.{when_some};
ghost use Rattle.hx_audit.specs.Clauses.{is_known, is_on, is_refused_call};
ghost use Rattle.hx_audit.specs.Walking.{CallsAscend, IsFirstNot};

use crate::lookups::place_of;
use hx_report_lines::{CallLine, ItemLine};
use hx_types::{Memory, Op, Same, Text};
use std::alloc::Global;
use std::collections::BTreeSet;

/// Whether the operation is on the key.
pub fn is_on(key: &Text, op: &Op) -> bool
    ensures { result ≡ is_on key.now op.now }
{
    match op.key() {
        Some(found) => found.same(key),
        None => false,
    }
}

/// Whether the call was refused.
pub fn is_refused(call: &CallLine) -> bool
    ensures { result ≡ is_refused_call call.now }
{
    match &call.answer {
        Some(answer) => answer.is_refused(),
        None => false,
    }
}

/// Whether the call at a place is on the key and wasn't refused.
fn is_call_on(calls: &[CallLine], place: usize, key: &Text) -> bool
    ensures { result ≡ when_some (slice_get calls.now place) false (λ l. is_on key.now l.op && not (is_refused_call l)) }
{
    match calls.get(place) {
        Some(call) => is_on(key, &call.op) && !is_refused(call),
        None => false,
    }
}

/// The place of the first item that isn't known: its caller has no call on the key, or a refused
/// one, or stands above.
pub fn first_foreign(
    alloc: Global,
    calls: &[CallLine],
    key: &Text,
    items: &[ItemLine],
) -> Result<Option<usize>, Memory>
    requires { CallsAscend calls.now }
    ensures { IfOk result (IsFirstNot (λ place. IfSome (slice_get items.now place) (λ x. is_known calls.now key.now (take place items.now) x ≡ true))) }
{
    let mut seen = BTreeSet::new(alloc);
    for (place, item) in items.iter().enumerate() {
        let called = match place_of(calls, item.caller) {
            Some(called) => called,
            None => return Ok(Some(place)),
        };
        if !is_call_on(calls, called, key) {
            return Ok(Some(place));
        }
        let added = seen.insert(called)?;
        if !added {
            return Ok(Some(place));
        }
    }
    Ok(None)
}
