//! A service's report and a group: what is found is changed.
ghost use Rattle.std.specs.Prelude.{◌≡◌};
ghost use Rattle.hx_types.specs.declared.ids.Actor.TheVariants as an_actor;
ghost use Rattle.hx_model.specs.Runs.{is_actor};

use crate::parts::{shared_list, text};
use crate::scripts::script_of;
use hx_rules::fits;
use hx_service::{Grouped, Service};
use hx_types::{Assign, Assigns, Exact, Op, Script, SessionId, Term, Terms, Text, Value};
use std::process::Abort;

/// One session without calls on a space of one server.
const SPACE: &str = "hx 1\nspace one\nkey k 1\nstring v\nservers 1\ntolerate 0\nsession 1\n";

const CALLS: [&str; 4] = [
    "put \"b\" v=\"x\"",
    "put \"a\" v=\"x\"",
    "get \"a\"",
    "search v=\"x\"",
];

/// The report of these calls, as a replay of them prints it.
const REPORT: &str =
    "report 1\nspace one\nkey k 1\nstring v\nservers 1\ntolerate 0\ncall u1.1 begin 1 end 3 put \"b\" v=\"x\" -> done version 1\ncall u1.2 begin 4 end 6 put \"a\" v=\"x\" -> done version 1\ncall u1.3 begin 7 end 9 get \"a\" -> found version 1 v=\"x\"\ncall u1.4 begin 10 end 12 search v=\"x\" -> rows 2\nrow \"a\" version 1 v=\"x\"\nrow \"b\" version 1 v=\"x\"\nhistory \"a\"\nitem 1 u1.2 done present v=\"x\"\nitem 1 u1.3 found present v=\"x\"\nhistory \"b\"\nitem 1 u1.1 done present v=\"x\"\nepoch 1 servers 1 lost -\nend\n";

/// A service of the space, at its start.
fn started<R: Abort + AllocGlobal>(rt: &R) -> Service {
    let script = script_of(rt, SPACE);
    Service::start(rt.alloc(), &script).expect(rt, "memory")
}

/// Makes a call of the session that a line says.
fn call<R: Abort + AllocGlobal>(rt: &R, service: &mut Service, line: &str) {
    match service.call_text(rt.alloc(), SessionId(1), line.as_bytes()) {
        Ok(receipt) => drop(receipt),
        Err(_) => panic!(rt; "no receipt"),
    }
}

/// A service that has made the calls.
pub fn served<R: Abort + AllocGlobal>(rt: &R) -> Service {
    let mut service = started(rt);
    for line in CALLS {
        call(rt, &mut service, line);
    }
    service
}

/// Whether the script has the session.
fn has_session(script: &Script, session: SessionId) -> bool
    ensures { result ≡ is_actor script.now (an_actor.Session session) }
{
    0 < session.0 && session.0 as usize <= script.sessions.len()
}

/// Makes a group, once it has asked for what a group needs.
fn grouped<R: Abort + AllocGlobal>(
    rt: &R,
    service: &mut Service,
    session: SessionId,
    terms: &Terms,
    sets: &Assigns,
) -> Grouped {
    let _ = service.trace();
    let search = Op::Search {
        terms: terms.copy(rt.alloc()).expect(rt, "memory"),
    };
    let put = Op::Put {
        key: Text::new(rt.alloc()),
        sets: sets.copy(rt.alloc()).expect(rt, "memory"),
    };
    let space = &service.script().space;
    if !fits(space, &search) || !fits(space, &put) || sets.is_empty() {
        panic!(rt; "a group that can't be made");
    }
    if !has_session(service.script(), session) || !service.free(session) {
        panic!(rt; "a group that can't be made yet");
    }
    match service.group(rt.alloc(), session, terms, sets) {
        Ok(grouped) => grouped,
        Err(_) => panic!(rt; "a call without a receipt"),
    }
}

#[test]
fn a_service_reports(rt: HostRuntime) {
    let service = served(&rt);
    let report = service.report(rt.alloc()).expect(&rt, "memory");
    drop(service);
    assert!(rt; report.as_slice() == REPORT.as_bytes());
}

/// The search and the puts of both rows have their receipts behind those of the four calls.
#[test]
fn a_group_changes_what_it_finds(rt: HostRuntime) {
    let mut service = served(&rt);
    let attribute = 1;
    let value = Value::Text(text(&rt, "x"));
    let terms = shared_list(&rt, [Term::Equal { attribute, value }]);
    let value = Value::Text(text(&rt, "y"));
    let sets = shared_list(&rt, [Assign { attribute, value }]);
    let changed = grouped(&rt, &mut service, SessionId(1), &terms, &sets);
    let receipts = service.receipts().len();
    drop(sets);
    drop(terms);
    drop(service);
    assert_eq!(rt; (changed.done, changed.left, receipts), (2, 0, 7));
}
