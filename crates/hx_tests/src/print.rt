//! What was read is printed again.
ghost use Rattle.std.specs.Prelude.{IfOk};
ghost use Rattle.hx_bundle.specs.Bundles.{IsBundle};

use hx_bundle::Bundle;
use hx_print::{print, print_bundle, print_op, print_text};
use hx_report_lines::{print_report, read_report};
use hx_script::{ScriptError, bundles_are_valid, read, read_bundle};
use hx_types::{Caller, Memory, Script, SessionId, Text};
use std::alloc::Global;

const PUT: &str = "put \"a\" genre=\"b\\n\" year=1999";

const SCRIPT: &str = "hx 1\n\
    space books\n\
    key name 2\n\
    string genre\n\
    int year 1900 2099\n\
    subspace genre 4, year 2\n\
    servers 4\n\
    tolerate 1\n\
    session 1\n\
    put \"a\" genre=\"b\\n\" year=1999\n\
    session 2\n\
    search name=\"a\" year=1990..2010\n\
    steps\n\
    tick u2\n\
    deliver 1.0\n\
    halt s4\n";

const BUNDLE: &str = "hx 2\n\
    servers 2\n\
    tolerate 1\n\
    space books\n\
    key name 2\n\
    string genre\n\
    subspace genre 4\n\
    space put\n\
    key name 1\n\
    int name_too 0 9\n\
    session 1\n\
    put put \"a\" name_too=5\n\
    get books \"a\"\n\
    session 2\n\
    stop books 2\n\
    search put name_too=1..2\n\
    steps\n\
    deliver put 1.0\n\
    tick books c\n\
    halt put s2\n";

/// A report with lines of each kind.
const REPORT: &str = "report 1\n\
    space books\n\
    key name 2\n\
    string genre\n\
    servers 4\n\
    tolerate 1\n\
    call u1.1 begin 1 end 13 put \"a -> b\" genre=\"\\\"\\n\" -> done version 1\n\
    call u1.2 begin 17 end 20 search -> rows 1\n\
    row \"a -> b\" version 18446744073709551615 genre=\"\"\n\
    call u2.1 begin 3 end - del \"a\" -> doubt region 1 epoch 2\n\
    call u10.1 begin 2 end 4 stop 2 -> stopped epoch 1\n\
    history \"\"\n\
    item 1 u2.2 notfound absent\n\
    history \"a -> b\"\n\
    item 1 u1.1 done present genre=\"\\\"\\n\"\n\
    epoch 1 servers 1,2,3,4 lost -\n\
    epoch 4 servers - lost 1,0\n\
    entry 1 u1 tick\n\
    driver 2 posts 5 deliver 3 lose 2 twice 0\n\
    end\n";

/// Whether the text was printed, byte for byte.
fn is_printed(printed: Result<Vec<u8>, Memory>, text: &str) -> bool {
    match printed {
        Ok(bytes) => bytes.as_slice() == text.as_bytes(),
        Err(_) => false,
    }
}

/// Whether the script is printed so, and its first call.
fn is_script_printed(alloc: Global, script: &Script) -> bool {
    let caller = Caller {
        session: SessionId(1),
        number: 1,
    };
    match script.call(caller) {
        Some(op) => {
            is_printed(print_op(alloc, &script.space, op), PUT)
                && is_printed(print(alloc, script), SCRIPT)
        }
        None => false,
    }
}

#[test]
fn prints_a_script_and_its_call(rt: HostRuntime) {
    let script = read(rt.alloc(), SCRIPT.as_bytes()).expect(&rt, "a script");
    let is_printed = is_script_printed(rt.alloc(), &script);
    drop(script);
    assert!(rt; is_printed);
}

/// The bundle of a text.
fn bundle_of(alloc: Global, text: &str) -> Result<Bundle, ScriptError>
    ensures { IfOk result (λ bundle. IsBundle bundle) }
{
    bundles_are_valid();
    let bundle = read_bundle(alloc, text.as_bytes())?;
    Ok(bundle)
}

#[test]
fn prints_a_script_of_several_spaces(rt: HostRuntime) {
    let bundle = bundle_of(rt.alloc(), BUNDLE).expect(&rt, "a bundle");
    let printed = print_bundle(rt.alloc(), &bundle);
    drop(bundle);
    assert!(rt; is_printed(printed, BUNDLE));
}

#[test]
fn prints_a_report(rt: HostRuntime) {
    let report = read_report(rt.alloc(), REPORT.as_bytes()).expect(&rt, "a report");
    let printed = print_report(rt.alloc(), &report);
    drop(report);
    assert!(rt; is_printed(printed, REPORT));
}

#[test]
fn prints_a_text(rt: HostRuntime) {
    let text = Text::from_str(rt.alloc(), "a\"b\\c\nd\te ß").expect(&rt, "memory");
    let printed = print_text(rt.alloc(), &text);
    drop(text);
    assert!(rt; is_printed(printed, "\"a\\\"b\\\\c\\nd\\te ß\""));
}
