//! The lines of calls.

ghost use Rattle.std.specs.Prelude.{◌≡◌, ◌++◌, OnOk};
ghost use Rattle.std.specs.List.{flat_map};
ghost use Rattle.hx_report.specs.PrintedRows.{IsPrinted};
ghost use Rattle.hx_report.specs.Reporting.{called_text, end_text, maybe_answer_lines, record_lines, span_text};

use crate::answers::put_maybe_answer;
use crate::labels::put_labeled;
use crate::printed_rows::{PrintedRows, no_printed_rows, put_rows_again};
use hx_print::{put_bytes, put_caller, put_number, put_op};
use hx_types::{Answer, Caller, Memory, Op, Record, Records, Script, Space};
use std::alloc::Global;

#[tactic(auto, unfolding(crate::specs::Reporting::called_text))]
fn put_called(out: &mut Vec<u8>, script: &Script, caller: Caller) -> Result<(), Memory>
    ensures { OnOk result (out.new.items ≡ out.old.items ++ called_text script.now caller) }
{
    match script.call(caller) {
        Some(op) => put_op(out, &script.space, op),
        None => Ok(()),
    }
}

/// Appends when a call ended, or `-` where it has no end. It fails for want of memory alone.
#[tactic(auto, unfolding(crate::specs::Reporting::end_text))]
pub fn put_end(out: &mut Vec<u8>, end: &Option<u64>) -> Result<(), Memory>
    ensures { OnOk result (out.new.items ≡ out.old.items ++ end_text end.now) }
{
    match end {
        Some(entry) => put_number(out, *entry),
        None => put_bytes(out, b"-"),
    }
}

#[tactic(auto, unfolding(crate::specs::Reporting::span_text))]
fn put_span(out: &mut Vec<u8>, call: &Record) -> Result<(), Memory>
    ensures { OnOk result (out.new.items ≡ out.old.items ++ span_text call.now) }
{
    put_bytes(out, b"call ")?;
    put_caller(out, &call.caller)?;
    put_labeled(out, b" begin ", call.begin)?;
    put_bytes(out, b" end ")?;
    put_end(out, &call.end)
}

/// Appends what a call was answered, if anything, with the rows of a search beside those printed
/// before.
#[tactic(auto, unfolding(crate::specs::Reporting::maybe_answer_lines, crate::specs::Reporting::answer_lines))]
fn put_answered<'a>(
    out: &mut Vec<u8>,
    space: &Space,
    call: &'a Record,
    printed: &mut PrintedRows<'a>,
) -> Result<(), Memory>
    requires { IsPrinted space.now printed.old }
    ensures lines { OnOk result (out.new.items ≡ out.old.items ++ maybe_answer_lines space.now call.now.version call.now.answer) }
    ensures printed { OnOk result (IsPrinted space.now printed.new) }
{
    match &call.answer {
        Some(Answer::Rows(rows)) => put_rows_again(out, space, rows, printed),
        answer => put_maybe_answer(out, space, call.version, answer),
    }
}

#[tactic(auto, unfolding(crate::specs::Reporting::record_lines))]
fn put_record<'a>(
    out: &mut Vec<u8>,
    script: &Script,
    call: &'a Record,
    printed: &mut PrintedRows<'a>,
) -> Result<(), Memory>
    requires { IsPrinted script.now.space printed.old }
    ensures lines { OnOk result (out.new.items ≡ out.old.items ++ record_lines script.now call.now) }
    ensures printed { OnOk result (IsPrinted script.now.space printed.new) }
{
    put_span(out, call)?;
    put_bytes(out, b" ")?;
    put_called(out, script, call.caller)?;
    put_bytes(out, b" -> ")?;
    put_answered(out, &script.space, call, printed)
}

/// Appends the lines of the recorded calls.
pub fn put_records(
    alloc: Global,
    out: &mut Vec<u8>,
    script: &Script,
    records: &Records,
) -> Result<(), Memory>
    ensures { OnOk result
        (out.new.items ≡ out.old.items ++ flat_map (record_lines script.now) records.now) }
{
    let mut printed = no_printed_rows(alloc);
    for call in records.as_slice() {
        put_record(out, script, call, &mut printed)?;
    }
    Ok(())
}
