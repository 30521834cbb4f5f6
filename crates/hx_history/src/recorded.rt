ghost use Rattle.std.specs.Prelude.{◌≡◌, ◌++◌, reverse, OnOk, IfOk};
ghost use Rattle.std.specs.List.{flat_map};
ghost use Rattle.std.specs.Option.{option_map};
ghost use Rattle.hx_model.specs.Histories.{records_of};
ghost use Rattle.hx_history.specs.Calls.{end_view, record_by, records_in};

use crate::call_notes::{Begin, CallNotes, End, SessionNotes, table};
use hx_trace::Trace;
use hx_types::{Exact, Memory, Record, Records, Script, Version};
use std::alloc::Global;

/// The record of a call.
fn record_of(alloc: Global, begin: Begin, end: Option<End<'_>>) -> Result<Record, Memory>
    ensures { IfOk result (λ made. made ≡ record_by begin (option_map end_view end.entry)) }
{
    let caller = begin.caller;
    let begin = begin.entry;
    let Some(end) = end else {
        return Ok(Record {
            caller,
            begin,
            end: None,
            version: Version(0),
            answer: None,
        });
    };
    let answer = end.answer.copy(alloc)?;
    let is_doubt = end.answer.is_doubt();
    Ok(Record {
        caller,
        begin,
        end: if is_doubt { None } else { Some(end.entry) },
        version: end.version,
        answer: Some(answer),
    })
}

/// Adds the records of a session.
fn push_records(alloc: Global, records: &mut Records, notes: &[CallNotes<'_>]) -> Result<(), Memory>
    ensures { OnOk result (records.new ≡ records.old ++ flat_map records_in notes.now) }
{
    for call in notes {
        if let Some(begin) = call.begin {
            records.push(record_of(alloc, begin, call.end)?)?;
        }
    }
    Ok(())
}

/// The records of the calls of a table.
pub fn records_from(alloc: Global, table: &[SessionNotes<'_>]) -> Result<Records, Memory>
    ensures { IfOk result (λ records. records ≡ flat_map (λ row. flat_map records_in row.items) table.now) }
{
    let mut records = Records::new(alloc);
    for row in table {
        push_records(alloc, &mut records, row)?;
    }
    Ok(records)
}

/// When each begun call of a script began and ended, by session and number, with the version that
/// its end names and its answer. A call that is answered Doubt has no end. It fails with [`Memory`]
/// alone.
pub fn records(alloc: Global, script: &Script, trace: &Trace) -> Result<Records, Memory>
    ensures { IfOk result (λ records. records ≡ records_of script.now (reverse trace.now)) }
{
    let table = table(alloc, script, trace)?;
    let records = records_from(alloc, &table)?;
    Ok(records)
}
