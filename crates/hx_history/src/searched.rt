ghost use Rattle.std.specs.Prelude.{◌≡◌, ◌++◌, reverse, OnOk, IfOk};
ghost use Rattle.std.specs.List.{flat_map};
ghost use Rattle.std.specs.Option.{option_map};
ghost use Rattle.hx_history.specs.Calls.{end_view};
ghost use Rattle.hx_history.specs.Searches.{searched_by, searches_in, searches_of};

use crate::call_notes::{Begin, CallNotes, End, table};
use hx_trace::Trace;
use hx_types::{Answer, Exact, Memory, Op, Script, Searched, Searches};
use std::alloc::Global;

/// The finished search of a call, if it is one that ended with rows.
fn searched_of(
    alloc: Global,
    script: &Script,
    begin: Begin,
    end: End<'_>,
) -> Result<Option<Searched>, Memory>
    ensures { IfOk result (λ made. made ≡ searched_by script.now begin (end_view end.entry)) }
{
    match (script.call(begin.caller), end.answer) {
        (Some(Op::Search { .. }), Answer::Rows(rows)) => Ok(Some(Searched {
            caller: begin.caller,
            begin: begin.entry,
            end: end.entry,
            rows: rows.copy(alloc)?,
        })),
        _ => Ok(None),
    }
}

/// Adds the finished searches of a session.
fn push_searches(
    alloc: Global,
    searches: &mut Searches,
    script: &Script,
    notes: &[CallNotes<'_>],
) -> Result<(), Memory>
    ensures { OnOk result (searches.new ≡ searches.old ++ flat_map (searches_in script.now) notes.now) }
{
    for call in notes {
        if let (Some(begin), Some(end)) = (call.begin, call.end) {
            if let Some(searched) = searched_of(alloc, script, begin, end)? {
                searches.push(searched)?;
            }
        }
    }
    Ok(())
}

/// The finished searches of a script, by session and number: those that ended with rows, and so
/// not those that were refused. It fails with [`Memory`] alone.
pub fn searches(alloc: Global, script: &Script, trace: &Trace) -> Result<Searches, Memory>
    ensures { IfOk result (λ searches. searches ≡ searches_of script.now (reverse trace.now)) }
{
    let table = table(alloc, script, trace)?;
    let mut searches = Searches::new(alloc);
    for row in &table {
        push_searches(alloc, &mut searches, script, row)?;
    }
    Ok(searches)
}
