//! The audit.

ghost use Rattle.std.specs.Prelude.{◌≡◌, ◌↔◌, ◌+◌, suc, [], ◌∷◌, IfOk, IfSome, IfNone, IsTrue};
ghost use Rattle.std.specs.List.{All};
ghost use Rattle.hx_types.specs.Words.{IsIn};
ghost use Rattle.hx_report_lines.specs.Values.{IsBlock};
ghost use Rattle.hx_report_lines.specs.declared.calls.CallLine.{CallLine};
ghost use Rattle.hx_audit.specs.Clauses.{KeepsInCall, KeepsInHistory};
ghost use Rattle.hx_audit.specs.Notes.{AreNotesFor};
ghost use Rattle.hx_audit.specs.Verdicts.{IsVerdict, OfCall, OfHistory, block_from, blocks_from, calls_from, histories_from, rank_of};
ghost use Rattle.hx_audit.specs.Walking.{IsFirstNot, IsFirstOf, IsOrdered};

use crate::foreign::first_foreign;
use crate::legal::first_illegal;
use crate::lines::{after_block, after_call, after_calls, after_history, after_space, further};
use crate::missing::has_item;
use crate::notes::{Notes, notes_for};
use crate::rows::first_untrue;
use crate::times::first_late;
use crate::verdicts::{Clause, Verdict};
use crate::whole::is_whole;
use hx_report_lines::{Block, CallLine, HistoryLines, Report};
use hx_types::Memory;
use std::alloc::Global;

/// Whether the clause is kept at the line of a call.
fn is_kept_at(clause: Clause, block: &Block, notes: &Notes<'_>, call: &CallLine) -> bool
    requires ordered { IsOrdered block.now }
    requires notes { AreNotesFor clause block.now notes.now }
    requires stands { IsIn call.now block.now.calls }
    ensures { IsTrue result ↔ KeepsInCall clause block.now call.now 0 }
{
    match clause {
        Clause::Missing => has_item(block, &notes.marked, call),
        Clause::Whole => is_whole(notes.latest.as_slice(), call),
        Clause::Foreign | Clause::Legal | Clause::Order | Clause::True => true,
    }
}

/// The place of the first row below a call at which the clause is broken.
fn first_in_rows(clause: Clause, block: &Block, call: &CallLine) -> Option<usize>
    requires { IsOrdered block.now }
    ensures { IsFirstNot (λ place. KeepsInCall clause block.now call.now (suc place)) result }
{
    match clause {
        Clause::True => first_untrue(block, call),
        Clause::Foreign | Clause::Legal | Clause::Missing | Clause::Order | Clause::Whole => None,
    }
}

/// The place of the first item of a history at which the clause is broken.
fn first_in_items(
    alloc: Global,
    clause: Clause,
    block: &Block,
    history: &HistoryLines,
) -> Result<Option<usize>, Memory>
    requires { IsOrdered block.now }
    ensures { IfOk result (IsFirstNot (λ place. KeepsInHistory clause block.now history.now (suc place))) }
{
    let calls = block.calls.as_slice();
    let items = history.items.as_slice();
    match clause {
        Clause::Foreign => first_foreign(alloc, calls, &history.key, items),
        Clause::Legal => first_illegal(alloc, &block.space, calls, items),
        Clause::Order => Ok(first_late(block, items)),
        Clause::Missing | Clause::Whole | Clause::True => Ok(None),
    }
}

/// The first of a call's lines at which the clause is broken; the call's own line is given.
fn first_in_call(
    clause: Clause,
    block: &Block,
    notes: &Notes<'_>,
    call: &CallLine,
    line: u64,
) -> Result<Option<u64>, Memory>
    requires ordered { IsOrdered block.now }
    requires notes { AreNotesFor clause block.now notes.now }
    requires stands { IsIn call.now block.now.calls }
    ensures { IfOk result (IsFirstOf clause (record { line = line; block = block.now; piece = OfCall call.now } ∷ [])) }
{
    if !is_kept_at(clause, block, notes, call) {
        return Ok(Some(line));
    }
    match first_in_rows(clause, block, call) {
        Some(place) => {
            let first = further(line, 1)?;
            let row = further(first, place)?;
            Ok(Some(row))
        }
        None => Ok(None),
    }
}

/// The first of a history's lines at which the clause is broken; the line of its key is given.
fn first_in_history(
    alloc: Global,
    clause: Clause,
    block: &Block,
    history: &HistoryLines,
    line: u64,
) -> Result<Option<u64>, Memory>
    requires { IsOrdered block.now }
    ensures { IfOk result (IsFirstOf clause (record { line = line; block = block.now; piece = OfHistory history.now } ∷ [])) }
{
    let broken = first_in_items(alloc, clause, block, history)?;
    match broken {
        Some(place) => {
            let first = further(line, 1)?;
            let item = further(first, place)?;
            Ok(Some(item))
        }
        None => Ok(None),
    }
}

/// The first line at which the clause is broken among calls, the first of which has this line.
fn first_of_calls(
    clause: Clause,
    block: &Block,
    notes: &Notes<'_>,
    calls: &[CallLine],
    first: u64,
) -> Result<Option<u64>, Memory>
    requires ordered { IsOrdered block.now }
    requires notes { AreNotesFor clause block.now notes.now }
    requires stand { (call : CallLine) → IsIn call calls.now → IsIn call block.now.calls }
    ensures { IfOk result (IsFirstOf clause (calls_from block.now first calls.now)) }
{
    let mut line = first;
    let mut rest = calls;
    while let Some((call, others)) = rest.split_first() {
        let broken = first_in_call(clause, block, notes, call, line)?;
        if broken.is_some() {
            return Ok(broken);
        }
        line = after_call(line, call)?;
        rest = others;
    }
    Ok(None)
}

/// The first line at which the clause is broken among histories, the first of which has this line.
fn first_of_histories(
    alloc: Global,
    clause: Clause,
    block: &Block,
    histories: &[HistoryLines],
    first: u64,
) -> Result<Option<u64>, Memory>
    requires { IsOrdered block.now }
    ensures { IfOk result (IsFirstOf clause (histories_from block.now first histories.now)) }
{
    let mut line = first;
    let mut rest = histories;
    while let Some((history, others)) = rest.split_first() {
        let broken = first_in_history(alloc, clause, block, history, line)?;
        if broken.is_some() {
            return Ok(broken);
        }
        line = after_history(line, history)?;
        rest = others;
    }
    Ok(None)
}

/// The first line at which the clause is broken in a block, whose first line this is.
fn first_of_block(
    alloc: Global,
    clause: Clause,
    block: &Block,
    line: u64,
) -> Result<Option<u64>, Memory>
    requires { IsOrdered block.now }
    ensures { IfOk result (IsFirstOf clause (block_from block.now line)) }
{
    let calls = block.calls.as_slice();
    let histories = block.histories.as_slice();
    let notes = notes_for(alloc, clause, block)?;
    let first = after_space(line, block)?;
    let broken = first_of_calls(clause, block, &notes, calls, first)?;
    if broken.is_some() {
        return Ok(broken);
    }
    let next = after_calls(first, calls)?;
    let other = first_of_histories(alloc, clause, block, histories, next)?;
    Ok(other)
}

/// The first line at which the clause is broken in blocks, the first of which begins at line 2.
fn first_broken(alloc: Global, clause: Clause, blocks: &[Block]) -> Result<Option<u64>, Memory>
    requires { All IsBlock blocks.now }
    ensures { IfOk result (IsFirstOf clause (blocks_from 2 blocks.now)) }
{
    let mut line = 2;
    let mut rest = blocks;
    while let Some((block, others)) = rest.split_first() {
        let broken = first_of_block(alloc, clause, block, line)?;
        if broken.is_some() {
            return Ok(broken);
        }
        line = after_block(line, block)?;
        rest = others;
    }
    Ok(None)
}

/// The clause that is judged after another.
fn next(clause: Clause) -> Option<Clause>
    ensures some { IfSome result (λ other. rank_of other ≡ rank_of clause + 1) }
    ensures none { IfNone result (rank_of clause ≡ 5) }
{
    match clause {
        Clause::Foreign => Some(Clause::Legal),
        Clause::Legal => Some(Clause::Missing),
        Clause::Missing => Some(Clause::Order),
        Clause::Order => Some(Clause::Whole),
        Clause::Whole => Some(Clause::True),
        Clause::True => None,
    }
}

/// Whether a report is consistent: whether the history of each key is linear by the calls that the
/// report has, and each finished search whole and true by the histories.
///
/// The answer is [`Verdict::Yes`] where every clause is kept at every line; else it names the first
/// clause that is broken anywhere, and the lowest line at which it is. Lines are counted from 1 on
/// over all blocks. Nothing is said of calls that the report leaves out, of the versions that items
/// have, nor of a call that ended before it began.
///
/// # Errors
///
/// [`Memory`] alone.
pub fn audit(alloc: Global, report: &Report) -> Result<Verdict, Memory>
    ensures { IfOk result (IsVerdict report.now) }
{
    let blocks = report.blocks().as_slice();
    let mut clause = Clause::Foreign;
    'clauses: loop {
        let broken = first_broken(alloc, clause, blocks)?;
        if let Some(line) = broken {
            return Ok(Verdict::No { line, clause });
        }
        match next(clause) {
            Some(other) => clause = other,
            None => return Ok(Verdict::Yes),
        }
    }
}
