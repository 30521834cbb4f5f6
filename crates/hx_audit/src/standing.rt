//! Which calls stand in the history of their key with the answer with which they ended.
//!
//! A call is told by its place among the calls. Each item marks its call, so that a call needn't be
//! looked for in a history.

ghost use Rattle.std.specs.Prelude.{◌≡◌, ◌↔◌, ◌⊎◌, ℕ, IfOk, IsTrue, OnOk};
ghost use Rattle.std.specs.BTreeSet.{contains};
ghost use Rattle.std.specs.Ordering.{nat_cmp};
ghost use Rattle.hx_audit.specs.Standing.{AreMarkedFor, AreStanding, EndedAs, IsEndedAt, IsItemAt, MarksMore, StandsIn};
ghost use Rattle.hx_audit.specs.Walking.{CallsAscend, HasIn, IsOrdered};

use crate::foreign::is_on;
use crate::lookups::{line_at, place_of};
use crate::missing::{answer_at_end, has_answer};
use crate::verdicts::Clause;
use hx_report_lines::{Block, CallLine, HistoryLines, ItemLine};
use hx_types::{Memory, Text};
use std::alloc::Global;
use std::collections::BTreeSet;

/// Whether a call ended with the answer of an item.
fn ended_as(call: &CallLine, item: &ItemLine) -> bool
    ensures { IsTrue result ↔ EndedAs call.now item.now }
{
    match answer_at_end(call) {
        Some(answer) => has_answer(item, answer),
        None => false,
    }
}

/// Whether the call at a place is on the key, and ended with the answer of an item.
fn is_ended_at(calls: &[CallLine], place: usize, key: &Text, item: &ItemLine) -> bool
    ensures { IsTrue result ↔ IsEndedAt calls.now place key.now item.now }
{
    match line_at(calls, place) {
        Some(call) => is_on(key, &call.op) && ended_as(call, item),
        None => false,
    }
}

/// Marks the call of an item, if that is on the key and ended with the item's answer.
fn mark_call(
    marked: &mut BTreeSet<usize>,
    calls: &[CallLine],
    key: &Text,
    item: &ItemLine,
) -> Result<(), Memory>
    requires { CallsAscend calls.now }
    ensures { OnOk result (MarksMore (contains nat_cmp marked.old) (contains nat_cmp marked.new) (λ place. IsItemAt calls.now key.now place item.now)) }
{
    if let Some(place) = place_of(calls, item.caller) {
        if is_ended_at(calls, place, key, item) {
            marked.insert(place)?;
        }
    }
    Ok(())
}

/// Marks the calls on a key of which an item with their answer is among these.
fn mark_calls(
    marked: &mut BTreeSet<usize>,
    calls: &[CallLine],
    key: &Text,
    items: &[ItemLine],
) -> Result<(), Memory>
    requires { CallsAscend calls.now }
    ensures { OnOk result (MarksMore (contains nat_cmp marked.old) (contains nat_cmp marked.new) (λ place. HasIn (IsItemAt calls.now key.now place) items.now)) }
{
    let mut rest = items;
    while let Some((item, others)) = rest.split_first() {
        mark_call(marked, calls, key, item)?;
        rest = others;
    }
    Ok(())
}

/// The places of the calls that stand in these histories.
fn standing_in(
    alloc: Global,
    calls: &[CallLine],
    histories: &[HistoryLines],
) -> Result<BTreeSet<usize>, Memory>
    requires { CallsAscend calls.now }
    ensures { IfOk result (λ marked. (place : ℕ) → IsTrue (contains nat_cmp marked place) ↔ StandsIn calls.now histories.now place) }
{
    let mut marked = BTreeSet::new(alloc);
    let mut rest = histories;
    while let Some((history, others)) = rest.split_first() {
        mark_calls(&mut marked, calls, &history.key, history.items.as_slice())?;
        rest = others;
    }
    Ok(marked)
}

/// The places of the calls of a block that stand in the histories of their keys.
pub fn standing(alloc: Global, block: &Block) -> Result<BTreeSet<usize>, Memory>
    requires { IsOrdered block.now }
    ensures { IfOk result (λ marked. AreStanding block.now (contains nat_cmp marked)) }
{
    standing_in(alloc, block.calls.as_slice(), block.histories.as_slice())
}

/// The places of the calls that stand in histories, where the clause asks for them; else none.
pub fn marked_for(alloc: Global, clause: Clause, block: &Block) -> Result<BTreeSet<usize>, Memory>
    requires { IsOrdered block.now }
    ensures { IfOk result (λ marked. AreMarkedFor clause block.now (contains nat_cmp marked)) }
{
    match clause {
        Clause::Missing => standing(alloc, block),
        Clause::Foreign | Clause::Legal | Clause::Order | Clause::Whole | Clause::True => {
            Ok(BTreeSet::new(alloc))
        }
    }
}
