//! Calls that were answered and stand in no history.

ghost use Rattle.std.specs.Prelude.{◌≡◌, ◌↔◌, IsTrue, false};
ghost use Rattle.std.specs.BTreeSet.{contains};
ghost use Rattle.std.specs.Option.{option_copied, option_map};
ghost use Rattle.std.specs.Ordering.{nat_cmp};
ghost use Rattle.hx_types.specs.Words.{IsIn, when_some};
ghost use Rattle.hx_audit.specs.Clauses.{HasItem};
ghost use Rattle.hx_audit.specs.Standing.{AreStanding};
ghost use Rattle.hx_audit.specs.Told.{answer_told, end_told, values_of};
ghost use Rattle.hx_audit.specs.Walking.{CallsAscend, IsOrdered, place_at};

use crate::lookups::place_of;
use hx_report_lines::{Block, CallLine, ItemLine, ItemWord};
use hx_types::{Answer, Caller, Object, Same};
use std::collections::BTreeSet;

/// Whether the object, or no values where there is none, is another one.
fn is_object(object: Option<&Object>, other: &Object) -> bool
    ensures { IsTrue result ↔ (values_of (option_copied object.entry) ≡ other.now) }
{
    match object {
        Some(object) => object.same(other),
        None => other.is_empty(),
    }
}

/// Whether an item has this answer.
pub fn has_answer(item: &ItemLine, answer: &Answer) -> bool
    ensures { IsTrue result ↔ (answer_told item.now.word item.now.object ≡ answer.now) }
{
    match (item.word, answer) {
        (ItemWord::Done, Answer::Done) => true,
        (ItemWord::NotFound, Answer::NotFound) => true,
        (ItemWord::CmpFail, Answer::CmpFail) => true,
        (ItemWord::Found, Answer::Found(object)) => is_object(item.object.as_ref(), object),
        (ItemWord::Overflow, Answer::Overflow) => true,
        (ItemWord::TooLong, Answer::TooLong) => true,
        _ => false,
    }
}

/// The answer with which a call ended, if it did.
pub fn answer_at_end(call: &CallLine) -> Option<&Answer>
    ensures { option_copied result ≡ option_map (λ e. e.answer) (end_told call.now) }
{
    match call.end {
        Some(_) => call.answer.as_ref(),
        None => None,
    }
}

/// Whether the call of a caller is marked.
fn is_marked(marked: &BTreeSet<usize>, calls: &[CallLine], caller: Caller) -> bool
    requires { CallsAscend calls.now }
    ensures { result ≡ when_some (place_at calls.now caller) false (contains nat_cmp marked.now) }
{
    match place_of(calls, caller) {
        Some(place) => marked.contains(&place),
        None => false,
    }
}

/// Whether a call on a key that ended and wasn't refused stands in the key's history with its
/// answer, where the calls that do are marked. True of any other call.
pub fn has_item(block: &Block, marked: &BTreeSet<usize>, call: &CallLine) -> bool
    requires ordered { IsOrdered block.now }
    requires marked { AreStanding block.now (contains nat_cmp marked.now) }
    requires stands { IsIn call.now block.now.calls }
    ensures { IsTrue result ↔ HasItem block.now call.now }
{
    match (call.op.key(), answer_at_end(call)) {
        (Some(_), Some(answer)) => {
            answer.is_refused() || is_marked(marked, block.calls.as_slice(), call.caller)
        }
        _ => true,
    }
}
