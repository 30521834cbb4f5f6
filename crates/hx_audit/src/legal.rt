//! Items that aren't the effects of their calls' operations.

ghost use Rattle.std.specs.Prelude.{◌≡◌, IfOk, IfSome, map, reverse, slice_get, take, true};
ghost use Rattle.hx_model.specs.Legal.{IsEffect, object_now};
ghost use Rattle.hx_audit.specs.Told.{answer_told, item_told, op_told, values_of};
ghost use Rattle.hx_audit.specs.Walking.{CallsAscend, IsFirstNot};

use crate::lookups::call_of;
use hx_legal::first_fault;
use hx_report_lines::{CallLine, ItemLine, ItemWord};
use hx_types::{Answer, Caller, Exact, Item, Memory, Object, Op, Space, Terms};
use std::alloc::Global;

/// The operation of a caller's call; a search where it has none.
fn op_of(alloc: Global, calls: &[CallLine], caller: Caller) -> Result<Op, Memory>
    requires { CallsAscend calls.now }
    ensures { IfOk result (λ op. op ≡ op_told calls.now caller) }
{
    match call_of(calls, caller) {
        Some(call) => call.op.copy(alloc),
        None => Ok(Op::Search {
            terms: Terms::new(alloc),
        }),
    }
}

/// The values of an object; none where there is no object.
fn values_of(alloc: Global, object: &Option<Object>) -> Result<Object, Memory>
    ensures { IfOk result (λ values. values ≡ values_of object.now) }
{
    match object {
        Some(object) => object.copy(alloc),
        None => Ok(Object::new(alloc)),
    }
}

/// The answer that an item tells.
pub fn answer_of(alloc: Global, line: &ItemLine) -> Result<Answer, Memory>
    ensures { IfOk result (λ answer. answer ≡ answer_told line.now.word line.now.object) }
{
    match line.word {
        ItemWord::Done => Ok(Answer::Done),
        ItemWord::NotFound => Ok(Answer::NotFound),
        ItemWord::CmpFail => Ok(Answer::CmpFail),
        ItemWord::Found => Ok(Answer::Found(values_of(alloc, &line.object)?)),
        ItemWord::Overflow => Ok(Answer::Overflow),
        ItemWord::TooLong => Ok(Answer::TooLong),
    }
}

/// The item that a line tells.
fn item_of(alloc: Global, calls: &[CallLine], line: &ItemLine) -> Result<Item, Memory>
    requires { CallsAscend calls.now }
    ensures { IfOk result (λ item. item ≡ item_told calls.now line.now) }
{
    Ok(Item {
        version: line.version,
        caller: line.caller,
        op: op_of(alloc, calls, line.caller)?,
        answer: answer_of(alloc, line)?,
        object: line.object.copy(alloc)?,
    })
}

/// The items that lines tell. What they hold is shared with the report.
fn items_of(alloc: Global, calls: &[CallLine], lines: &[ItemLine]) -> Result<Vec<Item>, Memory>
    requires { CallsAscend calls.now }
    ensures { IfOk result (λ items. items.items ≡ map (item_told calls.now) lines.now) }
{
    let mut items = Vec::with_capacity(alloc, lines.len())?;
    for line in lines {
        items.push(item_of(alloc, calls, line)?)?;
    }
    Ok(items)
}

/// The place of the first item that isn't the effect of its call's operation on the object after
/// the item above it.
pub fn first_illegal(
    alloc: Global,
    space: &Space,
    calls: &[CallLine],
    lines: &[ItemLine],
) -> Result<Option<usize>, Memory>
    requires { CallsAscend calls.now }
    ensures { IfOk result (IsFirstNot (λ place. IfSome (slice_get (map (item_told calls.now) lines.now) place) (IsEffect space.now (object_now (reverse (take place (map (item_told calls.now) lines.now))))))) }
{
    let items = items_of(alloc, calls, lines)?;
    Ok(first_fault(space, &items))
}
