ghost use Rattle.std.specs.Prelude.{◌≡◌, map, IfOk};
ghost use Rattle.std.specs.Option.{option_copied};
ghost use Rattle.hx_history.specs.Events.{item_view};

use hx_types::{Answer, Caller, Exact, Item, Items, Memory, Object, Op, Version};
use std::alloc::Global;

/// An item of a history, of what the trace and the script have.
#[derive(Clone, Copy)]
pub struct ItemRef<'a> {
    pub version: Version,
    pub caller: Caller,
    pub op: &'a Op,
    pub answer: &'a Answer,
    pub object: Option<&'a Object>,
}

/// A copy of an object, if there is one.
fn object_of(alloc: Global, object: Option<&Object>) -> Result<Option<Object>, Memory>
    ensures { IfOk result (λ made. made ≡ option_copied object.entry) }
{
    match object {
        Some(object) => Ok(Some(object.copy(alloc)?)),
        None => Ok(None),
    }
}

/// The item with copies of what it is told of.
fn item_of(alloc: Global, item: ItemRef<'_>) -> Result<Item, Memory>
    ensures { IfOk result (λ made. made ≡ item_view item.entry) }
{
    let object = object_of(alloc, item.object)?;
    let answer = item.answer.copy(alloc)?;
    let op = item.op.copy(alloc)?;
    Ok(Item {
        version: item.version,
        caller: item.caller,
        op,
        answer,
        object,
    })
}

/// Copies of items.
pub fn items_of(alloc: Global, items: &[ItemRef<'_>]) -> Result<Items, Memory>
    ensures { IfOk result (λ made. made ≡ map item_view items.now) }
{
    let mut made = Items::with_capacity(alloc, items.len())?;
    for item in items {
        made.push(item_of(alloc, *item)?)?;
    }
    Ok(made)
}
