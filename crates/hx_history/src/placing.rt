ghost use Rattle.std.specs.Prelude.{◌≡◌, ◌+◌, ◌<◌, ◌≤◌, ◌++◌, ℕ, List, [], map, reverse, filter, length, replicate, slice_get, IfOk, OnOk};
ghost use Rattle.std.specs.List.{AllWithin};
ghost use Rattle.std.specs.List.Sorted.{IsNonDecreasingBy};
ghost use Rattle.std.specs.Option.{option_copied};
ghost use Rattle.hx_model.specs.Histories.{write_item};
ghost use Rattle.hx_history.specs.Events.{event_view, history_by, is_in_place, item_on, item_view, read_view, told, updates_at, version_at};

use crate::events::{Event, Read};
use crate::items::ItemRef;
use crate::lines::{reads_of, updates_of_key, writes_of};
use hx_types::{Memory, Object, Script, Update};
use std::alloc::Global;

/// How many writes have at most this version.
fn rank(writes: &[&Update], version: u64) -> usize
    requires { IsNonDecreasingBy version_at writes.now }
    ensures bound { result ≤ length writes.now }
    ensures below { AllWithin (λ u. version_at u ≤ version) writes.now 0 result }
    ensures above { AllWithin (λ u. version < version_at u) writes.now result (length writes.now) }
{
    writes.partition_point(|update| update.version.0 <= version)
}

/// So many empty lists of gets.
fn no_reads<'a>(alloc: Global, count: usize) -> Result<Vec<Vec<Read<'a>>>, Memory>
    ensures { IfOk result (λ places. map (λ reads. reads.items) places.items ≡ replicate count []) }
{
    let mut places = Vec::with_capacity(alloc, count)?;
    for _made in 0..count {
        places.push(Vec::new(alloc))?;
    }
    Ok(places)
}

/// The gets before all writes, and those after each write up to the next, in the order of their
/// ends.
fn places_of<'a>(
    alloc: Global,
    writes: &[&Update],
    reads: &[Read<'a>],
) -> Result<Vec<Vec<Read<'a>>>, Memory>
    requires { IsNonDecreasingBy version_at writes.now }
    ensures len { IfOk result (λ places. length places.items ≡ length writes.now + 1) }
    ensures each { IfOk result (λ places. (p : ℕ) → p ≤ length writes.now → slice_get (map (λ reads. reads.items) places.items) p ≡ Some (filter (is_in_place writes.now p) reads.now)) }
{
    let mut places = no_reads(alloc, writes.len() + 1)?;
    for read in reads {
        let place = rank(writes, read.version.0);
        places[place].push(*read)?;
    }
    Ok(places)
}

/// Adds gets of an object.
fn push_reads<'a>(
    items: &mut Vec<ItemRef<'a>>,
    reads: &[Read<'a>],
    object: Option<&'a Object>,
) -> Result<(), Memory>
    ensures { OnOk result (map item_view items.new.items ≡ map item_view items.old.items ++ map (item_on (option_copied object.entry)) (map read_view reads.now)) }
{
    for read in reads {
        items.push(ItemRef {
            version: read.version,
            caller: read.caller,
            op: read.op,
            answer: read.answer,
            object,
        })?;
    }
    Ok(())
}

/// Adds a write.
fn push_write<'a>(
    items: &mut Vec<ItemRef<'a>>,
    script: &'a Script,
    update: &'a Update,
) -> Result<(), Memory>
    ensures { OnOk result (map item_view items.new.items ≡ map item_view items.old.items ++ write_item script.now update.now) }
{
    let Some(op) = script.call(update.caller) else {
        return Ok(());
    };
    items.push(ItemRef {
        version: update.version,
        caller: update.caller,
        op,
        answer: &update.answer,
        object: update.object.as_ref(),
    })?;
    Ok(())
}

/// The gets and writes of a key in order.
fn arrange<'a>(
    alloc: Global,
    script: &'a Script,
    writes: &[&'a Update],
    reads: &[Read<'a>],
) -> Result<Vec<ItemRef<'a>>, Memory>
    requires { IsNonDecreasingBy version_at writes.now }
    ensures { IfOk result (λ items. map item_view items.items ≡ told script.now (map read_view reads.now) None (reverse (updates_at writes.now))) }
{
    let places = places_of(alloc, writes, reads)?;
    let mut items = Vec::with_capacity(alloc, writes.len().saturating_add(reads.len()))?;
    push_reads(&mut items, &places[0], None)?;
    for (place, update) in writes.iter().enumerate() {
        push_write(&mut items, script, update)?;
        push_reads(&mut items, &places[place + 1], update.object.as_ref())?;
    }
    Ok(items)
}

/// The history of the key that these events are of.
#[tactic(auto, using(crate::proofs::Newest::standing))]
pub fn history_from<'a>(
    alloc: Global,
    script: &'a Script,
    events: &[Event<'a>],
) -> Result<Vec<ItemRef<'a>>, Memory>
    ensures { IfOk result (λ items. map item_view items.items ≡ history_by script.now (map event_view events.now)) }
{
    let line = updates_of_key(alloc, events)?;
    let writes = writes_of(alloc, &line)?;
    let reads = reads_of(alloc, events)?;
    arrange(alloc, script, &writes, &reads)
}
