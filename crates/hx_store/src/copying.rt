ghost use Rattle.std.specs.Prelude.{◌≡◌, ◌++◌, IfOk, OnOk};
ghost use Rattle.hx_model.specs.Slots.{object_of, pending_of};
ghost use Rattle.std.specs.List.{All};
ghost use Rattle.hx_slot.specs.States.{IsOrderly};
ghost use Rattle.hx_store.specs.Reading.{committed_of};

use hx_slot::Slot;
use hx_types::{Exact, Memory, Row, Snapshot, Updates};
use std::alloc::Global;

/// A copy of the committed object of a slot, if it keeps one. It takes no memory: there is none
/// only where a count of owners is full.
pub fn copy_row(alloc: Global, slot: &Slot) -> Result<Option<Row>, Memory>
    ensures { IfOk result (λ row. row ≡ object_of slot.now.region slot.now.state) }
{
    match slot.row() {
        Some(row) => Ok(Some(Row {
            key: row.key.copy(alloc)?,
            version: row.version,
            object: row.object.copy(alloc)?,
        })),
        None => Ok(None),
    }
}

/// Adds the committed state of a slot, where something is committed. It is one that can be
/// installed.
#[tactic(auto, using(crate::proofs::Reading::all_more))]
pub fn add_kept(alloc: Global, slot: &Slot, snapshot: &mut Snapshot) -> Result<(), Memory>
    ensures more { OnOk result (snapshot.new ≡ snapshot.old ++ committed_of slot.now) }
    ensures orderly { OnOk result (All IsOrderly snapshot.old → All IsOrderly snapshot.new) }
{
    if let Some(kept) = slot.kept(alloc)? {
        snapshot.push(kept)?;
    }
    Ok(())
}

/// Adds the pending updates of a slot, the lowest version first.
pub fn add_pending(alloc: Global, slot: &Slot, updates: &mut Updates) -> Result<(), Memory>
    ensures { OnOk result (updates.new ≡ updates.old ++ pending_of slot.now.state) }
{
    for i in 0..slot.pending_count() {
        match slot.pending(i) {
            Some(update) => updates.push(update.copy(alloc)?)?,
            // There are more than i pending updates.
            None => unreachable!(),
        }
    }
    Ok(())
}
