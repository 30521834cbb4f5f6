ghost use Rattle.std.specs.Prelude.{◌≡◌, ◌^◌, ◌<◌, None, IfOk, OnErr, OnOk, length, true};
ghost use Rattle.std.specs.List.{AllByRecursion};
ghost use Rattle.hx_slot.specs.Bases.{HasBaseRoom, IsFolded, IsWidened};
ghost use Rattle.hx_slot.specs.States.{HasFewPlaces};
ghost use Rattle.hx_slot.specs.MarksAndTouches.{AscendByRegion};
ghost use Rattle.hx_slot.specs.Updates.{changes_row, row_by};
ghost use Rattle.hx_slot.specs.declared.updates.AcceptedUpdate.{AcceptedUpdate};

use crate::line::{copy_row, place_count, row_of};
use crate::marks::{mark_by, put_mark};
use crate::rooms::grow;
use crate::touches::note_touches;
use crate::updates::AcceptedUpdate;
use hx_types::{Mark, Memory, Row, Touch, Version};
use std::alloc::Global;

/// What the updates up to a version left of a key: its row, and at a key region the newest call of
/// each session in ascending order of sessions, and the last version at each region in ascending
/// order of regions.
#[derive(Drop)]
pub struct Base {
    pub floor: Version,
    pub object: Option<Row>,
    pub marks: Vec<Mark>,
    pub touches: Vec<Touch>,
}

impl Base {
    /// Makes room for the marks and the touches of the updates of a line, where they are kept: each
    /// brings a mark, and a touch for each of its places. It is made for updates that are known, so
    /// that a key that is written once takes no memory for either.
    #[inline]
    pub fn reserve(&mut self, kept: bool, line: &[AcceptedUpdate]) -> Result<(), Memory>
        requires few { AllByRecursion (λ (t : AcceptedUpdate). HasFewPlaces t.update) line.now }
        requires short { length line.now < 2 ^ 32 }
        ensures { IsWidened self.old self.new }
    {
        if !kept || line.is_empty() {
            return Ok(());
        }
        grow(&mut self.marks, line.len())?;
        grow(&mut self.touches, place_count(line))?;
        Ok(())
    }

    /// Takes an update in: the row after it, and where they are kept its mark and its touches. It
    /// takes no memory. Where there is no room for these, or the count of the owners of a shared
    /// value is full, which it is with 2^63 of them, the base stays.
    pub fn fold(&mut self, alloc: Global, kept: bool, taken: &AcceptedUpdate) -> Result<(), Memory>
        requires { AscendByRegion self.old.touches.items }
        ensures folded { OnOk result (IsFolded kept taken.now self.old self.new) }
        ensures stays { OnErr result (self.new ≡ self.old) }
    {
        if kept && !self.has_room(taken) {
            return Err(Memory);
        }
        let row = row_set(alloc, taken)?;
        if kept {
            let update = taken.update.get();
            let mark = mark_by(alloc, update)?;
            put_mark(&mut self.marks, mark);
            note_touches(&mut self.touches, update.version, update.places.as_slice());
        }
        self.floor = taken.update.version;
        if changes_row(taken) {
            self.object = row;
        }
        Ok(())
    }

    /// Whether there is room for a mark more and for a touch for each place of the update.
    fn has_room(&self, taken: &AcceptedUpdate) -> bool
        ensures { result ≡ true → HasBaseRoom self.now 1 (length taken.now.update.places) }
    {
        self.marks.len() < self.marks.capacity()
            && taken.update.places.len() <= self.touches.capacity() - self.touches.len()
    }
}

/// Whether the row after an update isn't the one before it.
fn changes_row(taken: &AcceptedUpdate) -> bool
    ensures { result ≡ changes_row taken.now }
{
    !taken.keeps || taken.update.changes
}

/// The row that an update sets, or `None` where it sets none.
fn row_set(alloc: Global, taken: &AcceptedUpdate) -> Result<Option<Row>, Memory>
    ensures { IfOk result (λ row. row ≡ row_by taken.now None) }
{
    if taken.keeps && taken.update.changes {
        return copy_row(alloc, row_of(taken));
    }
    Ok(None)
}
