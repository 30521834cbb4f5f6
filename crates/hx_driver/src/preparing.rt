//! All that an entry needs before it has a stamp.
ghost use Rattle.std.specs.Prelude.{ℕ, ◌≡◌, ◌<◌, ◌≤◌, ◌^◌, true, false, List, IfOk, IsTrue, OnOk, length};
ghost use Rattle.hx_types.specs.declared.limits.TheConstants.{MOST_ENTRIES};
ghost use Rattle.hx_model.specs.Runs.{has_halted};
ghost use Rattle.hx_mail.specs.declared.views.Mailed.{Mailed};
ghost use Rattle.hx_driver.specs.Desks.{IsSame, entries_before};
ghost use Rattle.hx_driver.specs.Floors.{IsDeskOn};
ghost use Rattle.hx_driver.specs.Givings.{CanBeGiven, HasPlaces, IsReady, IsSameStep};

use crate::desks::Desk;
use hx_machine::Change;
use hx_outbox::Floor;
use hx_types::{Input, MOST_ENTRIES, Memory};
use std::alloc::Global;

/// Whether the actor has made the most entries that it may make.
pub(crate) fn is_worn(desk: &Desk) -> bool
    requires few { length desk.now.part.items ≤ MOST_ENTRIES }
    ensures worn { result ≡ false → length desk.now.part.items < MOST_ENTRIES }
    ensures most { result ≡ true → length desk.now.part.items ≡ MOST_ENTRIES }
{
    desk.part.len() >= MOST_ENTRIES as usize
}

/// What the step changes that the actor makes of an input that it can be given. The desk's lists
/// then hold what it posts and notes.
#[inline]
pub(crate) fn prepare_step<R, G>(
    floor: &Floor<'_, R, G>,
    desk: &mut Desk,
    input: &Input,
) -> Result<Change, Memory>
    requires desk { (w : ℕ) × (rest : List Mailed) × IsDeskOn floor.now w rest desk.old }
    requires running { has_halted floor.now.script.now (entries_before desk.old.part.items) desk.old.actor ≡ false }
    requires given { CanBeGiven floor.now.script.now desk.old input.now }
    ensures same { IsSame desk.old desk.new }
    ensures desk { (w : ℕ) (rest : List Mailed) → IsDeskOn floor.now w rest desk.old → IsDeskOn floor.now w rest desk.new }
    ensures ready { IfOk result (IsReady floor.now.script.now desk.new input.now) }
{
    let _drawn = floor.clock.now(&mut desk.seat);
    desk.lent.posts.clear();
    desk.lent.notes.clear();
    desk.machine.step(
        floor.alloc,
        input,
        &mut desk.lent.posts,
        &mut desk.lent.notes,
    )
}

/// The copies of a step's posts, and room for its entry and for what may have to be kept. Each post
/// has a second copy where the driver's fate repeats.
pub(crate) fn make_room(alloc: Global, desk: &mut Desk, repeats: bool) -> Result<(), Memory>
    ensures same { IsSame desk.old desk.new × IsSameStep desk.old desk.new }
    ensures copies { OnOk result (desk.new.lent.copies.firsts.items ≡ desk.new.lent.posts) }
    ensures seconds { OnOk result (IsTrue repeats → desk.new.lent.copies.seconds.items ≡ desk.new.lent.posts) }
    ensures few { OnOk result (length desk.new.lent.posts < 2 ^ 32) }
    ensures places { OnOk result (HasPlaces desk.new) }
{
    let count = desk.lent.posts.len();
    if count >= 1 << 32 {
        return Err(Memory);
    }
    desk.part.reserve(count, desk.lent.notes.len())?;
    desk.kept.reserve(2 * count)?;
    let posts = desk.lent.posts.as_slice();
    desk.lent.copies.fill(alloc, posts, repeats)
}
