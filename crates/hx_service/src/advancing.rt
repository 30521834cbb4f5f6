ghost use Rattle.std.specs.Prelude.{◌≡◌, ◌+◌, ◌≤◌, length, map, reverse, is_some, IsSome, IfErr, IfOk, OnErr, OnOk, vec_capacity};
ghost use Rattle.hx_model.specs.Runs.{IsRun};
ghost use Rattle.hx_model.specs.Schedule.{IsQuiet, next_entry, with_entry};
ghost use Rattle.hx_world.specs.Worlds.{Advances, Fails, most_entries};
ghost use Rattle.hx_service.specs.Booking.{AreProgress, IsServing, LacksLast, booked_as};
ghost use Rattle.hx_service.specs.Receipts.{receipts_of};
ghost use Rattle.hx_service.specs.Services.{IsDrained, Stops};

use crate::booking::book_notes;
use crate::progress::Progress;
use crate::receipts::Booked;
use hx_types::Actor;
use hx_world::{DrainError, Drained, World};
use std::alloc::Global;

/// Whether the schedule has a next entry. None is made.
fn has_next(alloc: Global, world: &mut World) -> bool
    ensures next { result ≡ is_some (next_entry world.old.script (reverse world.old.trace)) }
    ensures state { world.new ≡ world.old }
    ensures most { length world.new.trace ≤ most_entries }
{
    match world.drain(alloc, 0) {
        Ok(Drained::Quiet) => false,
        Ok(Drained::Spent) => true,
        // To make no entry takes no memory, and wears no actor.
        Err(_) => unreachable!(),
    }
}

/// Makes the next entry of the schedule, which there is.
fn make_next(alloc: Global, world: &mut World) -> Result<(), DrainError>
    requires { IsSome (next_entry world.old.script (reverse world.old.trace)) }
    ensures script { world.new.script ≡ world.old.script }
    ensures ok { OnOk result (reverse world.new.trace ≡ with_entry (reverse world.old.trace) (next_entry world.old.script (reverse world.old.trace))) }
    ensures fails { IfErr result (Fails world.old.script (reverse world.old.trace)) }
    ensures err { OnErr result (world.new.trace ≡ world.old.trace) }
    ensures most { length world.new.trace ≤ most_entries }
{
    match world.drain(alloc, 1) {
        Ok(_) => Ok(()),
        Err(error) => Err(error),
    }
}

/// Books the newest entry. There is room for it.
fn book_last(world: &World, progress: &mut Vec<Progress>, booked: &mut Vec<Booked>)
    requires older { LacksLast world.now.script (reverse world.now.trace) progress.old.items booked.old.items }
    requires room { length booked.old.items + 2 ≤ vec_capacity booked.old }
    ensures run { IsRun world.now.script (reverse world.now.trace) }
    ensures progress { AreProgress (length world.now.script.sessions) (reverse world.now.trace) progress.new.items }
    ensures booked { booked.new.items ≡ map booked_as (receipts_of (reverse world.now.trace)) }
{
    let trace = world.trace();
    let count = trace.len();
    let Some(entry) = trace.get(count - 1) else {
        // An entry was just made.
        unreachable!()
    };
    if let Actor::Session(session) = entry.actor {
        let place = session.0 as usize - 1;
        book_notes(
            &mut progress[place],
            booked,
            session,
            count as u64,
            entry.notes,
        );
    }
}

/// Makes the next entry of the schedule and books it; whether there was one.
fn advance(
    alloc: Global,
    world: &mut World,
    progress: &mut Vec<Progress>,
    booked: &mut Vec<Booked>,
) -> Result<bool, DrainError>
    requires { IsServing world.old.script (reverse world.old.trace) progress.old.items booked.old.items }
    ensures serving { IsServing world.new.script (reverse world.new.trace) progress.new.items booked.new.items }
    ensures script { world.new.script ≡ world.old.script }
    ensures advances { IfOk result (Advances world.old.script (reverse world.old.trace) (reverse world.new.trace)) }
    ensures stops { IfErr result (Stops world.old.script (reverse world.old.trace)) }
    ensures err { OnErr result (world.new.trace ≡ world.old.trace) }
    ensures most { length world.new.trace ≤ most_entries }
{
    if !has_next(alloc, world) {
        return Ok(false);
    }
    if booked.reserve(2).is_err() {
        return Err(DrainError::Memory);
    }
    make_next(alloc, world)?;
    hx_law_growing::schedules_serve();
    book_last(world, progress, booked);
    Ok(true)
}

/// Makes entries by the schedule and books them, until there is none left or one can't be made.
/// Those that were made stay.
pub fn settle(
    alloc: Global,
    world: &mut World,
    progress: &mut Vec<Progress>,
    booked: &mut Vec<Booked>,
) -> Result<(), DrainError>
    requires { IsServing world.old.script (reverse world.old.trace) progress.old.items booked.old.items }
    ensures serving { IsServing world.new.script (reverse world.new.trace) progress.new.items booked.new.items }
    ensures script { world.new.script ≡ world.old.script }
    ensures drained { IsDrained world.old.script (reverse world.old.trace) (reverse world.new.trace) }
    ensures quiet { OnOk result (IsQuiet world.new.script (reverse world.new.trace)) }
    ensures stops { IfErr result (Stops world.new.script (reverse world.new.trace)) }
{
    for _made in 0..u64::MAX {
        if !advance(alloc, world, progress, booked)? {
            return Ok(());
        }
    }
    // No world makes so many entries.
    unreachable!()
}
