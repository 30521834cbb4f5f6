//! How an actor of a crew is moved: by a turn, or by a retry. Each function here stands in its
//! callers, which name the move: so the way of a turn has no word of retries in it.
ghost use Rattle.std.specs.Prelude.{ℕ, ◌≡◌, ◌<◌, List, MatchResult, None, length};
ghost use Rattle.hx_clock.specs.declared.parts.Stamped.{Stamped};
ghost use Rattle.hx_outbox.specs.Outboxes.{IsOutbox};
ghost use Rattle.hx_driver.specs.Floors.{IsBrokenDeskOn, IsWholeDeskOn, IsCrewOn};
ghost use Rattle.hx_driver.specs.Turns.{HasRoom, IsTurn};
ghost use Rattle.hx_driver.specs.Moves.{GoesOnAt, HasFailed, HasMoved, HasMovedAt};

use crate::crews::Crew;
use crate::desk_retries::retry;
use crate::desk_turns::turn;
use crate::desks::Desk;
use crate::faults::Fault;
use crate::gates::Gate;
use hx_fate::Fate;
use hx_outbox::{Floor, Outbox};
use hx_types::Totals;
use std::sync::Wait;

/// What an actor is moved to.
#[derive(Clone, Copy)]
pub enum Move {
    /// A turn.
    Turn,
    /// A tick, where it waits.
    Retry,
}

/// Moves an actor.
#[inline(always)]
fn make_move<R: Wait, G: Gate>(
    floor: &Floor<'_, R, G>,
    desk: &mut Desk,
    out: &mut Outbox,
    fate: &mut Box<dyn Fate + Send>,
    totals: &mut Totals,
    to: Move,
) -> Result<(), Fault>
    requires desk { (w : ℕ) × IsWholeDeskOn floor.now w desk.old }
    requires out { IsOutbox floor.now.boxes.now out.old }
    requires room { HasRoom out.old desk.old totals.old }
    ensures desk { MatchResult result (λ _. (w : ℕ) → IsWholeDeskOn floor.now w desk.old → IsWholeDeskOn floor.now w desk.new) (λ _. (w : ℕ) → IsWholeDeskOn floor.now w desk.old → IsBrokenDeskOn floor.now w desk.new) }
    ensures moved { MatchResult result (λ _. HasMoved floor.now.script.now to desk.old desk.new) (λ fault. HasFailed floor.now.script.now to desk.old desk.new fault) }
    ensures turn { (xs : List Stamped) × IsTurn floor.now.boxes.now desk.old desk.new out.old out.new totals.old totals.new (state fate.old) (state fate.new) xs }
{
    match to {
        Move::Turn => turn(floor, desk, out, fate, totals),
        Move::Retry => retry(floor, desk, out, fate, totals),
    }
}

/// Moves the actor at a place, of a crew that met no fault.
#[inline(always)]
fn move_calmly<R: Wait, G: Gate>(
    floor: &Floor<'_, R, G>,
    crew: &mut Crew,
    fate: &mut Box<dyn Fate + Send>,
    at: usize,
    to: Move,
)
    requires crew { (w : ℕ) × IsCrewOn floor.now w crew.old }
    requires calm { crew.old.fault ≡ None }
    requires at { at < length crew.old.desks.items }
    ensures on { GoesOnAt floor.now crew.old crew.new (state fate.old) (state fate.new) }
    ensures moved { HasMovedAt floor.now.script.now to at crew.old crew.new }
{
    let moved = make_move(
        floor,
        &mut crew.desks[at],
        &mut crew.out,
        fate,
        &mut crew.totals,
        to,
    );
    match moved {
        Ok(()) => {}
        Err(fault) => crew.fault = Some(fault),
    }
}

/// Moves the actor at a place, unless a fault was met.
#[inline(always)]
pub fn move_at<R: Wait, G: Gate>(
    floor: &Floor<'_, R, G>,
    crew: &mut Crew,
    fate: &mut Box<dyn Fate + Send>,
    at: usize,
    to: Move,
)
    requires crew { (w : ℕ) × IsCrewOn floor.now w crew.old }
    requires at { at < length crew.old.desks.items }
    ensures on { GoesOnAt floor.now crew.old crew.new (state fate.old) (state fate.new) }
    ensures moved { HasMovedAt floor.now.script.now to at crew.old crew.new }
{
    match crew.fault {
        None => move_calmly(floor, crew, fate, at, to),
        Some(_) => {}
    }
}
