ghost use Rattle.std.specs.Prelude.{ℕ, ◌<◌, length};
ghost use Rattle.hx_driver.specs.Floors.{IsCrewOn};
ghost use Rattle.hx_driver.specs.Moves.{GoesOnAt};
ghost use Rattle.hx_driver.specs.Slices.{HaveNoRetry};

use crate::crews::Crew;
use crate::gates::Gate;
use crate::lulls::{AtWork, Lull};
use crate::moves::{Move, move_at};
use hx_fate::Fate;
use hx_outbox::Floor;
use std::sync::Wait;

/// How many turns an actor has one after another in a round, at most. So it takes what lies in its
/// box while its part is at hand, and none keeps the others of its driver waiting. The number is
/// this project's choice: boxes seldom hold more.
const MOST_TURNS_TOGETHER: u32 = 8;

/// How much an actor did by now: another number before a turn than after it tells that the turn did
/// something. What a halted server takes makes no entry.
fn done_by(crew: &Crew, at: usize) -> u64 {
    match crew.desks.get(at) {
        Some(desk) if desk.machine.halted() => taken_by(desk.heard.as_slice()),
        Some(desk) => desk.part.len() as u64,
        None => 0,
    }
}

/// How many envelopes were taken, as counted under each name.
fn taken_by(heard: &[u64]) -> u64 {
    let mut taken: u64 = 0;
    for count in heard {
        taken = taken.wrapping_add(*count);
    }
    taken
}

/// One turn of the actor at a place, unless a fault was met: whether it did something.
fn turn_did_something<R: Wait, G: Gate>(
    floor: &Floor<'_, R, G>,
    crew: &mut Crew,
    fate: &mut Box<dyn Fate + Send>,
    at: usize,
) -> bool
    requires crew { (w : ℕ) × IsCrewOn floor.now w crew.old }
    requires at { at < length crew.old.desks.items }
    ensures on { GoesOnAt floor.now crew.old crew.new (state fate.old) (state fate.new) }
    ensures retries { HaveNoRetry floor.now.script.now crew.old crew.new }
{
    let before = done_by(crew, at);
    move_at(floor, crew, fate, at, Move::Turn);
    done_by(crew, at) != before
}

/// A few turns of the actor at a place, while they do something: whether one did.
fn few_turns<R: Wait, G: Gate>(
    floor: &Floor<'_, R, G>,
    crew: &mut Crew,
    fate: &mut Box<dyn Fate + Send>,
    at: usize,
) -> bool
    requires crew { (w : ℕ) × IsCrewOn floor.now w crew.old }
    requires at { at < length crew.old.desks.items }
    ensures on { GoesOnAt floor.now crew.old crew.new (state fate.old) (state fate.new) }
    ensures retries { HaveNoRetry floor.now.script.now crew.old crew.new }
{
    for turn in 0..MOST_TURNS_TOGETHER {
        if !turn_did_something(floor, crew, fate, at) {
            return turn > 0;
        }
    }
    true
}

/// A few turns of each actor, in order: whether one of them did something.
fn round<R: Wait, G: Gate>(
    floor: &Floor<'_, R, G>,
    crew: &mut Crew,
    fate: &mut Box<dyn Fate + Send>,
) -> bool
    requires crew { (w : ℕ) × IsCrewOn floor.now w crew.old }
    ensures on { GoesOnAt floor.now crew.old crew.new (state fate.old) (state fate.new) }
    ensures retries { HaveNoRetry floor.now.script.now crew.old crew.new }
{
    let mut worked = false;
    for at in 0..crew.desks.len() {
        worked |= few_turns(floor, crew, fate, at);
    }
    worked
}

/// Rounds of turns, until no driver finds anything to do.
pub fn rounds<R: Wait, G: Gate>(
    floor: &Floor<'_, R, G>,
    crew: &mut Crew,
    fate: &mut Box<dyn Fate + Send>,
    at_work: &AtWork,
)
    requires crew { (w : ℕ) × IsCrewOn floor.now w crew.old }
    ensures on { GoesOnAt floor.now crew.old crew.new (state fate.old) (state fate.new) }
    ensures retries { HaveNoRetry floor.now.script.now crew.old crew.new }
{
    let mut lull = Lull::new();
    for _round in 0..u32::MAX {
        let worked = round(floor, crew, fate);
        if lull.is_over(at_work, worked) {
            return;
        }
    }
}
