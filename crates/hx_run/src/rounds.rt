ghost use Rattle.std.specs.Prelude.{ℕ, All, ◌≡◌, ◌⊎◌, List, length, map, MatchOption};
ghost use Rattle.std.specs.List.{AllByRecursion};
ghost use Rattle.hx_types.specs.Fitting.{IsScript};
ghost use Rattle.hx_outbox.specs.Places.{AreBoxes};
ghost use Rattle.hx_outbox.specs.Zipped.{Both};
ghost use Rattle.hx_driver.specs.declared.crews.Crew.{Crew};
ghost use Rattle.hx_driver.specs.Crews.{IsCrew, IsPosted};
ghost use Rattle.hx_driver.specs.Floors.{IsCrewOn};
ghost use Rattle.hx_law_drivers.specs.Courses.{AreRetried, AreSliced, IsCourse, IsSliced};
ghost use Rattle.hx_run.specs.Floors.{AreCrewsOn, StayCrewsOn, StaysCrewOn};
ghost use Rattle.hx_run.specs.Rounds.{first_fault, Advance, AreOver, StayCrews};

use crate::resting::{all_ended, at_rest};
use hx_clock::Clock;
use hx_driver::{AtWork, Driver, Fault, Gate};
use hx_mail::Mailbox;
use hx_outbox::Floor;
use hx_types::{MOST_DRIVERS, Script};
use std::alloc::Global;
use std::sync::Wait;
use std::thread;
use std::thread::Threads;

/// A slice of one driver.
fn slice_one<R: Wait, G: Gate>(floor: &Floor<'_, R, G>, driver: &mut Driver, at_work: &AtWork)
    requires crew { (w : ℕ) × IsCrewOn floor.now w driver.old.crew }
    ensures crew { StaysCrewOn floor.now driver.old.crew driver.new.crew }
    ensures sliced { IsSliced floor.now.script.now driver.old.crew driver.new.crew }
    ensures posted { IsPosted driver.old.crew driver.new.crew (state (driver.old.fate.vtable, driver.old.fate.value)) (state (driver.new.fate.vtable, driver.new.fate.value)) }
{
    driver.slice(
        floor.rt,
        floor.alloc,
        floor.script,
        floor.clock,
        floor.boxes,
        floor.gate,
        at_work,
    );
}

/// A slice of each driver, side by side, until none of them finds anything to do.
fn slice_all<R: Threads + Wait + Sync, G: Gate + Sync>(
    floor: &Floor<'_, R, G>,
    drivers: &mut [Driver],
)
    requires crews { All (λ d. (w : ℕ) × IsCrewOn floor.now w d.crew) drivers.old }
    ensures crews { StayCrewsOn floor.now (map (λ d. d.crew) drivers.old) (map (λ d. d.crew) drivers.new) }
    ensures sliced { AreSliced floor.now.script.now (map (λ d. d.crew) drivers.old) (map (λ d. d.crew) drivers.new) }
    ensures posted { Both (λ d d'. IsPosted d.crew d'.crew (state (d.fate.vtable, d.fate.value)) (state (d'.fate.vtable, d'.fate.value))) drivers.old drivers.new }
{
    let at_work = AtWork::new(drivers.len());
    let shared = &at_work;
    thread::for_each_mut(
        floor.rt,
        drivers,
        MOST_DRIVERS as usize,
        &|_place: usize, driver: &mut Driver|
            requires crew { (w : ℕ) × IsCrewOn floor.now w driver.now.crew }
            ensures crew { StaysCrewOn floor.entry.now driver.entry.now.crew driver.exit.now.crew }
            ensures sliced { IsSliced floor.entry.now.script.now driver.entry.now.crew driver.exit.now.crew }
            ensures posted { IsPosted driver.entry.now.crew driver.exit.now.crew (state (driver.entry.now.fate.vtable, driver.entry.now.fate.value)) (state (driver.exit.now.fate.vtable, driver.exit.now.fate.value)) }
        { slice_one(floor, driver, shared) },
    );
}

/// A retry of each driver, one after another, until one has a fault.
fn retry_all<R: Wait, G: Gate>(floor: &Floor<'_, R, G>, drivers: &mut [Driver])
    requires crews { (w : ℕ) × AreCrewsOn floor.now w (map (λ d. d.crew) drivers.old) }
    ensures crews { StayCrewsOn floor.now (map (λ d. d.crew) drivers.old) (map (λ d. d.crew) drivers.new) }
    ensures retried { AreRetried floor.now.script.now (map (λ d. d.crew) drivers.old) (map (λ d. d.crew) drivers.new) }
    ensures posted { Both (λ d d'. IsPosted d.crew d'.crew (state (d.fate.vtable, d.fate.value)) (state (d'.fate.vtable, d'.fate.value))) drivers.old drivers.new }
{
    for at in 0..drivers.len() {
        drivers[at].retry(
            floor.rt,
            floor.alloc,
            floor.script,
            floor.clock,
            floor.boxes,
            floor.gate,
        );
        if drivers[at].crew.fault.is_some() {
            return;
        }
    }
}

/// The fault of the lowest driver that has one.
fn first_fault(drivers: &[Driver]) -> Option<Fault>
    ensures { result ≡ first_fault (map (λ d. d.crew) drivers.now) }
{
    for at in 0..drivers.len() {
        if drivers[at].crew.fault.is_some() {
            return drivers[at].crew.fault;
        }
    }
    None
}

/// One round: slices while something is left to do, else retries while a session has a call. Where
/// neither is left, or a driver has a fault, the rounds are over, with that fault.
fn advance<R: Threads + Wait + Sync, G: Gate + Sync>(
    floor: &Floor<'_, R, G>,
    drivers: &mut [Driver],
) -> Option<Option<Fault>>
    requires crews { (w : ℕ) × AreCrewsOn floor.now w (map (λ d. d.crew) drivers.old) }
    ensures crews { StayCrewsOn floor.now (map (λ d. d.crew) drivers.old) (map (λ d. d.crew) drivers.new) }
    ensures goes { MatchOption result (Advance floor.now.script.now (map (λ d. d.crew) drivers.old) (map (λ d. d.crew) drivers.new)) (λ fault. (drivers.new ≡ drivers.old) × AreOver floor.now.script.now (map (λ d. d.crew) drivers.old) fault) }
    ensures posted { Both (λ d d'. IsPosted d.crew d'.crew (state (d.fate.vtable, d.fate.value)) (state (d'.fate.vtable, d'.fate.value))) drivers.old drivers.new }
{
    let fault = first_fault(drivers);
    if fault.is_some() {
        return Some(fault);
    }
    if !at_rest(floor.script, drivers) {
        slice_all(floor, drivers);
        return None;
    }
    if all_ended(floor.script, drivers) {
        return Some(None);
    }
    retry_all(floor, drivers);
    None
}

/// Rounds until all calls have ended and nothing is left to do, or a driver has a fault: then the
/// fault of the lowest driver that has one. All that was put is taken, and every session has begun
/// what it can, before an actor retries; and all that wait retry together.
pub fn run_rounds<R: Threads + Wait + Sync, G: Gate + Sync>(
    rt: &R,
    alloc: Global,
    script: &Script,
    clock: &Clock,
    boxes: &[Mailbox<'_>],
    gate: &G,
    drivers: &mut [Driver],
) -> Option<Fault>
    requires script { IsScript script.now }
    requires boxes { AreBoxes script.now clock.now boxes.now }
    requires crews { (w : ℕ) × AllByRecursion (IsCrew script.now clock.now boxes.now w) (map (λ d. d.crew) drivers.old) }
    ensures crews { StayCrews script.now clock.now boxes.now (map (λ d. d.crew) drivers.old) (map (λ d. d.crew) drivers.new) }
    ensures course { (w : ℕ) → AllByRecursion (IsCrew script.now clock.now boxes.now w) (map (λ d. d.crew) drivers.old) → (cuts : List (List Crew)) × IsCourse script.now clock.now boxes.now w (map (λ d. d.crew) drivers.old) cuts (map (λ d. d.crew) drivers.new) }
    ensures over { AreOver script.now (map (λ d. d.crew) drivers.new) result }
    ensures posted { Both (λ d d'. IsPosted d.crew d'.crew (state (d.fate.vtable, d.fate.value)) (state (d'.fate.vtable, d'.fate.value))) drivers.old drivers.new }
{
    let floor = Floor {
        rt,
        alloc,
        script,
        clock,
        boxes,
        gate,
    };
    for _round in rt.forever() {
        match advance(&floor, drivers) {
            Some(fault) => return fault,
            None => {}
        }
    }
    // A loop without an end is left by its `return` alone.
    unreachable!()
}
