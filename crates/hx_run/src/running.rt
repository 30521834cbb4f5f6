ghost use Rattle.std.specs.Prelude.{ℕ, ◌≡◌, ◌≤◌, ◌<◌, List, length, slice_get, map, IfOk, Some};
ghost use Rattle.hx_types.specs.declared.totals.Totals.{Totals as TotalsSeen};
ghost use Rattle.hx_types.specs.Fitting.{IsScript};
ghost use Rattle.hx_types.specs.declared.limits.TheConstants.{MOST_DRIVERS};
ghost use Rattle.hx_driver.specs.declared.crews.Crew.{Crew};
ghost use Rattle.hx_cluster.specs.Clusters.{AreNewSeats};
ghost use Rattle.hx_cluster.specs.Everyone.{actors_of};
ghost use Rattle.hx_run.specs.Closed.{fault_of, worn_in, AreClosed, HasPosted, IsLeft};
ghost use Rattle.hx_run.specs.Ran.{lowest_of, HasRisen, HaveMetWorn, IsRan};

use crate::closing::{Closed, close};
use crate::rounds::run_rounds;
use hx_clock::{Clock, Seat};
use hx_cluster::{deal, enrol_all, open_boxes};
use hx_driver::{Driver, Fault, Gate};
use hx_fate::Fate;
use hx_gather::{Gathered, gather};
use hx_law_drivers::{puts_are_posts, runs_of_drivers_are_paced, traces_go_on};
use hx_mail::Port;
use hx_outbox::Floor;
use hx_trace::Trace;
use hx_types::{Actor, Memory, Script, Totals};
use std::alloc::Global;
use std::sync::Wait;
use std::thread::Threads;

/// What drivers made of a script: the trace, and the clock's seat, which shows that its entries
/// stand in the order of the stamps that they drew; for each driver in order the totals of its
/// posts, and its fate; for each actor in order the first port of its box, which carries the names
/// of all its ports. And the actor, if one ended the run, that had made all the entries that it may
/// make and had one more to make: for each driver in order the one that it met, if any, and of
/// these the one of the lowest driver.
#[derive(Drop)]
pub struct Ran {
    pub trace: Trace,
    pub seat: Seat,
    pub totals: Vec<Totals>,
    pub fates: Vec<Box<dyn Fate + Send>>,
    pub ports: Vec<Port>,
    pub met_worn: Vec<Option<Actor>>,
    pub worn: Option<Actor>,
}

/// The actor that is worn, where that is the fault.
fn worn_in(fault: Option<Fault>) -> Option<Actor>
    ensures { result ≡ worn_in fault }
{
    match fault {
        Some(Fault::Worn(actor)) => Some(actor),
        _ => None,
    }
}

/// The actor that each driver met worn, if it met one.
fn met_worn(alloc: Global, drivers: &[Driver]) -> Result<Vec<Option<Actor>>, Memory>
    ensures { IfOk result (λ met. met.items ≡ map (λ d. worn_in d.crew.fault) drivers.now) }
{
    let mut met = Vec::new(alloc);
    for driver in drivers {
        met.push(worn_in(driver.crew.fault))?;
    }
    Ok(met)
}

/// What is left of drivers, the fault of the lowest driver that has one, and the actors that
/// drivers met worn.
#[derive(Drop)]
struct Driven {
    closed: Closed,
    fault: Option<Fault>,
    met_worn: Vec<Option<Actor>>,
}

/// Opens the boxes, deals the actors out, moves them until their rounds are over, and joins the
/// ports.
fn run_drivers<R: Threads + Wait + Sync, G: Gate + Sync>(
    rt: &R,
    alloc: Global,
    script: &Script,
    clock: &Clock,
    seats: Vec<Seat>,
    workers: u32,
    capacity: usize,
    fates: Vec<Box<dyn Fate + Send>>,
    gate: &G,
) -> Result<Driven, Memory>
    requires script { IsScript script.now }
    requires seats { AreNewSeats clock.now seats.items × (length seats.items ≡ length (actors_of script.now)) }
    requires workers { (1 ≤ workers) × (workers ≤ MOST_DRIVERS) × (workers ≤ length fates.items) }
    requires capacity { 1 ≤ capacity }
    ensures closed { IfOk result (λ made. (start : List Crew) × (now : List Crew) × AreClosed script.now clock.now workers start now made.fault × IsLeft script.now clock.now now made.closed.actors.items made.closed.totals.items made.closed.ports.items × (made.met_worn.items ≡ map (λ c. worn_in c.fault) now) × (length made.closed.fates.items ≡ workers) × ((i : ℕ) (f : _) (g : _) (c : Crew) → slice_get fates.items i ≡ Some f → slice_get made.closed.fates.items i ≡ Some g → slice_get now i ≡ Some c → HasPosted c (state f) (state g))) }
{
    let (boxes, ports) = open_boxes(rt, alloc, script, clock, workers, capacity)?;
    let held = boxes.as_slice();
    let mut drivers = deal(alloc, script, clock, held, seats, ports, workers, fates)?;
    let fault = run_rounds(rt, alloc, script, clock, held, gate, drivers.as_mut_slice());
    let met_worn = met_worn(alloc, drivers.as_slice())?;
    let floor = Floor {
        rt,
        alloc,
        script,
        clock,
        boxes: held,
        gate,
    };
    let closed = close(&floor, drivers)?;
    Ok(Driven {
        closed,
        fault,
        met_worn,
    })
}

/// The actor that ended the run, if one did.
fn worn_by(fault: Option<Fault>) -> Result<Option<Actor>, Memory>
    ensures { IfOk result (λ worn. fault ≡ fault_of worn) }
{
    match fault {
        None => Ok(None),
        Some(Fault::Memory) => Err(Memory),
        Some(Fault::Worn(actor)) => Ok(Some(actor)),
    }
}

/// Runs the actors of a script on so many threads (1 to 16) over mailboxes of so many places. Actor
/// i, in the order coordinator, servers, sessions, belongs to driver i modulo the number of
/// drivers. Driver i has the i-th fate that is handed in; those that no driver has are dropped.
/// What the actors hold at the end is not given back: it is left to the system, which takes less
/// time where the process ends soon after, as it does here.
///
/// # Errors
///
/// [`Memory`] alone.
pub fn run<R: Threads + Wait + Sync, G: Gate + Sync>(
    rt: &R,
    alloc: Global,
    script: &Script,
    workers: u32,
    capacity: usize,
    fates: Vec<Box<dyn Fate + Send>>,
    gate: &G,
) -> Result<Ran, Memory>
    requires script { IsScript script.now }
    requires workers { (1 ≤ workers) × (workers ≤ MOST_DRIVERS) × (workers ≤ length fates.items) }
    requires capacity { 1 ≤ capacity }
    ensures ran { IfOk result (λ ran. IsRan script.now workers ran.trace ran.seat ran.totals.items ran.ports.items ran.worn) }
    ensures met { IfOk result (λ ran. HaveMetWorn script.now workers ran.seat.clock ran.trace ran.totals.items ran.ports.items ran.met_worn.items) }
    ensures lowest { IfOk result (λ ran. ran.worn ≡ lowest_of ran.met_worn.items) }
    ensures fates { IfOk result (λ ran. length ran.fates.items ≡ workers) }
    ensures risen { IfOk result (λ ran. (i : ℕ) (f : _) (g : _) (t : TotalsSeen) → slice_get fates.items i ≡ Some f → slice_get ran.fates.items i ≡ Some g → slice_get ran.totals.items i ≡ Some t → HasRisen script.now workers ran.trace i t (state f) (state g)) }
{
    let (mut clock, mut seat) = Clock::new(alloc)?;
    let count = 1 + script.space.servers + script.sessions.len() as u32;
    let seats = enrol_all(alloc, &mut clock, &mut seat, count)?;
    let driven = run_drivers(
        rt, alloc, script, &clock, seats, workers, capacity, fates, gate,
    )?;
    let Driven {
        closed,
        fault,
        met_worn,
    } = driven;
    let worn = worn_by(fault)?;
    let Closed {
        actors,
        totals,
        fates,
        ports,
    } = closed;
    let Gathered { trace, seat } = gather(alloc, clock, seat, actors)?;
    runs_of_drivers_are_paced();
    traces_go_on();
    puts_are_posts();
    Ok(Ran {
        trace,
        seat,
        totals,
        fates,
        ports,
        met_worn,
        worn,
    })
}
