ghost use Rattle.std.specs.Prelude.{ℕ, ◌≡◌, ◌≤◌, length, map, slice_get, IfOk, Some};
ghost use Rattle.hx_types.specs.Fitting.{IsScript};
ghost use Rattle.hx_types.specs.declared.limits.TheConstants.{MOST_DRIVERS};
ghost use Rattle.hx_outbox.specs.Places.{AreBoxes};
ghost use Rattle.hx_cluster.specs.Clusters.{AreNewCrews, AreNewSeats};
ghost use Rattle.hx_cluster.specs.Everyone.{actors_of};
ghost use Rattle.hx_cluster.specs.Dealt.{AtEach, IsNewOutbox};
ghost use Rattle.hx_cluster.specs.Opened.{ArePortsOf};
ghost use Rattle.hx_cluster.specs.Setups.{AreAllDesksIn, AreNewCrewsIn};

use crate::opening::BoxPorts;
use crate::outboxes::{add_ports, new_outboxes};
use crate::seating::{new_desks, seat_actor};
use crate::setups::Setup;
use hx_clock::{Clock, Seat};
use hx_driver::{Crew, Desk, Driver};
use hx_fate::Fate;
use hx_mail::Mailbox;
use hx_outbox::Outbox;
use hx_types::{Memory, Script, Totals};
use std::alloc::Global;

/// The desks and the outboxes of the drivers.
fn deal_out(
    setup: &Setup<'_>,
    seats: Vec<Seat>,
    ports: Vec<BoxPorts>,
) -> Result<(Vec<Vec<Desk>>, Vec<Outbox>), Memory>
    requires seats { AreNewSeats setup.now.clock.now seats.items }
    requires all { length seats.items ≡ length (actors_of setup.now.script.now) }
    requires ports { ArePortsOf setup.now.workers setup.now.boxes.now ports.items }
    ensures desks { IfOk result (λ dealt. AtEach (λ i d. AreAllDesksIn setup.now i d.items) dealt.0.items × (length dealt.0.items ≡ setup.now.workers)) }
    ensures outs { IfOk result (λ dealt. AtEach (IsNewOutbox setup.now.boxes.now) dealt.1.items × (length dealt.1.items ≡ setup.now.workers)) }
{
    let mut desks = new_desks(setup)?;
    let mut outs = new_outboxes(setup.alloc, setup.workers)?;
    let mut place: u32 = 0;
    for (seat, of_box) in seats.into_iter().zip(ports) {
        let BoxPorts { first, others } = of_box;
        add_ports(&mut outs, others)?;
        seat_actor(setup, &mut desks, place, seat, first)?;
        place += 1;
    }
    Ok((desks, outs))
}

/// Crews that have done nothing, of these desks and outboxes.
fn new_crews(
    setup: &Setup<'_>,
    desks: Vec<Vec<Desk>>,
    outs: Vec<Outbox>,
) -> Result<Vec<Crew>, Memory>
    requires desks { AtEach (λ i d. AreAllDesksIn setup.now i d.items) desks.items × (length desks.items ≡ setup.now.workers) }
    requires outs { AtEach (IsNewOutbox setup.now.boxes.now) outs.items × (length outs.items ≡ setup.now.workers) }
    ensures { IfOk result (λ crews. AreNewCrewsIn setup.now crews.items) }
{
    let mut crews = Vec::with_capacity(setup.alloc, setup.workers as usize)?;
    for (desks, out) in desks.into_iter().zip(outs) {
        crews.push(Crew {
            desks,
            out,
            totals: Totals {
                posts: 0,
                deliver: 0,
                lose: 0,
                twice: 0,
            },
            fault: None,
        })?;
    }
    Ok(crews)
}

/// Drivers of these crews, each with the fate of its place. Further fates are dropped.
fn give_fates(
    alloc: Global,
    crews: Vec<Crew>,
    fates: Vec<Box<dyn Fate + Send>>,
) -> Result<Vec<Driver>, Memory>
    requires { length crews.items ≤ length fates.items }
    ensures crews { IfOk result (λ drivers. map (λ d. d.crew) drivers.items ≡ crews.items) }
    ensures fates { IfOk result (λ drivers. (i : ℕ) (d : _) (f : _) → slice_get drivers.items i ≡ Some d → slice_get fates.items i ≡ Some f → state d.fate ≡ state f) }
{
    let mut drivers = Vec::with_capacity(alloc, crews.len())?;
    for (crew, fate) in crews.into_iter().zip(fates) {
        drivers.push(Driver { crew, fate })?;
    }
    Ok(drivers)
}

/// The drivers of a script before the first turn, each with its actors, its ports and its fate:
/// driver i has the i-th fate, and those that no driver has are dropped. It fails with [`Memory`]
/// alone.
pub fn deal(
    alloc: Global,
    script: &Script,
    clock: &Clock,
    boxes: &[Mailbox<'_>],
    seats: Vec<Seat>,
    ports: Vec<BoxPorts>,
    workers: u32,
    fates: Vec<Box<dyn Fate + Send>>,
) -> Result<Vec<Driver>, Memory>
    requires script { IsScript script.now }
    requires boxes { AreBoxes script.now clock.now boxes.now }
    requires seats { AreNewSeats clock.now seats.items }
    requires all { length seats.items ≡ length (actors_of script.now) }
    requires ports { ArePortsOf workers boxes.now ports.items }
    requires workers { (1 ≤ workers) × (workers ≤ MOST_DRIVERS) × (workers ≤ length fates.items) }
    ensures crews { IfOk result (λ drivers. AreNewCrews script.now clock.now boxes.now workers (map (λ d. d.crew) drivers.items)) }
    ensures fates { IfOk result (λ drivers. (i : ℕ) (d : _) (f : _) → slice_get drivers.items i ≡ Some d → slice_get fates.items i ≡ Some f → state d.fate ≡ state f) }
{
    let setup = Setup {
        alloc,
        script,
        clock,
        boxes,
        workers,
    };
    let (desks, outs) = deal_out(&setup, seats, ports)?;
    let crews = new_crews(&setup, desks, outs)?;
    give_fates(alloc, crews, fates)
}
