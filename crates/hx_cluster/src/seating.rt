ghost use Rattle.std.specs.Prelude.{ℕ, ◌≡◌, ◌≤◌, ◌<◌, ◌+◌, ◌∷◌, ◌++◌, [], true, length, slice_get, IfOk, List, OnOk, Some};
ghost use Rattle.hx_model.specs.Runs.{is_actor};
ghost use Rattle.hx_outbox.specs.Places.{place_of};
ghost use Rattle.hx_cluster.specs.Dealt.{AtEach};
ghost use Rattle.hx_cluster.specs.Setups.{AreNewDesksIn, IsNewDeskIn, IsNewInboxIn, IsNewSeatIn};

use crate::actors::actor_at;
use crate::setups::Setup;
use hx_clock::{GrowingPart, Seat};
use hx_driver::{Desk, Lent};
use hx_machine::Machine;
use hx_mail::Port;
use hx_types::{Actor, Memory};
use std::collections::VecDeque;

/// The lists of desks of so many drivers, with no desk.
pub fn new_desks(setup: &Setup<'_>) -> Result<Vec<Vec<Desk>>, Memory>
    ensures { IfOk result (λ desks. AtEach (λ i d. AreNewDesksIn setup.now 0 i d.items) desks.items × (length desks.items ≡ setup.now.workers)) }
{
    let mut desks = Vec::with_capacity(setup.alloc, setup.workers as usize)?;
    for _driver in 0..setup.workers {
        desks.push(Vec::new(setup.alloc))?;
    }
    Ok(desks)
}

/// The desk of an actor that has made no entry.
fn new_desk(setup: &Setup<'_>, actor: Actor, seat: Seat, inbox: Port) -> Result<Desk, Memory>
    requires actor { is_actor setup.now.script.now actor ≡ true }
    requires seat { IsNewSeatIn setup.now (place_of setup.now.script.now.space actor) seat }
    requires inbox { IsNewInboxIn setup.now (place_of setup.now.script.now.space actor) inbox }
    ensures desk { IfOk result (IsNewDeskIn setup.now) }
    ensures actor { IfOk result (λ desk. desk.actor ≡ actor) }
{
    let heard = Vec::from_elem(setup.alloc, 0u64, setup.workers as usize + 1)?;
    Ok(Desk {
        actor,
        machine: Machine::start(setup.alloc, setup.script, actor)?,
        part: GrowingPart::new(setup.alloc),
        seat,
        inbox,
        kept: VecDeque::new(setup.alloc),
        heard,
        lent: Lent::new(setup.alloc),
    })
}

/// Gives the actor of this place to its driver.
pub fn seat_actor(
    setup: &Setup<'_>,
    desks: &mut Vec<Vec<Desk>>,
    place: u32,
    seat: Seat,
    inbox: Port,
) -> Result<(), Memory>
    requires place { place < 1 + setup.now.script.now.space.servers + length setup.now.script.now.sessions }
    requires seat { IsNewSeatIn setup.now place seat }
    requires inbox { IsNewInboxIn setup.now place inbox }
    requires desks { length desks.old.items ≡ setup.now.workers }
    ensures count { length desks.new.items ≡ length desks.old.items }
    ensures dealt { OnOk result (AtEach (λ i d. AreNewDesksIn setup.now place i d.items) desks.old.items → AtEach (λ i d. AreNewDesksIn setup.now (place + 1) i d.items) desks.new.items) }
{
    let actor = actor_at(&setup.script.space, place);
    let desk = new_desk(setup, actor, seat, inbox)?;
    desks[(place % setup.workers) as usize].push(desk)?;
    Ok(())
}
