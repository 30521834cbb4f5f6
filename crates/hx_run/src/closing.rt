ghost use Rattle.std.specs.Prelude.{ℕ, List, ◌≡◌, ◌≤◌, ◌++◌, ◌∷◌, [], map, IfOk, OnOk};
ghost use Rattle.hx_law_drivers.specs.Crews.{desks_of, AreNumbered, HaveAllActors};
ghost use Rattle.hx_law_drivers.specs.Joined.{AreInOrder, AreOnce};
ghost use Rattle.hx_run.specs.Closed.{seated_of, owned_port_of, IsLeft};
ghost use Rattle.hx_run.specs.Floors.{AreCrewsOn};

use crate::joining::{OwnedPort, join_all, sort_by_place};
use hx_driver::{Crew, Desk, Driver};
use hx_fate::Fate;
use hx_gather::SeatedPart;
use hx_mail::Port;
use hx_outbox::{Floor, Outbox};
use hx_types::{Memory, Totals};
use std::alloc::Global;
use std::sync::Wait;

/// What is left of drivers: the parts of their actors, their totals and fates in order, and the
/// first ports of all boxes in the order of actors.
#[derive(Drop)]
pub struct Closed {
    pub actors: Vec<SeatedPart>,
    pub totals: Vec<Totals>,
    pub fates: Vec<Box<dyn Fate + Send>>,
    pub ports: Vec<Port>,
}

/// What is left of an actor: its part with its seat, and its first port.
fn part_and_port(desk: Desk) -> (SeatedPart, OwnedPort)
    ensures { (result.0 ≡ seated_of desk) × (result.1 ≡ owned_port_of desk) }
{
    let (actor, part, seat, inbox) = desk.leave();
    let part = part.into_part();
    (SeatedPart { actor, part, seat }, OwnedPort { actor, inbox })
}

/// What is left of an actor.
fn take_desk(
    actors: &mut Vec<SeatedPart>,
    owned_ports: &mut Vec<OwnedPort>,
    desk: Desk,
) -> Result<(), Memory>
    ensures actors { OnOk result (actors.new.items ≡ actors.old.items ++ seated_of desk ∷ []) }
    ensures owned_ports { OnOk result (owned_ports.new.items ≡ owned_ports.old.items ++ owned_port_of desk ∷ []) }
{
    let (seated, owned_port) = part_and_port(desk);
    actors.push(seated)?;
    owned_ports.push(owned_port)?;
    Ok(())
}

/// What is left of a driver's actors.
fn take_desks(
    actors: &mut Vec<SeatedPart>,
    owned_ports: &mut Vec<OwnedPort>,
    desks: Vec<Desk>,
) -> Result<(), Memory>
    ensures actors { OnOk result (actors.new.items ≡ actors.old.items ++ map seated_of desks.items) }
    ensures owned_ports { OnOk result (owned_ports.new.items ≡ owned_ports.old.items ++ map owned_port_of desks.items) }
{
    for desk in desks {
        take_desk(actors, owned_ports, desk)?;
    }
    Ok(())
}

/// What is left of a driver, but for its fate.
fn take_crew(
    actors: &mut Vec<SeatedPart>,
    owned_ports: &mut Vec<OwnedPort>,
    outs: &mut Vec<Outbox>,
    totals: &mut Vec<Totals>,
    crew: Crew,
) -> Result<(), Memory>
    ensures actors { OnOk result (actors.new.items ≡ actors.old.items ++ map seated_of crew.desks.items) }
    ensures owned_ports { OnOk result (owned_ports.new.items ≡ owned_ports.old.items ++ map owned_port_of crew.desks.items) }
    ensures outs { OnOk result (outs.new.items ≡ outs.old.items ++ crew.out ∷ []) }
    ensures totals { OnOk result (totals.new.items ≡ totals.old.items ++ crew.totals ∷ []) }
{
    let (desks, out, sum) = crew.into_parts();
    take_desks(actors, owned_ports, desks)?;
    outs.push(out)?;
    totals.push(sum)?;
    Ok(())
}

/// Drivers taken apart: their actors' parts and ports in the order of drivers, their own ports,
/// totals and fates.
#[derive(Drop)]
struct Apart {
    actors: Vec<SeatedPart>,
    owned_ports: Vec<OwnedPort>,
    outs: Vec<Outbox>,
    totals: Vec<Totals>,
    fates: Vec<Box<dyn Fate + Send>>,
}

/// Takes drivers apart.
fn take_apart(alloc: Global, drivers: Vec<Driver>) -> Result<Apart, Memory>
    ensures actors { IfOk result (λ apart. apart.actors.items ≡ map seated_of (desks_of (map (λ d. d.crew) drivers.items))) }
    ensures owned_ports { IfOk result (λ apart. apart.owned_ports.items ≡ map owned_port_of (desks_of (map (λ d. d.crew) drivers.items))) }
    ensures outs { IfOk result (λ apart. apart.outs.items ≡ map (λ c. c.out) (map (λ d. d.crew) drivers.items)) }
    ensures totals { IfOk result (λ apart. apart.totals.items ≡ map (λ c. c.totals) (map (λ d. d.crew) drivers.items)) }
    ensures fates { IfOk result (λ apart. apart.fates.items ≡ map (λ d. d.fate) drivers.items) }
{
    let mut actors = Vec::new(alloc);
    let mut owned_ports = Vec::new(alloc);
    let mut outs = Vec::new(alloc);
    let mut totals = Vec::new(alloc);
    let mut fates = Vec::new(alloc);
    for driver in drivers {
        let Driver { crew, fate } = driver;
        take_crew(&mut actors, &mut owned_ports, &mut outs, &mut totals, crew)?;
        fates.push(fate)?;
    }
    Ok(Apart {
        actors,
        owned_ports,
        outs,
        totals,
        fates,
    })
}

/// The ports, in order.
fn ports_of(alloc: Global, owned_ports: Vec<OwnedPort>) -> Result<Vec<Port>, Memory>
    ensures { IfOk result (λ ports. ports.items ≡ map (λ t. t.inbox) owned_ports.items) }
{
    let mut ports = Vec::new(alloc);
    for owned_port in owned_ports {
        let OwnedPort { actor: _, inbox } = owned_port;
        ports.push(inbox)?;
    }
    Ok(ports)
}

/// Takes drivers apart and joins all ports of each box into its first one.
pub fn close<R: Wait, G>(floor: &Floor<'_, R, G>, drivers: Vec<Driver>) -> Result<Closed, Memory>
    requires crews { (w : ℕ) × (1 ≤ w) × AreNumbered w (map (λ d. d.crew) drivers.items) × AreCrewsOn floor.now w (map (λ d. d.crew) drivers.items) }
    requires actors { HaveAllActors floor.now.script.now (map (λ d. d.crew) drivers.items) }
    ensures left { IfOk result (λ left. IsLeft floor.now.script.now floor.now.clock.now (map (λ d. d.crew) drivers.items) left.actors.items left.totals.items left.ports.items) }
    ensures fates { IfOk result (λ left. left.fates.items ≡ map (λ d. d.fate) drivers.items) }
    ensures order { IfOk result (λ left. AreInOrder floor.now.script.now (map (λ d. d.crew) drivers.items)) }
    ensures once { IfOk result (λ left. AreOnce (map (λ d. d.crew) drivers.items)) }
{
    let apart = take_apart(floor.alloc, drivers)?;
    let Apart {
        actors,
        mut owned_ports,
        outs,
        totals,
        fates,
    } = apart;
    sort_by_place(floor.script, &mut owned_ports)?;
    join_all(floor.rt, floor.script, floor.boxes, &mut owned_ports, outs);
    let ports = ports_of(floor.alloc, owned_ports)?;
    Ok(Closed {
        actors,
        totals,
        fates,
        ports,
    })
}
