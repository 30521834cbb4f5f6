ghost use Rattle.std.specs.Prelude.{◌≡◌, ◌≤◌, ◌<◌, [], length, IfOk, Some};
ghost use Rattle.hx_types.specs.Fitting.{IsScript};
ghost use Rattle.hx_types.specs.declared.limits.TheConstants.{MOST_DRIVERS};
ghost use Rattle.hx_mail.specs.Boxes.{IsPortOf};
ghost use Rattle.hx_mail.specs.Ports.{first_port};
ghost use Rattle.hx_outbox.specs.Places.{names_for, AreBoxes};
ghost use Rattle.hx_driver.specs.Inboxes.{IsInPort, ins_of};
ghost use Rattle.hx_cluster.specs.Opened.{AreNewPorts, AreOutPortsFrom, ArePortsOf};

use crate::actors::actor_at;
use hx_clock::Clock;
use hx_mail::{Mailbox, Port};
use hx_types::{Actor, Memory, Script};
use std::alloc::Global;
use std::sync::Wait;

/// The ports of one box: the first, which takes, and one of each driver.
#[derive(Drop)]
pub struct BoxPorts {
    pub first: Port,
    pub others: Vec<Port>,
}

/// A port for each of so many drivers, split off the first port of a new box.
fn split_all<R: Wait>(
    rt: &R,
    alloc: Global,
    mailbox: &Mailbox<'_>,
    first: &mut Port,
    workers: u32,
) -> Result<Vec<Port>, Memory>
    requires first { IsPortOf mailbox.now first.old × (first.old.view ≡ first_port (Some mailbox.now.names)) }
    requires workers { workers ≤ MOST_DRIVERS }
    ensures first { IfOk result (λ _. IsInPort workers mailbox.now first.new × (ins_of first.new ≡ [])) }
    ensures others { IfOk result (λ others. AreOutPortsFrom 0 mailbox.now others.items × (length others.items ≡ workers)) }
{
    let mut others = Vec::with_capacity(alloc, workers as usize)?;
    for _driver in 0..workers {
        let port = mailbox.split(rt, first)?;
        others.push(port)?;
    }
    Ok(others)
}

/// An empty box of an actor, with its ports for so many drivers.
fn open_box<'a, R: Wait>(
    rt: &R,
    alloc: Global,
    script: &'a Script,
    clock: &'a Clock,
    owner: Actor,
    workers: u32,
    capacity: usize,
) -> Result<(Mailbox<'a>, BoxPorts), Memory>
    requires script { IsScript script.now }
    requires capacity { 0 < capacity }
    requires workers { workers ≤ MOST_DRIVERS }
    ensures names { IfOk result (λ opened. opened.0.names ≡ names_for script.now clock.now owner) }
    ensures ports { IfOk result (λ opened. AreNewPorts workers opened.0 opened.1) }
{
    let sessions = script.sessions.len() as u32;
    let (mailbox, mut first) = Mailbox::new(
        alloc,
        clock,
        owner,
        &script.space,
        sessions,
        capacity,
    )?;
    let others = split_all(rt, alloc, &mailbox, &mut first, workers)?;
    Ok((mailbox, BoxPorts { first, others }))
}

/// A box for each actor of the script, in order, with its ports for so many drivers. It fails with
/// [`Memory`] alone.
pub fn open_boxes<'a, R: Wait>(
    rt: &R,
    alloc: Global,
    script: &'a Script,
    clock: &'a Clock,
    workers: u32,
    capacity: usize,
) -> Result<(Vec<Mailbox<'a>>, Vec<BoxPorts>), Memory>
    requires script { IsScript script.now }
    requires capacity { 0 < capacity }
    requires workers { workers ≤ MOST_DRIVERS }
    ensures boxes { IfOk result (λ opened. AreBoxes script.now clock.now opened.0.items) }
    ensures ports { IfOk result (λ opened. ArePortsOf workers opened.0.items opened.1.items) }
{
    let count = 1 + script.space.servers + script.sessions.len() as u32;
    let mut boxes = Vec::with_capacity(alloc, count as usize)?;
    let mut ports = Vec::with_capacity(alloc, count as usize)?;
    for place in 0..count {
        let owner = actor_at(&script.space, place);
        let (mailbox, of_box) = open_box(rt, alloc, script, clock, owner, workers, capacity)?;
        boxes.push(mailbox)?;
        ports.push(of_box)?;
    }
    Ok((boxes, ports))
}
