ghost use Rattle.std.specs.Prelude.{ℕ, List, ◌≡◌, ◌+◌, ◌<◌, ◌++◌, ◌∷◌, [], length, slice_index_or, IsPermutation, OnOk};
ghost use Rattle.std.specs.List.{AllByRecursion};
ghost use Rattle.std.specs.List.Sorted.{IsNonDecreasingBy};
ghost use Rattle.hx_mail.specs.Boxes.{Boxed};
ghost use Rattle.hx_outbox.specs.declared.outboxes.Outbox.{Outbox as OutboxSeen};
ghost use Rattle.hx_outbox.specs.Outboxes.{IsOutPort, IsOutbox, outs_of};
ghost use Rattle.hx_outbox.specs.Zipped.{Both};
ghost use Rattle.hx_law_drivers.specs.Joined.{outs_at};
ghost use Rattle.hx_run.specs.Joined.{place_at, AreInPlaces, AreJoinedFrom, HaveIndexes, IsJoined, IsKeptPort, IsRestOf, TookInOrder, TookOnce};

use hx_mail::{Mailbox, Port};
use hx_outbox::{Outbox, place_of};
use hx_types::{Actor, Memory, Script};
use std::sync::Wait;

/// An actor and the first port of its box, which took for it.
#[derive(Drop)]
pub struct OwnedPort {
    pub actor: Actor,
    pub inbox: Port,
}

/// Brings actors into the order of their boxes. It fails with [`Memory`] alone, and then they may
/// have any order.
pub fn sort_by_place(script: &Script, owned_ports: &mut Vec<OwnedPort>) -> Result<(), Memory>
    ensures permutation { IsPermutation owned_ports.old.items owned_ports.new.items }
    ensures sorted { OnOk result (IsNonDecreasingBy (place_at script.now) owned_ports.new.items) }
{
    owned_ports.sort_by_key(|owned_port: &OwnedPort| place_of(&script.space, owned_port.actor))?;
    Ok(())
}

/// Joins a driver's port into the first port of its box.
fn join_one<R: Wait>(
    rt: &R,
    script: &Script,
    boxes: &[Mailbox<'_>],
    owned_port: &mut OwnedPort,
    port: Port,
)
    requires owned_port { (w : ℕ) × (outs : List OutboxSeen) × IsJoined script.now w boxes.now outs owned_port.old }
    requires port { (j : ℕ) × ((box : Boxed) → box ≡ slice_index_or boxes.now (place_at script.now owned_port.old) box → IsOutPort j box port) }
    ensures kept { IsKeptPort owned_port.old owned_port.new }
    ensures joined { (w : ℕ) (outs : List OutboxSeen) (o : OutboxSeen) → IsJoined script.now w boxes.now outs owned_port.old → outs_at (place_at script.now owned_port.old) o.ports.items ≡ outs_of port → ((box : Boxed) → box ≡ slice_index_or boxes.now (place_at script.now owned_port.old) box → IsOutPort o.index box port) → IsJoined script.now w boxes.now (o ∷ outs) owned_port.new }
{
    let place = place_of(&script.space, owned_port.actor);
    boxes[place].join(rt, &mut owned_port.inbox, port);
}

/// Joins the last of a driver's ports.
fn join_last<R: Wait>(
    rt: &R,
    script: &Script,
    boxes: &[Mailbox<'_>],
    owned_ports: &mut Vec<OwnedPort>,
    out: &mut Outbox,
)
    requires rest { (o : OutboxSeen) × IsRestOf boxes.now out.old o }
    requires owned_ports { AreInPlaces script.now 0 owned_ports.old.items × (length owned_ports.old.items ≡ length boxes.now) }
    requires joined { (w : ℕ) × (outs : List OutboxSeen) × (o : OutboxSeen) × AreJoinedFrom script.now w boxes.now outs o (length out.old.ports.items) owned_ports.old.items }
    requires some { 0 < length out.old.ports.items }
    ensures rest { (o : OutboxSeen) → IsRestOf boxes.now out.old o → IsRestOf boxes.now out.new o }
    ensures fewer { length out.new.ports.items + 1 ≡ length out.old.ports.items }
    ensures kept { Both IsKeptPort owned_ports.old.items owned_ports.new.items }
    ensures joined { (w : ℕ) (outs : List OutboxSeen) (o : OutboxSeen) → IsRestOf boxes.now out.old o → AreJoinedFrom script.now w boxes.now outs o (length out.old.ports.items) owned_ports.old.items → AreJoinedFrom script.now w boxes.now outs o (length out.new.ports.items) owned_ports.new.items }
{
    match out.ports.pop() {
        Some(port) => {
            let at = out.ports.len();
            join_one(rt, script, boxes, &mut owned_ports[at], port);
        }
        None => {}
    }
}

/// Joins all ports of a driver.
fn join_out<R: Wait>(
    rt: &R,
    script: &Script,
    boxes: &[Mailbox<'_>],
    owned_ports: &mut Vec<OwnedPort>,
    out: Outbox,
)
    requires out { IsOutbox boxes.now out }
    requires owned_ports { AreInPlaces script.now 0 owned_ports.old.items × (length owned_ports.old.items ≡ length boxes.now) }
    requires joined { (w : ℕ) × (outs : List OutboxSeen) × AllByRecursion (IsJoined script.now w boxes.now outs) owned_ports.old.items }
    ensures kept { Both IsKeptPort owned_ports.old.items owned_ports.new.items }
    ensures joined { (w : ℕ) (outs : List OutboxSeen) → AllByRecursion (IsJoined script.now w boxes.now outs) owned_ports.old.items → AllByRecursion (IsJoined script.now w boxes.now (out ∷ outs)) owned_ports.new.items }
{
    let mut out = out;
    for _round in 0..out.ports.len() {
        join_last(rt, script, boxes, owned_ports, &mut out);
    }
}

/// Joins all ports of the last driver.
fn join_next<R: Wait>(
    rt: &R,
    script: &Script,
    boxes: &[Mailbox<'_>],
    owned_ports: &mut Vec<OwnedPort>,
    outs: &mut Vec<Outbox>,
)
    requires outs { AllByRecursion (IsOutbox boxes.now) outs.old.items }
    requires owned_ports { AreInPlaces script.now 0 owned_ports.old.items × (length owned_ports.old.items ≡ length boxes.now) }
    requires joined { (w : ℕ) × (all : List OutboxSeen) × AllByRecursion (IsJoined script.now w boxes.now all) owned_ports.old.items }
    requires some { 0 < length outs.old.items }
    ensures outs { AllByRecursion (IsOutbox boxes.now) outs.new.items × (length outs.new.items + 1 ≡ length outs.old.items) }
    ensures kept { Both IsKeptPort owned_ports.old.items owned_ports.new.items }
    ensures joined { (o : OutboxSeen) × (outs.old.items ≡ outs.new.items ++ o ∷ []) × ((w : ℕ) (all : List OutboxSeen) → AllByRecursion (IsJoined script.now w boxes.now all) owned_ports.old.items → AllByRecursion (IsJoined script.now w boxes.now (o ∷ all)) owned_ports.new.items) }
{
    match outs.pop() {
        Some(out) => join_out(rt, script, boxes, owned_ports, out),
        None => {}
    }
}

/// Joins the ports of all drivers into the first ports of the boxes. Then each first port knows
/// that, of what each driver put for its actor, what was taken is, in order, a prefix, and that no
/// put was taken twice.
pub fn join_all<R: Wait>(
    rt: &R,
    script: &Script,
    boxes: &[Mailbox<'_>],
    owned_ports: &mut Vec<OwnedPort>,
    outs: Vec<Outbox>,
)
    requires outs { AllByRecursion (IsOutbox boxes.now) outs.items × HaveIndexes (length outs.items) outs.items × (0 < length outs.items) }
    requires owned_ports { AreInPlaces script.now 0 owned_ports.old.items × (length owned_ports.old.items ≡ length boxes.now) }
    requires joined { AllByRecursion (IsJoined script.now (length outs.items) boxes.now []) owned_ports.old.items }
    ensures kept { Both IsKeptPort owned_ports.old.items owned_ports.new.items }
    ensures joined { AllByRecursion (IsJoined script.now (length outs.items) boxes.now outs.items) owned_ports.new.items }
    ensures order { AllByRecursion (TookInOrder script.now outs.items) owned_ports.old.items }
    ensures once { TookOnce outs.items owned_ports.old.items }
{
    let mut outs = outs;
    for _round in 0..outs.len() {
        join_next(rt, script, boxes, owned_ports, &mut outs);
    }
}
