ghost use Rattle.std.specs.Prelude.{ℕ, ◌≡◌, ◌+◌, ◌^◌, ◌<◌, ◌≤◌, length};
ghost use Rattle.std.specs.VecDeque.{deque_len, deque_capacity};
ghost use Rattle.hx_mail.specs.declared.views.Mailed.{Mailed};
ghost use Rattle.hx_mail.specs.Ports.{mailed_of};
ghost use Rattle.hx_outbox.specs.Floors.{AreGoodOn, IsGoodOn};
ghost use Rattle.hx_outbox.specs.Outboxes.{AreFew, IsOutbox, MorePut, kept_weight, out_weight};
ghost use Rattle.hx_outbox.specs.Places.{place_of};

use crate::floors::Floor;
use hx_mail::{Envelope, Port};
use hx_types::{Actor, Space};
use std::collections::VecDeque;
use std::sync::Wait;

/// The ports of a driver, one at each box, and how many envelopes were put under each. The ports of
/// driver j, from 0, have the name j + 1.
pub struct Outbox {
    pub index: u32,
    pub ports: Vec<Port>,
    pub sent: Vec<u64>,
}

impl Drop for Outbox {
    fn drop(self) {
        let Outbox {
            index: _,
            ports: _,
            sent: _,
        } = self;
    }
}

/// The place of an actor's box among those of all actors, from 0: the coordinator's is the first,
/// and those of the servers and of the sessions follow.
pub fn place_of(space: &Space, actor: Actor) -> usize
    ensures { result ≡ place_of space.now actor }
{
    match actor {
        Actor::Coordinator => 0,
        Actor::Server(server) => server.0 as usize,
        Actor::Session(session) => space.servers as usize + session.0 as usize,
    }
}

/// Puts an envelope into its receiver's box, or keeps it where the box is full.
#[inline(always)]
pub fn put_or_keep<R: Wait, G>(
    floor: &Floor<'_, R, G>,
    out: &mut Outbox,
    kept: &mut VecDeque<Envelope>,
    envelope: Envelope,
)
    requires out { IsOutbox floor.now.boxes.now out.old }
    requires good { IsGoodOn floor.now envelope }
    requires room { deque_len kept.old < deque_capacity kept.old }
    requires few { AreFew out.old.ports.items }
    ensures out { IsOutbox floor.now.boxes.now out.new × (out.new.index ≡ out.old.index) }
    ensures more { MorePut out.old.ports.items out.new.ports.items }
    ensures weight { (h : Mailed → ℕ) → out_weight h out.new.ports.items + kept_weight h kept.new.items ≡ out_weight h out.old.ports.items + kept_weight h kept.old.items + h (mailed_of envelope) }
    ensures good { AreGoodOn floor.now kept.old.items → AreGoodOn floor.now kept.new.items }
    ensures capacity { (deque_capacity kept.new ≡ deque_capacity kept.old) × (deque_len kept.new ≤ deque_len kept.old + 1) }
{
    let to = place_of(&floor.script.space, envelope.post.to);
    let boxes = floor.boxes;
    match boxes[to].put(floor.rt, envelope, &mut out.ports[to]) {
        Ok(()) => out.sent[to] += 1,
        Err(full) => kept.push_back_reserved(full.0),
    }
}

/// Puts the first kept envelope again.
fn put_next<R: Wait, G>(floor: &Floor<'_, R, G>, out: &mut Outbox, kept: &mut VecDeque<Envelope>)
    requires out { IsOutbox floor.now.boxes.now out.old }
    requires good { AreGoodOn floor.now kept.old.items }
    requires few { out_weight (λ m. 1) out.old.ports.items + kept_weight (λ m. 1) kept.old.items < 2 ^ 63 }
    ensures out { IsOutbox floor.now.boxes.now out.new × (out.new.index ≡ out.old.index) }
    ensures more { MorePut out.old.ports.items out.new.ports.items }
    ensures weight { (h : Mailed → ℕ) → out_weight h out.new.ports.items + kept_weight h kept.new.items ≡ out_weight h out.old.ports.items + kept_weight h kept.old.items }
    ensures good { AreGoodOn floor.now kept.new.items }
{
    match kept.pop_front() {
        Some(envelope) => put_or_keep(floor, out, kept, envelope),
        None => {}
    }
}

/// Puts the kept envelopes again, each once.
pub fn put_kept<R: Wait, G>(
    floor: &Floor<'_, R, G>,
    out: &mut Outbox,
    kept: &mut VecDeque<Envelope>,
)
    requires out { IsOutbox floor.now.boxes.now out.old }
    requires good { AreGoodOn floor.now kept.old.items }
    requires few { out_weight (λ m. 1) out.old.ports.items + kept_weight (λ m. 1) kept.old.items < 2 ^ 63 }
    ensures out { IsOutbox floor.now.boxes.now out.new × (out.new.index ≡ out.old.index) }
    ensures more { MorePut out.old.ports.items out.new.ports.items }
    ensures weight { (h : Mailed → ℕ) → out_weight h out.new.ports.items + kept_weight h kept.new.items ≡ out_weight h out.old.ports.items + kept_weight h kept.old.items }
    ensures good { AreGoodOn floor.now kept.new.items }
{
    for _round in 0..kept.len() {
        put_next(floor, out, kept);
    }
}
