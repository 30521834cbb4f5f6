//! What an actor takes from its box.
ghost use Rattle.std.specs.Prelude.{ℕ, ◌≡◌, ◌++◌, ◌∷◌, false, [], List, MatchOption, length, ⊤};
ghost use mathlib.Core.List.{IsPrefix};
ghost use Rattle.hx_law_threads.specs.Cuts.{is_tick};
ghost use Rattle.hx_mail.specs.declared.views.Mailed.{Mailed};
ghost use Rattle.hx_mail.specs.declared.views.Sent.{Sent};
ghost use Rattle.hx_mail.specs.Ports.{sent};
ghost use Rattle.hx_driver.specs.Floors.{IsDeskOn};
ghost use Rattle.hx_driver.specs.Told.{told_by};
ghost use Rattle.hx_driver.specs.Givings.{CanBeGiven, CanCount, HasTaken};
ghost use Rattle.hx_driver.specs.Inboxes.{IsHeardFrom};

use crate::desks::Desk;
use hx_mail::{Envelope, Letter};
use hx_outbox::{Floor, place_of};
use hx_types::{Input, Post};
use std::sync::Wait;

/// Counts one more envelope under a port's name.
fn count_taken(heard: &mut Vec<u64>, name: u32)
    requires room { CanCount heard.old.items }
    ensures length { length heard.new.items ≡ length heard.old.items }
    ensures heard { (ins : List Sent) (m : Mailed) → IsHeardFrom 0 heard.old.items ins → IsHeardFrom 0 heard.new.items (ins ++ sent name m ∷ []) }
{
    let at = name as usize;
    if at < heard.len() {
        heard[at] += 1;
    }
}

/// Takes an envelope from the actor's box, counts it and learns what its pass knows. `None` comes
/// only where the box was empty at a moment of the call.
#[inline(always)]
pub(crate) fn receive<R: Wait, G>(floor: &Floor<'_, R, G>, desk: &mut Desk) -> Option<Input>
    requires desk { (w : ℕ) × (rest : List Mailed) × IsDeskOn floor.now w rest desk.old }
    requires room { CanCount desk.old.heard.items }
    ensures taken { HasTaken desk.old desk.new }
    ensures desk { MatchOption result ((w : ℕ) (rest : List Mailed) → IsDeskOn floor.now w rest desk.old → IsDeskOn floor.now w rest desk.new) (λ input. (w : ℕ) (rest : List Mailed) → IsDeskOn floor.now w rest desk.old → IsDeskOn floor.now w (rest ++ told_by desk.old.actor input) desk.new) }
    ensures given { MatchOption result ⊤ (λ input. CanBeGiven floor.now.script.now desk.new input × (is_tick input ≡ false)) }
{
    let place = place_of(&floor.script.space, desk.actor);
    let boxes = floor.boxes;
    let Letter { port, envelope } = boxes[place].take(floor.rt, &mut desk.inbox)?;
    count_taken(&mut desk.heard, port);
    let Envelope { id, post, pass } = envelope;
    floor.clock.learn(&mut desk.seat, pass);
    let from = post.from;
    let message = post.into_message();
    Some(Input::Deliver { id, from, message })
}
