ghost use Rattle.std.specs.Prelude.{ℕ, ◌≡◌, true, false, List, [], MatchResult, length, ◌||◌, ⊤};
ghost use Rattle.hx_types.specs.declared.ids.Actor.{Actor as ActorSeen};
ghost use Rattle.hx_types.specs.declared.traces.Entry.{Entry as EntrySeen};
ghost use Rattle.hx_types.specs.declared.traces.Script.{Script as ScriptSeen};
ghost use Rattle.hx_types.specs.declared.traces.Input.TheVariants.{Tick};
ghost use Rattle.hx_model.specs.Runs.{has_halted, does_something};
ghost use Rattle.hx_clock.specs.declared.parts.Stamped.{Stamped};
ghost use Rattle.hx_law_threads.specs.Cuts.{is_idle_actor};
ghost use Rattle.hx_mail.specs.declared.views.Mailed.{Mailed};
ghost use Rattle.hx_machine.specs.Machines.{IsMachine};
ghost use Rattle.hx_outbox.specs.Outboxes.{IsOutbox};
ghost use Rattle.hx_driver.specs.Desks.{HasRetried, entries_before};
ghost use Rattle.hx_driver.specs.Floors.{IsDeskOn, IsWholeDeskOn};
ghost use Rattle.hx_driver.specs.Givings.{IsReady, MakesEnough};
ghost use Rattle.hx_driver.specs.Turns.{HasRoom, IsFaultOf, IsTurn};

use crate::desks::Desk;
use crate::entering::reserve_and_make;
use crate::faults::Fault;
use crate::gates::Gate;
use crate::lent::Lent;
use crate::preparing::{is_worn, prepare_step};
use hx_fate::Fate;
use hx_machine::{Change, Machine};
use hx_outbox::{Floor, Outbox};
use hx_types::{Input, Totals};
use std::sync::Wait;

/// Whether the actor has halted, or is a session that can begin its next call.
fn rests(machine: &Machine) -> bool
    ensures { (script : ScriptSeen) (a : ActorSeen) (past : List EntrySeen) → IsMachine script a past machine.now → result ≡ (has_halted script past a || is_idle_actor script past a) }
{
    machine.halted() || machine.idle()
}

/// Whether a step posts or notes anything.
fn makes_anything(lent: &Lent) -> bool
    ensures { result ≡ does_something Tick (record { posts = lent.now.posts; notes = lent.now.notes }) }
{
    !(lent.posts.is_empty() && lent.notes.is_empty())
}

/// Makes the tick that the actor is ready for, where it makes anything.
fn finish<R: Wait, G: Gate>(
    floor: &Floor<'_, R, G>,
    desk: &mut Desk,
    out: &mut Outbox,
    fate: &mut Box<dyn Fate + Send>,
    totals: &mut Totals,
    change: Change,
) -> Result<(), Fault>
    requires desk { (w : ℕ) × IsDeskOn floor.now w [] desk.old }
    requires running { has_halted floor.now.script.now (entries_before desk.old.part.items) desk.old.actor ≡ false }
    requires waits { is_idle_actor floor.now.script.now (entries_before desk.old.part.items) desk.old.actor ≡ false }
    requires ready { IsReady floor.now.script.now desk.old Tick change }
    requires out { IsOutbox floor.now.boxes.now out.old }
    requires room { HasRoom out.old desk.old totals.old }
    ensures desk { (w : ℕ) → IsDeskOn floor.now w [] desk.old → IsDeskOn floor.now w [] desk.new }
    ensures retried { MatchResult result (λ _. HasRetried floor.now.script.now desk.old desk.new) (λ _. desk.new.part.items ≡ desk.old.part.items) }
    ensures fault { MatchResult result (λ _. ⊤) (λ fault. IsFaultOf floor.now.script.now true desk.new fault) }
    ensures turn { (xs : List Stamped) × IsTurn floor.now.boxes.now desk.old desk.new out.old out.new totals.old totals.new (state fate.old) (state fate.new) xs }
{
    if !makes_anything(&desk.lent) {
        drop(change);
        Ok(())
    } else if is_worn(desk) {
        drop(change);
        Err(Fault::Worn(desk.actor))
    } else {
        reserve_and_make(floor, desk, out, fate, totals, Input::Tick, change)
    }
}

/// A tick of an actor that hasn't halted and is no idle session, where the tick makes anything.
fn tick<R: Wait, G: Gate>(
    floor: &Floor<'_, R, G>,
    desk: &mut Desk,
    out: &mut Outbox,
    fate: &mut Box<dyn Fate + Send>,
    totals: &mut Totals,
) -> Result<(), Fault>
    requires desk { (w : ℕ) × IsDeskOn floor.now w [] desk.old }
    requires running { has_halted floor.now.script.now (entries_before desk.old.part.items) desk.old.actor ≡ false }
    requires waits { is_idle_actor floor.now.script.now (entries_before desk.old.part.items) desk.old.actor ≡ false }
    requires out { IsOutbox floor.now.boxes.now out.old }
    requires room { HasRoom out.old desk.old totals.old }
    ensures desk { (w : ℕ) → IsDeskOn floor.now w [] desk.old → IsDeskOn floor.now w [] desk.new }
    ensures retried { MatchResult result (λ _. HasRetried floor.now.script.now desk.old desk.new) (λ _. desk.new.part.items ≡ desk.old.part.items) }
    ensures fault { MatchResult result (λ _. ⊤) (λ fault. IsFaultOf floor.now.script.now true desk.new fault) }
    ensures turn { (xs : List Stamped) × IsTurn floor.now.boxes.now desk.old desk.new out.old out.new totals.old totals.new (state fate.old) (state fate.new) xs }
{
    match prepare_step(floor, desk, &Input::Tick) {
        Ok(change) => finish(floor, desk, out, fate, totals, change),
        Err(_) => Err(Fault::Memory),
    }
}

/// A tick of an actor that waits for what may have been lost: one that hasn't halted, is no session
/// that can begin its next call, and whose tick makes something. No other actor does anything.
/// Where the actor is worn, the entry that it has still to make is this retry.
pub fn retry<R: Wait, G: Gate>(
    floor: &Floor<'_, R, G>,
    desk: &mut Desk,
    out: &mut Outbox,
    fate: &mut Box<dyn Fate + Send>,
    totals: &mut Totals,
) -> Result<(), Fault>
    requires desk { (w : ℕ) × IsWholeDeskOn floor.now w desk.old }
    requires out { IsOutbox floor.now.boxes.now out.old }
    requires room { HasRoom out.old desk.old totals.old }
    ensures desk { (w : ℕ) → IsWholeDeskOn floor.now w desk.old → IsWholeDeskOn floor.now w desk.new }
    ensures retried { MatchResult result (λ _. HasRetried floor.now.script.now desk.old desk.new) (λ _. desk.new.part.items ≡ desk.old.part.items) }
    ensures fault { MatchResult result (λ _. ⊤) (λ fault. IsFaultOf floor.now.script.now true desk.new fault) }
    ensures turn { (xs : List Stamped) × IsTurn floor.now.boxes.now desk.old desk.new out.old out.new totals.old totals.new (state fate.old) (state fate.new) xs }
{
    if rests(&desk.machine) {
        Ok(())
    } else {
        tick(floor, desk, out, fate, totals)
    }
}
