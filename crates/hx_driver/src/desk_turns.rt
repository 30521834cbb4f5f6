ghost use Rattle.std.specs.Prelude.{ℕ, ◌≡◌, nat_lt, true, false, List, [], MatchResult, length, ⊤};
ghost use Rattle.std.specs.List.{list_all};
ghost use Rattle.hx_types.specs.declared.totals.Totals.{Totals as TotalsSeen};
ghost use Rattle.hx_model.specs.Runs.{has_halted};
ghost use Rattle.hx_clock.specs.declared.parts.Stamped.{Stamped};
ghost use Rattle.hx_mail.specs.declared.views.Mailed.{Mailed};
ghost use Rattle.hx_fate.specs.declared.fates.FateState.{FateState};
ghost use Rattle.hx_outbox.specs.Offers.{IsTotal};
ghost use Rattle.hx_outbox.specs.Outboxes.{IsOutbox};
ghost use Rattle.hx_driver.specs.declared.faults.Fault.TheVariants as a_fault;
ghost use Rattle.hx_driver.specs.Desks.{HasNoRetry, entries_before};
ghost use Rattle.hx_driver.specs.Floors.{IsBrokenDeskOn, IsDeskOn, IsWholeDeskOn};
ghost use Rattle.hx_driver.specs.Givings.{HasTaken};
ghost use Rattle.hx_driver.specs.Turns.{HasRoom, IsFaultOf, IsTurn};

use crate::desks::Desk;
use crate::entering::make_unless_worn;
use crate::faults::Fault;
use crate::gates::Gate;
use crate::receiving::receive;
use hx_fate::Fate;
use hx_outbox::{Floor, Outbox, place_of, put_kept};
use hx_types::{Input, Totals};
use std::sync::Wait;

/// Puts the actor's kept envelopes again.
fn resend<R: Wait, G>(floor: &Floor<'_, R, G>, desk: &mut Desk, out: &mut Outbox)
    requires desk { (w : ℕ) × (rest : List Mailed) × IsDeskOn floor.now w rest desk.old }
    requires out { IsOutbox floor.now.boxes.now out.old }
    requires room { (totals : TotalsSeen) × HasRoom out.old desk.old totals }
    ensures desk { (w : ℕ) (rest : List Mailed) → IsDeskOn floor.now w rest desk.old → IsDeskOn floor.now w rest desk.new }
    ensures turn { (totals : TotalsSeen) (f : FateState) → IsTotal totals → IsTurn floor.now.boxes.now desk.old desk.new out.old out.new totals totals f f [] }
    ensures room { (totals : TotalsSeen) → HasRoom out.old desk.old totals → HasRoom out.new desk.new totals }
{
    put_kept(floor, out, &mut desk.kept);
}

/// Whether a turn finds nothing to do: nothing is kept, the actor isn't a session that can begin
/// its next call, and its box is empty.
#[inline]
fn finds_nothing<R: Wait, G>(floor: &Floor<'_, R, G>, desk: &mut Desk) -> bool
    requires desk { (w : ℕ) × (rest : List Mailed) × IsDeskOn floor.now w rest desk.old }
    ensures same { desk.new ≡ desk.old }
{
    if !desk.kept.is_empty() || desk.machine.idle() {
        return false;
    }
    let place = place_of(&floor.script.space, desk.actor);
    let boxes = floor.boxes;
    boxes[place].is_empty(&mut desk.inbox)
}

/// Whether each count can be raised. What a halted server takes isn't bounded by its entries.
fn can_count(heard: &[u64]) -> bool
    ensures { result ≡ list_all (λ n. nat_lt n 18446744073709551615) heard.now }
{
    heard.iter().all(|count| *count < u64::MAX)
}

/// Takes an envelope for a server that has halted, and drops it.
#[cold]
#[inline(never)]
fn discard<R: Wait, G>(floor: &Floor<'_, R, G>, desk: &mut Desk) -> Result<(), Fault>
    requires desk { (w : ℕ) × (rest : List Mailed) × IsDeskOn floor.now w rest desk.old }
    ensures desk { (w : ℕ) (rest : List Mailed) → IsDeskOn floor.now w rest desk.old → IsBrokenDeskOn floor.now w desk.new }
    ensures taken { HasTaken desk.old desk.new }
    ensures fault { MatchResult result (λ _. ⊤) (λ fault. fault ≡ a_fault.Memory) }
{
    if can_count(desk.heard.as_slice()) {
        drop(receive(floor, desk));
        Ok(())
    } else {
        Err(Fault::Memory)
    }
}

/// Lets a session begin its next call, where it can. No other actor does anything.
fn begin<R: Wait, G: Gate>(
    floor: &Floor<'_, R, G>,
    desk: &mut Desk,
    out: &mut Outbox,
    fate: &mut Box<dyn Fate + Send>,
    totals: &mut Totals,
) -> Result<(), Fault>
    requires desk { (w : ℕ) × IsDeskOn floor.now w [] desk.old }
    requires running { has_halted floor.now.script.now (entries_before desk.old.part.items) desk.old.actor ≡ false }
    requires out { IsOutbox floor.now.boxes.now out.old }
    requires room { HasRoom out.old desk.old totals.old }
    ensures desk { MatchResult result (λ _. (w : ℕ) → IsDeskOn floor.now w [] desk.old → IsDeskOn floor.now w [] desk.new) (λ _. (w : ℕ) → IsDeskOn floor.now w [] desk.old → IsBrokenDeskOn floor.now w desk.new) }
    ensures fault { MatchResult result (λ _. ⊤) (λ fault. IsFaultOf floor.now.script.now false desk.new fault) }
    ensures turn { (xs : List Stamped) × IsTurn floor.now.boxes.now desk.old desk.new out.old out.new totals.old totals.new (state fate.old) (state fate.new) xs }
    ensures retries { HasNoRetry desk.old desk.new }
{
    if desk.machine.idle() {
        make_unless_worn(floor, desk, out, fate, totals, Input::Tick)
    } else {
        Ok(())
    }
}

/// Takes an envelope for an actor that hasn't halted and makes an entry of it, or lets the actor
/// begin its next call where its box is empty.
fn take_and_enter<R: Wait, G: Gate>(
    floor: &Floor<'_, R, G>,
    desk: &mut Desk,
    out: &mut Outbox,
    fate: &mut Box<dyn Fate + Send>,
    totals: &mut Totals,
) -> Result<(), Fault>
    requires desk { (w : ℕ) × IsDeskOn floor.now w [] desk.old }
    requires running { has_halted floor.now.script.now (entries_before desk.old.part.items) desk.old.actor ≡ false }
    requires out { IsOutbox floor.now.boxes.now out.old }
    requires room { HasRoom out.old desk.old totals.old }
    ensures desk { MatchResult result (λ _. (w : ℕ) → IsDeskOn floor.now w [] desk.old → IsDeskOn floor.now w [] desk.new) (λ _. (w : ℕ) → IsDeskOn floor.now w [] desk.old → IsBrokenDeskOn floor.now w desk.new) }
    ensures fault { MatchResult result (λ _. ⊤) (λ fault. IsFaultOf floor.now.script.now false desk.new fault) }
    ensures turn { (xs : List Stamped) × IsTurn floor.now.boxes.now desk.old desk.new out.old out.new totals.old totals.new (state fate.old) (state fate.new) xs }
    ensures retries { HasNoRetry desk.old desk.new }
{
    match receive(floor, desk) {
        Some(input) => make_unless_worn(floor, desk, out, fate, totals, input),
        None => begin(floor, desk, out, fate, totals),
    }
}

/// A turn in which there may be something to do.
#[inline]
fn busy_turn<R: Wait, G: Gate>(
    floor: &Floor<'_, R, G>,
    desk: &mut Desk,
    out: &mut Outbox,
    fate: &mut Box<dyn Fate + Send>,
    totals: &mut Totals,
) -> Result<(), Fault>
    requires desk { (w : ℕ) × IsWholeDeskOn floor.now w desk.old }
    requires out { IsOutbox floor.now.boxes.now out.old }
    requires room { HasRoom out.old desk.old totals.old }
    ensures desk { MatchResult result (λ _. (w : ℕ) → IsWholeDeskOn floor.now w desk.old → IsWholeDeskOn floor.now w desk.new) (λ _. (w : ℕ) → IsWholeDeskOn floor.now w desk.old → IsBrokenDeskOn floor.now w desk.new) }
    ensures fault { MatchResult result (λ _. ⊤) (λ fault. IsFaultOf floor.now.script.now false desk.new fault) }
    ensures turn { (xs : List Stamped) × IsTurn floor.now.boxes.now desk.old desk.new out.old out.new totals.old totals.new (state fate.old) (state fate.new) xs }
    ensures retries { HasNoRetry desk.old desk.new }
{
    resend(floor, desk, out);
    if desk.machine.halted() {
        discard(floor, desk)
    } else {
        take_and_enter(floor, desk, out, fate, totals)
    }
}

/// One turn of an actor: its kept envelopes are put again; it takes an envelope and makes an entry
/// of it, or, where its box is empty and it is a session that can begin its next call, it begins
/// that. A halted server drops what it takes. Where the actor is worn, the entry that it has still
/// to make is no retry.
#[inline]
pub fn turn<R: Wait, G: Gate>(
    floor: &Floor<'_, R, G>,
    desk: &mut Desk,
    out: &mut Outbox,
    fate: &mut Box<dyn Fate + Send>,
    totals: &mut Totals,
) -> Result<(), Fault>
    requires desk { (w : ℕ) × IsWholeDeskOn floor.now w desk.old }
    requires out { IsOutbox floor.now.boxes.now out.old }
    requires room { HasRoom out.old desk.old totals.old }
    ensures desk { MatchResult result (λ _. (w : ℕ) → IsWholeDeskOn floor.now w desk.old → IsWholeDeskOn floor.now w desk.new) (λ _. (w : ℕ) → IsWholeDeskOn floor.now w desk.old → IsBrokenDeskOn floor.now w desk.new) }
    ensures fault { MatchResult result (λ _. ⊤) (λ fault. IsFaultOf floor.now.script.now false desk.new fault) }
    ensures turn { (xs : List Stamped) × IsTurn floor.now.boxes.now desk.old desk.new out.old out.new totals.old totals.new (state fate.old) (state fate.new) xs }
    ensures retries { HasNoRetry desk.old desk.new }
{
    if finds_nothing(floor, desk) {
        Ok(())
    } else {
        busy_turn(floor, desk, out, fate, totals)
    }
}
