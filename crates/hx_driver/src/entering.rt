//! The entry of an actor: how it is stamped and made, and what becomes of its posts.
ghost use Rattle.std.specs.Prelude.{ℕ, ◌≡◌, ◌<◌, ◌^◌, true, false, List, [], ◌∷◌, MatchResult, length, ⊤};
ghost use Rattle.hx_types.specs.declared.limits.TheConstants.{MOST_ENTRIES};
ghost use Rattle.hx_types.specs.declared.traces.Input.TheVariants.{Tick};
ghost use Rattle.hx_model.specs.Runs.{entry_of, has_halted, made_of, does_something};
ghost use Rattle.hx_clock.specs.declared.parts.Stamped.{Stamped};
ghost use Rattle.hx_law_threads.specs.Cuts.{is_retry};
ghost use Rattle.hx_mail.specs.declared.views.Mailed.{Mailed};
ghost use Rattle.hx_outbox.specs.Offers.{HasSeconds};
ghost use Rattle.hx_outbox.specs.Outboxes.{IsOutbox};
ghost use Rattle.hx_driver.specs.declared.faults.Fault.TheVariants as a_fault;
ghost use Rattle.hx_driver.specs.Desks.{entries_before};
ghost use Rattle.hx_driver.specs.Floors.{IsDeskOn};
ghost use Rattle.hx_driver.specs.Told.{told_by};
ghost use Rattle.hx_driver.specs.Givings.{CanBeGiven, HasPlaces, IsMadeOf, IsReady, MakesEnough};
ghost use Rattle.hx_driver.specs.Turns.{HasRoom, IsFaultOf, IsTurn};

use crate::desks::Desk;
use crate::faults::Fault;
use crate::gates::Gate;
use crate::preparing::{is_worn, make_room, prepare_step};
use hx_fate::Fate;
use hx_machine::Change;
use hx_outbox::{Floor, Outbox, offer_all};
use hx_types::{Input, Totals};
use std::sync::Wait;

/// Makes a step, for which there is room: its entry is stamped and pushed, and its posts are
/// offered.
fn make_entry<R: Wait, G: Gate>(
    floor: &Floor<'_, R, G>,
    desk: &mut Desk,
    out: &mut Outbox,
    fate: &mut Box<dyn Fate + Send>,
    totals: &mut Totals,
    input: Input,
    change: Change,
)
    requires desk { (w : ℕ) × IsDeskOn floor.now w (told_by desk.old.actor input) desk.old }
    requires step { IsReady floor.now.script.now desk.old input change × MakesEnough input desk.old }
    requires copies { (desk.old.lent.copies.firsts.items ≡ desk.old.lent.posts) × (length desk.old.lent.posts < 2 ^ 32) }
    requires seconds { HasSeconds (state fate.old) desk.old.lent.copies }
    requires places { HasPlaces desk.old × (length desk.old.part.items < MOST_ENTRIES) }
    requires out { IsOutbox floor.now.boxes.now out.old }
    requires room { HasRoom out.old desk.old totals.old }
    ensures desk { (w : ℕ) → IsDeskOn floor.now w (told_by desk.old.actor input) desk.old → IsDeskOn floor.now w [] desk.new }
    ensures turn { (x : Stamped) × IsMadeOf floor.now.script.now desk.old input x × IsTurn floor.now.boxes.now desk.old desk.new out.old out.new totals.old totals.new (state fate.old) (state fate.new) (x ∷ []) }
{
    floor.gate.before(desk.actor);
    desk.machine.make(change);
    let stamp = floor.clock.act_on(
        &mut desk.seat,
        desk.actor,
        &input,
        &desk.lent.posts,
        &desk.lent.notes,
    );
    offer_all(
        floor,
        out,
        &mut desk.kept,
        &mut desk.seat,
        fate,
        totals,
        stamp.0 + 1,
        &mut desk.lent.copies,
    );
    desk.part.push_reserved(
        stamp,
        desk.actor,
        input,
        &mut desk.lent.posts,
        &mut desk.lent.notes,
    );
}

/// Takes the memory that a step still needs, and makes it. The actor isn't worn.
pub(crate) fn reserve_and_make<R: Wait, G: Gate>(
    floor: &Floor<'_, R, G>,
    desk: &mut Desk,
    out: &mut Outbox,
    fate: &mut Box<dyn Fate + Send>,
    totals: &mut Totals,
    input: Input,
    change: Change,
) -> Result<(), Fault>
    requires desk { (w : ℕ) × IsDeskOn floor.now w (told_by desk.old.actor input) desk.old }
    requires step { IsReady floor.now.script.now desk.old input change × MakesEnough input desk.old }
    requires fresh { length desk.old.part.items < MOST_ENTRIES }
    requires out { IsOutbox floor.now.boxes.now out.old }
    requires room { HasRoom out.old desk.old totals.old }
    ensures desk { MatchResult result (λ _. (w : ℕ) → IsDeskOn floor.now w (told_by desk.old.actor input) desk.old → IsDeskOn floor.now w [] desk.new) (λ _. (w : ℕ) (rest : List Mailed) → IsDeskOn floor.now w rest desk.old → IsDeskOn floor.now w rest desk.new) }
    ensures turn { MatchResult result (λ _. (x : Stamped) × IsMadeOf floor.now.script.now desk.old input x × IsTurn floor.now.boxes.now desk.old desk.new out.old out.new totals.old totals.new (state fate.old) (state fate.new) (x ∷ [])) (λ _. IsTurn floor.now.boxes.now desk.old desk.new out.old out.new totals.old totals.new (state fate.old) (state fate.new) []) }
    ensures fault { MatchResult result (λ _. ⊤) (λ fault. fault ≡ a_fault.Memory) }
{
    let repeats = fate.state().repeats();
    match make_room(floor.alloc, desk, repeats) {
        Ok(()) => {
            make_entry(floor, desk, out, fate, totals, input, change);
            Ok(())
        }
        Err(_) => {
            drop(input);
            drop(change);
            Err(Fault::Memory)
        }
    }
}

/// The step of an input, and its entry. The actor isn't worn.
fn step_on<R: Wait, G: Gate>(
    floor: &Floor<'_, R, G>,
    desk: &mut Desk,
    out: &mut Outbox,
    fate: &mut Box<dyn Fate + Send>,
    totals: &mut Totals,
    input: Input,
) -> Result<(), Fault>
    requires fresh { length desk.old.part.items < MOST_ENTRIES }
    requires desk { (w : ℕ) × IsDeskOn floor.now w (told_by desk.old.actor input) desk.old }
    requires running { has_halted floor.now.script.now (entries_before desk.old.part.items) desk.old.actor ≡ false }
    requires given { CanBeGiven floor.now.script.now desk.old input }
    requires enough { does_something input (made_of floor.now.script.now (entries_before desk.old.part.items) desk.old.actor input) ≡ true }
    requires out { IsOutbox floor.now.boxes.now out.old }
    requires room { HasRoom out.old desk.old totals.old }
    ensures desk { MatchResult result (λ _. (w : ℕ) → IsDeskOn floor.now w (told_by desk.old.actor input) desk.old → IsDeskOn floor.now w [] desk.new) (λ _. (w : ℕ) (rest : List Mailed) → IsDeskOn floor.now w rest desk.old → IsDeskOn floor.now w rest desk.new) }
    ensures turn { MatchResult result (λ _. (x : Stamped) × IsMadeOf floor.now.script.now desk.old input x × IsTurn floor.now.boxes.now desk.old desk.new out.old out.new totals.old totals.new (state fate.old) (state fate.new) (x ∷ [])) (λ _. IsTurn floor.now.boxes.now desk.old desk.new out.old out.new totals.old totals.new (state fate.old) (state fate.new) []) }
    ensures fault { MatchResult result (λ _. ⊤) (λ fault. fault ≡ a_fault.Memory) }
{
    match prepare_step(floor, desk, &input) {
        Ok(change) => reserve_and_make(floor, desk, out, fate, totals, input, change),
        Err(_) => {
            drop(input);
            Err(Fault::Memory)
        }
    }
}

/// Makes an entry, which is no retry, of an input that the actor can be given, and that makes
/// something, unless the actor is worn or memory is wanting. After a fault the actor is as it was.
#[inline]
pub(crate) fn make_unless_worn<R: Wait, G: Gate>(
    floor: &Floor<'_, R, G>,
    desk: &mut Desk,
    out: &mut Outbox,
    fate: &mut Box<dyn Fate + Send>,
    totals: &mut Totals,
    input: Input,
) -> Result<(), Fault>
    requires desk { (w : ℕ) × IsDeskOn floor.now w (told_by desk.old.actor input) desk.old }
    requires running { has_halted floor.now.script.now (entries_before desk.old.part.items) desk.old.actor ≡ false }
    requires given { CanBeGiven floor.now.script.now desk.old input }
    requires enough { does_something input (made_of floor.now.script.now (entries_before desk.old.part.items) desk.old.actor input) ≡ true }
    requires turns { is_retry (entry_of desk.old.actor input (made_of floor.now.script.now (entries_before desk.old.part.items) desk.old.actor input)) ≡ false }
    requires out { IsOutbox floor.now.boxes.now out.old }
    requires room { HasRoom out.old desk.old totals.old }
    ensures desk { MatchResult result (λ _. (w : ℕ) → IsDeskOn floor.now w (told_by desk.old.actor input) desk.old → IsDeskOn floor.now w [] desk.new) (λ _. (w : ℕ) (rest : List Mailed) → IsDeskOn floor.now w rest desk.old → IsDeskOn floor.now w rest desk.new) }
    ensures turn { MatchResult result (λ _. (x : Stamped) × IsMadeOf floor.now.script.now desk.old input x × IsTurn floor.now.boxes.now desk.old desk.new out.old out.new totals.old totals.new (state fate.old) (state fate.new) (x ∷ [])) (λ _. IsTurn floor.now.boxes.now desk.old desk.new out.old out.new totals.old totals.new (state fate.old) (state fate.new) []) }
    ensures fault { MatchResult result (λ _. ⊤) (λ fault. IsFaultOf floor.now.script.now false desk.new fault) }
{
    if is_worn(desk) {
        Err(Fault::Worn(desk.actor))
    } else {
        step_on(floor, desk, out, fate, totals, input)
    }
}
