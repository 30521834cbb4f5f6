ghost use Rattle.std.specs.Prelude.{ℕ, ◌≡◌, All, ◌∷◌, [], true, false, map, None};
ghost use Rattle.std.specs.List.{AllByRecursion};
ghost use Rattle.hx_law_drivers.specs.Rests.{AreAtRest, HasEnded, HasHeard, HaveAllEnded, IsRested, SomeGoesOn};
ghost use Rattle.hx_run.specs.Rounds.{HasMachine, HaveMachines};

use hx_driver::{Crew, Desk, Driver};
use hx_outbox::place_of;
use hx_types::Script;

/// Whether as many envelopes of a driver's name were taken for an actor as the driver put for it.
fn has_heard(script: &Script, crew: &Crew, desk: &Desk) -> bool
    ensures yes { result ≡ true → HasHeard script.now desk.now crew.now }
    ensures no { HasHeard script.now desk.now crew.now → result ≡ true }
{
    let name = crew.out.index as usize + 1;
    let place = place_of(&script.space, desk.actor);
    if name >= desk.heard.len() {
        return false;
    }
    if place >= crew.out.sent.len() {
        return false;
    }
    desk.heard[name] == crew.out.sent[place]
}

/// Whether as many envelopes of each driver's name were taken for an actor as that driver put for
/// it.
fn has_heard_all(script: &Script, drivers: &[Driver], desk: &Desk) -> bool
    ensures yes { result ≡ true → AllByRecursion (λ d. HasHeard script.now desk.now d.crew) drivers.now }
    ensures no { AllByRecursion (λ d. HasHeard script.now desk.now d.crew) drivers.now → result ≡ true }
{
    for at in 0..drivers.len() {
        if !has_heard(script, &drivers[at].crew, desk) {
            return false;
        }
    }
    true
}

/// Whether nothing is kept for an actor, it is no session that can begin its next call, and all
/// that was put for it was taken.
fn is_rested(script: &Script, drivers: &[Driver], desk: &Desk) -> bool
    requires machine { HasMachine script.now desk.now }
    ensures yes { result ≡ true → IsRested script.now (map (λ d. d.crew) drivers.now) desk.now }
    ensures no { IsRested script.now (map (λ d. d.crew) drivers.now) desk.now → result ≡ true }
{
    if desk.kept.len() != 0 {
        return false;
    }
    if desk.machine.idle() {
        return false;
    }
    has_heard_all(script, drivers, desk)
}

/// Whether a driver has no fault and its actors are at rest.
fn is_crew_rested(script: &Script, drivers: &[Driver], crew: &Crew) -> bool
    requires machines { HaveMachines script.now crew.now }
    ensures calm { result ≡ true → crew.now.fault ≡ None }
    ensures rested { result ≡ true → AllByRecursion (IsRested script.now (map (λ d. d.crew) drivers.now)) crew.now.desks.items }
    ensures no { crew.now.fault ≡ None → AllByRecursion (IsRested script.now (map (λ d. d.crew) drivers.now)) crew.now.desks.items → result ≡ true }
{
    if crew.fault.is_some() {
        return false;
    }
    for at in 0..crew.desks.len() {
        if !is_rested(script, drivers, &crew.desks[at]) {
            return false;
        }
    }
    true
}

/// Whether no driver has a fault, nothing is kept, all that was put was taken, and no session can
/// begin its next call.
pub fn at_rest(script: &Script, drivers: &[Driver]) -> bool
    requires machines { AllByRecursion (HaveMachines script.now) (map (λ d. d.crew) drivers.now) }
    ensures yes { result ≡ true → AreAtRest script.now (map (λ d. d.crew) drivers.now) }
    ensures no { AreAtRest script.now (map (λ d. d.crew) drivers.now) → result ≡ true }
{
    for at in 0..drivers.len() {
        if !is_crew_rested(script, drivers, &drivers[at].crew) {
            return false;
        }
    }
    true
}

/// Whether no actor of a driver is a session with a call left or under way.
fn has_crew_ended(script: &Script, crew: &Crew) -> bool
    requires machines { HaveMachines script.now crew.now }
    ensures yes { result ≡ true → AllByRecursion (HasEnded script.now) crew.now.desks.items }
    ensures no { result ≡ false → SomeGoesOn script.now (crew.now ∷ []) }
{
    for at in 0..crew.desks.len() {
        if !crew.desks[at].machine.ended() {
            return false;
        }
    }
    true
}

/// Whether every session has ended all its calls.
pub fn all_ended(script: &Script, drivers: &[Driver]) -> bool
    requires machines { AllByRecursion (HaveMachines script.now) (map (λ d. d.crew) drivers.now) }
    ensures yes { result ≡ true → HaveAllEnded script.now (map (λ d. d.crew) drivers.now) }
    ensures no { result ≡ false → SomeGoesOn script.now (map (λ d. d.crew) drivers.now) }
{
    for at in 0..drivers.len() {
        if !has_crew_ended(script, &drivers[at].crew) {
            return false;
        }
    }
    true
}
