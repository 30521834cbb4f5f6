ghost use Rattle.std.specs.Prelude.{◌≡◌, ◌<◌, ◌+◌, ◌^◌, IfErr, IfSome, IsSomeAnd, OnErr, OnOk, Some, length, map, slice_get, true};
ghost use Rattle.std.specs.List.{All};
ghost use Rattle.hx_types.specs.declared.ids.Actor.TheVariants as an_actor;
ghost use Rattle.hx_types.specs.declared.limits.TheConstants.{MOST_SESSIONS};
ghost use Rattle.hx_model.specs.Runs.{is_actor};
ghost use Rattle.hx_spaces.specs.Courses.{first_begin, is_busy_in, newest, next_space, runs_with};
ghost use Rattle.hx_spaces.specs.Draining.{FailsIn};
ghost use Rattle.hx_spaces.specs.Keeping.{AreCounted, IsShort, counted};
ghost use Rattle.hx_spaces.specs.Walks.{CanBegin, IsSeated, begin_turn, found_turn, turn_left};

use hx_bundle::Bundle;
use hx_types::SessionId;
use hx_world::{DrainError, World};
use std::alloc::Global;

/// The session of a place, from 0, begins a call in a space.
#[derive(Clone, Copy)]
pub struct Begin {
    pub place: usize,
    pub space: u32,
}

/// Whether a call of a session is under way in some world.
fn is_busy(worlds: &[World], session: SessionId) -> bool
    requires { All (λ w. is_actor w.script (an_actor.Session session) ≡ true) worlds.now }
    ensures { result ≡ is_busy_in session (map newest worlds.now) }
{
    for world in worlds {
        if world.is_busy(session) {
            return true;
        }
    }
    false
}

/// The space of the next call of the session of a place, if one is left and none is under way in
/// any space.
pub fn next_space(bundle: &Bundle, worlds: &[World], begun: &[usize], place: usize) -> Option<u32>
    requires seated { IsSeated bundle.now worlds.now }
    requires counted { AreCounted bundle.now (map newest worlds.now) begun.now }
    requires place { place < length begun.now }
    ensures { result ≡ next_space bundle.now (map newest worlds.now) place }
{
    match next_turn(bundle, begun, place) {
        Some(space) if !is_busy(worlds, SessionId(place as u32 + 1)) => Some(space),
        _ => None,
    }
}

/// The space of the session's first turn that it hasn't taken.
fn next_turn(bundle: &Bundle, begun: &[usize], place: usize) -> Option<u32>
    requires place { place < length begun.now }
    ensures { result ≡ turn_left bundle.now begun.now place }
{
    match bundle.turns.get(place) {
        Some(turns) => turns.get(begun[place]).copied(),
        None => None,
    }
}

/// The lowest session that can begin its next call.
pub fn first_begin(bundle: &Bundle, worlds: &[World], begun: &[usize]) -> Option<Begin>
    requires seated { IsSeated bundle.now worlds.now }
    requires counted { AreCounted bundle.now (map newest worlds.now) begun.now }
    ensures { found_turn result ≡ first_begin bundle.now (map newest worlds.now) }
{
    for place in 0..begun.len() {
        if let Some(space) = next_space(bundle, worlds, begun, place) {
            return Some(Begin { place, space });
        }
    }
    None
}

/// The session of a place begins its next call in the world of a space.
pub fn begin_at(
    alloc: Global,
    worlds: &mut Vec<World>,
    space: usize,
    place: usize,
) -> Result<(), DrainError>
    requires few { place < MOST_SESSIONS }
    requires can { CanBegin worlds.old.items place space }
    ensures begins { OnOk result (map newest worlds.new.items ≡ runs_with (begin_turn place space) (map newest worlds.old.items)) }
    ensures fails { IfErr result (FailsIn (map newest worlds.old.items) (Some (begin_turn place space))) }
    ensures same { OnErr result (worlds.new.items ≡ worlds.old.items) }
    ensures short { All IsShort worlds.old.items → All IsShort worlds.new.items }
{
    worlds[space].begin(alloc, SessionId(place as u32 + 1))
}

/// Counts one more call of the session of a place, if there is one.
pub fn count_begin(begun: &mut Vec<usize>, beginner: Option<usize>)
    requires { IfSome beginner (λ place. IsSomeAnd (slice_get begun.old.items place) (λ n. n + 1 < 2 ^ 64)) }
    ensures { begun.new.items ≡ counted begun.old.items beginner }
{
    if let Some(place) = beginner {
        begun[place] += 1;
    }
}
