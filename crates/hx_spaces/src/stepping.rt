ghost use Rattle.std.specs.Prelude.{◌≡◌, ◌<◌, [], IfErr, IfSome, OnErr, OnOk, is_none, length, map};
ghost use Rattle.std.specs.List.{All};
ghost use Rattle.hx_world.specs.Worlds.{IsStepOf};
ghost use Rattle.hx_spaces.specs.Courses.{newest};
ghost use Rattle.hx_spaces.specs.Keeping.{AreCounted, IsShort};
ghost use Rattle.hx_spaces.specs.Stepping.{beginner, turn_fault};
ghost use Rattle.hx_spaces.specs.Walks.{CanStep, IsSeated, RefusesAt, StepsAt};

use crate::beginning::next_space;
use hx_bundle::Bundle;
use hx_types::{Actor, Step};
use hx_world::{StepError, World};
use std::alloc::Global;

/// The place of the session of which a step would begin the next call.
pub fn beginner(world: &World, step: &Step) -> Option<usize>
    requires { IsStepOf world.now.script step.now }
    ensures { result ≡ beginner (newest world.now) step.now }
{
    match *step {
        Step::Tick(Actor::Session(session)) => {
            if world.is_idle(session) {
                Some(session.0 as usize - 1)
            } else {
                None
            }
        }
        _ => None,
    }
}

/// Whether the session of which a call would begin in this space has its turn there.
pub fn is_in_turn(
    bundle: &Bundle,
    worlds: &[World],
    begun: &[usize],
    space: u32,
    beginner: Option<usize>,
) -> bool
    requires seated { IsSeated bundle.now worlds.now }
    requires counted { AreCounted bundle.now (map newest worlds.now) begun.now }
    requires place { IfSome beginner (λ place. place < length begun.now) }
    ensures { result ≡ is_none (turn_fault (record { bundle = bundle.now; runs = map newest worlds.now; order = [] }) space beginner) }
{
    let Some(place) = beginner else {
        return true;
    };
    match next_space(bundle, worlds, begun, place) {
        Some(next) => next == space,
        None => false,
    }
}

/// Takes a step in the world of a space.
pub fn step_at(
    alloc: Global,
    worlds: &mut Vec<World>,
    space: usize,
    step: &Step,
) -> Result<(), StepError>
    requires { CanStep worlds.old.items space step.now }
    ensures ok { OnOk result (StepsAt space (map newest worlds.old.items) (map newest worlds.new.items) step.now) }
    ensures refused { IfErr result (RefusesAt space (map newest worlds.old.items) step.now) }
    ensures same { OnErr result (worlds.new.items ≡ worlds.old.items) }
    ensures short { All IsShort worlds.old.items → All IsShort worlds.new.items }
{
    worlds[space].step(alloc, step)
}
