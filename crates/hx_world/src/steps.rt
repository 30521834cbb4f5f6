ghost use Rattle.std.specs.Prelude.{◌≡◌, true, IfOk, OnOk, OnErr, IfErr, reverse};
ghost use Rattle.hx_types.specs.declared.traces.Input.TheVariants as an_input;
ghost use Rattle.hx_types.specs.declared.traces.Step.TheVariants as a_step;
ghost use Rattle.hx_model.specs.Runs.{is_actor};
ghost use Rattle.hx_world.specs.Invariant.{IsWorld};
ghost use Rattle.hx_world.specs.Worlds.{IsStepOf, Refuses, Steps};

use crate::actors::{actor_takes, session_turn};
use crate::ends::StepError;
use crate::inside::Inside;
use crate::logs::sent_post;
use hx_types::{Actor, Exact, Input, Memory, Post, PostId, Step};
use std::alloc::Global;

/// Makes the entry of a step, if it can be taken.
pub fn take_step(alloc: Global, inside: &mut Inside, step: &Step) -> Result<(), StepError>
    requires world { IsWorld inside.old }
    requires actor { IsStepOf inside.old.script step.now }
    ensures world { IsWorld inside.new }
    ensures script { inside.new.script ≡ inside.old.script }
    ensures ok { OnOk result (Steps inside.old.script (reverse inside.old.log.trace) (reverse inside.new.log.trace) step.now) }
    ensures refused { IfErr result (Refuses inside.old.script (reverse inside.old.log.trace) step.now) }
    ensures err { OnErr result (inside.new.log.trace ≡ inside.old.log.trace) }
{
    match *step {
        Step::Deliver(id) => deliver(alloc, inside, id),
        Step::Tick(actor) => tick(alloc, inside, actor),
        Step::Halt(actor) => halt(alloc, inside, actor),
    }
}

/// Delivers the post of a name to its receiver, whether or not it was delivered before.
fn deliver(alloc: Global, inside: &mut Inside, id: PostId) -> Result<(), StepError>
    requires world { IsWorld inside.old }
    ensures world { IsWorld inside.new }
    ensures script { inside.new.script ≡ inside.old.script }
    ensures ok { OnOk result (Steps inside.old.script (reverse inside.old.log.trace) (reverse inside.new.log.trace) (a_step.Deliver id)) }
    ensures refused { IfErr result (Refuses inside.old.script (reverse inside.old.log.trace) (a_step.Deliver id)) }
    ensures err { OnErr result (inside.new.log.trace ≡ inside.old.log.trace) }
{
    let Some(post) = sent_post(&inside.log, id) else {
        return Err(StepError::Unsent);
    };
    let to = post.to;
    let Ok(input) = delivery(alloc, id, post) else {
        return Err(StepError::Memory);
    };
    actor_takes(alloc, inside, to, input)?;
    Ok(())
}

/// The input that a post is to its receiver.
pub fn delivery(alloc: Global, id: PostId, post: &Post) -> Result<Input, Memory>
    ensures { IfOk result (λ input. input ≡ an_input.Deliver id post.now.from post.now.message) }
{
    Ok(Input::Deliver {
        id,
        from: post.from,
        message: post.message.copy(alloc)?,
    })
}

/// An actor has its own turn.
#[inline(never)]
fn tick(alloc: Global, inside: &mut Inside, actor: Actor) -> Result<(), StepError>
    requires world { IsWorld inside.old }
    requires actor { is_actor inside.old.script actor ≡ true }
    ensures world { IsWorld inside.new }
    ensures script { inside.new.script ≡ inside.old.script }
    ensures ok { OnOk result (Steps inside.old.script (reverse inside.old.log.trace) (reverse inside.new.log.trace) (a_step.Tick actor)) }
    ensures refused { IfErr result (Refuses inside.old.script (reverse inside.old.log.trace) (a_step.Tick actor)) }
    ensures err { OnErr result (inside.new.log.trace ≡ inside.old.log.trace) }
{
    if let Actor::Session(session) = actor {
        if !session_turn(alloc, inside, session)? {
            return Err(StepError::Idle);
        }
        return Ok(());
    }
    actor_takes(alloc, inside, actor, Input::Tick)?;
    Ok(())
}

/// A server halts.
#[inline(never)]
fn halt(alloc: Global, inside: &mut Inside, actor: Actor) -> Result<(), StepError>
    requires world { IsWorld inside.old }
    requires actor { is_actor inside.old.script actor ≡ true }
    ensures world { IsWorld inside.new }
    ensures script { inside.new.script ≡ inside.old.script }
    ensures ok { OnOk result (Steps inside.old.script (reverse inside.old.log.trace) (reverse inside.new.log.trace) (a_step.Halt actor)) }
    ensures refused { IfErr result (Refuses inside.old.script (reverse inside.old.log.trace) (a_step.Halt actor)) }
    ensures err { OnErr result (inside.new.log.trace ≡ inside.old.log.trace) }
{
    match actor {
        Actor::Server(_) => {
            actor_takes(alloc, inside, actor, Input::Halt)?;
            Ok(())
        }
        _ => Err(StepError::NotServer),
    }
}
