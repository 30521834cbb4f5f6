ghost use Rattle.std.specs.Prelude.{◌≡◌, ℕ, [], map, IfErr, OnErr, OnOk, reverse};
ghost use Rattle.hx_model.specs.Types.{Step};
ghost use Rattle.hx_model.specs.Schedule.{stepped};
ghost use Rattle.hx_replay.specs.Steps.{AreTaken, HasSteps, Stops, StopsAt, stopped_by};
ghost use Rattle.hx_world.specs.Worlds.{IsStepOf, Steps};

use hx_types::{Actor, Script, Step};
use hx_world::{DrainError, StepError, World};
use std::alloc::Global;

/// Why the steps of a script were not all taken.
#[derive(Clone, Copy)]
pub enum Stopped {
    /// There was no memory for an entry.
    Memory,
    /// The step on this line can't be taken.
    Refused(u64),
    /// A step asks for one more entry of this actor, which has made 1,048,576.
    Worn(Actor),
}

impl From<DrainError> for Stopped {
    ghost use Rattle.hx_replay.specs.Steps.{stopped_drain};

    ghost from_gives = { λ error stopped. stopped ≡ stopped_drain error };

    fn from(error: DrainError) -> Self {
        match error {
            DrainError::Memory => Stopped::Memory,
            DrainError::Worn(actor) => Stopped::Worn(actor),
        }
    }
}

/// Takes the steps of a script in order.
pub fn take_steps(alloc: Global, script: &Script, world: &mut World) -> Result<(), Stopped>
    requires steps { HasSteps script.now }
    requires script { world.old.script ≡ script.now }
    requires start { world.old.trace ≡ [] }
    ensures script { world.new.script ≡ world.old.script }
    ensures taken { OnOk result (AreTaken script.now) }
    ensures trace { OnOk result (reverse world.new.trace ≡ stepped script.now [] (map (λ (s : ℕ × Step). s.1) script.now.steps)) }
    ensures stops { IfErr result (Stops script.now world.new.trace) }
{
    let mut rest = script.steps.as_slice();
    'steps: while let Some((first, after)) = rest.split_first() {
        take_step(alloc, world, first.0, &first.1)?;
        rest = after;
    }
    Ok(())
}

/// Takes the step that stands on a line.
fn take_step(alloc: Global, world: &mut World, line: u64, step: &Step) -> Result<(), Stopped>
    requires { IsStepOf world.old.script step.now }
    ensures script { world.new.script ≡ world.old.script }
    ensures takes { OnOk result (Steps world.old.script (reverse world.old.trace) (reverse world.new.trace) step.now) }
    ensures stops { IfErr result (StopsAt world.old.script (reverse world.old.trace) line step.now) }
    ensures err { OnErr result (world.new.trace ≡ world.old.trace) }
{
    match world.step(alloc, step) {
        Ok(()) => Ok(()),
        Err(error) => Err(stopped_by(error, line)),
    }
}

/// Why the steps stop where the one on this line failed so.
pub fn stopped_by(error: StepError, line: u64) -> Stopped
    ensures { result ≡ stopped_by error line }
{
    match error {
        StepError::Memory => Stopped::Memory,
        StepError::Worn(actor) => Stopped::Worn(actor),
        _ => Stopped::Refused(line),
    }
}
