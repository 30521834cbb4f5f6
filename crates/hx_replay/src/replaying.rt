ghost use Rattle.std.specs.Prelude.{◌≡◌, ℕ, [], ◌∷◌, IfOk, Ok, map, reverse};
ghost use Rattle.hx_model.specs.Types.{Step};
ghost use Rattle.hx_model.specs.Schedule.{stepped};
ghost use Rattle.hx_types.specs.Fitting.{IsScript};
ghost use Rattle.hx_replay.specs.Runs.{IsOfOne, IsWholeReplay, IsWholeRun, ReplayEnds};
ghost use Rattle.hx_replay.specs.Steps.{AreTaken, HasSteps, ended_by};

use crate::outcomes::{Ended, Written};
use crate::steps::{Stopped, take_steps};
use hx_report::report;
use hx_spaces::Traces;
use hx_trace::Trace;
use hx_types::{Memory, Script};
use hx_world::{Drained, World};
use std::alloc::Global;

/// Takes the script's steps and goes on by the schedule.
pub fn replay(alloc: Global, script: &Script, with_trace: bool) -> Result<Ended, Memory>
    requires script { IsScript script.now }
    requires steps { HasSteps script.now }
    ensures { IfOk result (ReplayEnds with_trace script.now) }
{
    let mut world = World::start(alloc, script)?;
    match take_steps(alloc, script, &mut world) {
        Ok(()) => finish(alloc, script, with_trace, world),
        Err(stopped) => ended_alone(alloc, stopped, world.leave()),
    }
}

/// The traces of one space. It fails with [`Memory`] alone.
pub fn one_trace(alloc: Global, trace: Trace) -> Result<Traces, Memory>
    ensures { IfOk result (λ traces. traces ≡ trace ∷ []) }
{
    let mut traces = Traces::new(alloc);
    traces.push(trace)?;
    Ok(traces)
}

/// What a replay of one space comes to that was stopped so after this trace.
fn ended_alone(alloc: Global, stopped: Stopped, trace: Trace) -> Result<Ended, Memory>
    ensures { IfOk result (λ ended. ended_by stopped (trace ∷ []) ≡ Ok ended) }
{
    let traces = one_trace(alloc, trace)?;
    ended_by(stopped, traces)
}

/// What a replay comes to that was stopped so after these traces.
pub fn ended_by(stopped: Stopped, traces: Traces) -> Result<Ended, Memory>
    ensures { result ≡ ended_by stopped traces }
{
    match stopped {
        Stopped::Memory => Err(Memory),
        Stopped::Refused(line) => Ok(Ended::Refused { line, traces }),
        Stopped::Worn(actor) => Ok(Ended::Worn { actor, traces }),
    }
}

/// Runs a world whose script's steps were taken by the schedule, until there is nothing left to do
/// or an actor is worn.
fn finish(alloc: Global, script: &Script, with_trace: bool, world: World) -> Result<Ended, Memory>
    requires valid { IsScript script.now }
    requires script { world.script ≡ script.now }
    requires taken { AreTaken script.now }
    requires stepped { reverse world.trace ≡ stepped script.now [] (map (λ (s : ℕ × Step). s.1) script.now.steps) }
    ensures { IfOk result (ReplayEnds with_trace script.now) }
{
    let mut world = world;
    match world.drain(alloc, u64::MAX) {
        Ok(Drained::Quiet) => Ok(Ended::Whole(answered(alloc, script, with_trace, world.leave())?)),
        // No world makes so many entries.
        Ok(Drained::Spent) => unreachable!(),
        Err(error) => ended_alone(alloc, error.into(), world.leave()),
    }
}

/// The whole run and its report.
fn answered(
    alloc: Global,
    script: &Script,
    with_trace: bool,
    trace: Trace,
) -> Result<Written, Memory>
    requires valid { IsScript script.now }
    requires whole { IsWholeRun script.now trace }
    ensures { IfOk result (λ made. IsOfOne (λ t. IsWholeReplay with_trace script.now t made.bytes.items) made.traces) }
{
    hx_law_searches::histories_are_linear();
    hx_law_order::runs_have_one_order();
    hx_law_searches::searches_are_true_and_whole();
    hx_law_causes::answers_have_causes();
    hx_law_epochs::lost_regions_have_lost_their_replicas();
    let bytes = report(alloc, script, &trace, &[], with_trace)?;
    let traces = one_trace(alloc, trace)?;
    Ok(Written { traces, bytes })
}
