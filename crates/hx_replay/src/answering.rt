ghost use Rattle.std.specs.Prelude.{◌≡◌, ℕ, List, [], IfOk, IfErr, Ok, map};
ghost use Rattle.hx_model.specs.Types.{Script as ScriptSeen};
ghost use Rattle.hx_replay.specs.Causes.{CommandEnds, CommandMakes, IsTextCause, ScriptedEnds};
ghost use Rattle.hx_replay.specs.Texts.{IsScripted, scripted_of};
ghost use Rattle.hx_words.specs.declared.commands.Command.TheVariants as a_command;

use crate::bundle_replaying::replay_bundle;
use crate::outcomes::{Ended, Outcome, Written};
use crate::plans::{bundle_plans, plans};
use crate::replaying::{one_trace, replay};
use crate::texts::{Scripted, read_scripted};
use hx_spaces::Traces;
use hx_trace::Trace;
use hx_types::{Memory, Script};
use hx_words::Command;
use std::alloc::Global;
use std::mem::ManuallyDrop;

/// What the command makes of the script of a text.
///
/// # Errors
///
/// `Refused` exactly where the text is no script, with its first faulty line; `Memory`.
pub fn answer(alloc: Global, command: Command, text: &[u8]) -> Result<Ended, Outcome>
    ensures answer { IfOk result (CommandEnds command text.now) }
    ensures cause { IfErr result (IsTextCause command text.now) }
{
    let scripted = read_scripted(alloc, text)?;
    let ended = answer_scripted(alloc, command, &scripted);
    // The process is about to end, and a script is many small pieces.
    let _left = ManuallyDrop::new(scripted);
    Ok(ended?)
}

/// What the command makes of a script, of one space or several.
#[tactic(auto, using(crate::proofs::Making::made_of_replay))]
fn answer_scripted(alloc: Global, command: Command, scripted: &Scripted) -> Result<Ended, Memory>
    requires { IsScripted scripted.now }
    ensures { IfOk result (λ ended. (text : List ℕ) → scripted_of text ≡ Ok scripted.now → CommandEnds command text ended) }
{
    match command {
        Command::Replay { with_trace } => replay_scripted(alloc, scripted, with_trace),
        Command::Plan => Ok(Ended::Whole(plan(alloc, scripted)?)),
    }
}

/// Takes the steps of a script, of one space or several, and goes on by the schedule.
fn replay_scripted(alloc: Global, scripted: &Scripted, with_trace: bool) -> Result<Ended, Memory>
    requires { IsScripted scripted.now }
    ensures { IfOk result (ScriptedEnds with_trace scripted.now) }
{
    match scripted {
        Scripted::One(script) => replay(alloc, script, with_trace),
        Scripted::Several(bundle) => replay_bundle(alloc, bundle, with_trace),
    }
}

/// The plans of all searches, and an empty trace for each space.
fn plan(alloc: Global, scripted: &Scripted) -> Result<Written, Memory>
    requires { IsScripted scripted.now }
    ensures { IfOk result (λ made. CommandMakes a_command.Plan scripted.now made.traces made.bytes.items) }
{
    match scripted {
        Scripted::One(script) => {
            let bytes = plans(alloc, script)?;
            let traces = one_trace(alloc, Trace::new(alloc))?;
            Ok(Written { traces, bytes })
        }
        Scripted::Several(bundle) => {
            let bytes = bundle_plans(alloc, bundle)?;
            let traces = empty_traces(alloc, bundle.spaces.as_slice())?;
            Ok(Written { traces, bytes })
        }
    }
}

/// An empty trace for each space.
fn empty_traces(alloc: Global, scripts: &[Script]) -> Result<Traces, Memory>
    ensures { IfOk result (λ traces. traces ≡ map (λ (s : ScriptSeen). []) scripts.now) }
{
    let mut traces = Traces::with_capacity(alloc, scripts.len())?;
    for _script in scripts {
        traces.push(Trace::new(alloc))?;
    }
    Ok(traces)
}
