//! Reading a script of one space or of several.

ghost use Rattle.std.specs.Prelude.{◌≡◌, ◌↔◌, true, IfOk, Ok, map};
ghost use Rattle.hx_script.specs.BundleTexts.{BundleAnswers, SaysVersion, TextAnswers, bundle_of, first_space_step, first_space_turns, one_space, read_first, read_second, version_line, version_of};
ghost use Rattle.hx_script.specs.Readers.{Reads};

use crate::bundle_draft::BundleDraft;
use crate::errors::{Reason, ScriptError, Stop};
use crate::line::{Line, tokens_in};
use crate::reading::{at, first_line, read};
use hx_bundle::{Bundle, BundleStep, BundleSteps, Scripts, Turns};
use hx_types::{Calls, Memory, Script, Sequence, Sessions, Step, Steps};
use std::alloc::Global;

/// The line `hx` with its number.
#[tactic(auto, unfolding(crate::specs::BundleTexts::version_line))]
fn version_line(line: &mut Line<'_>) -> Result<u32, Stop>
    ensures { Reads (λ n. n) result line.new (version_line line.old) }
{
    line.fixed(b"hx")?;
    let version = line.number_in(1, 2)?;
    line.end()?;
    Ok(version)
}

/// The version that the line of that number says, or `None` where it has no tokens.
fn version_in(alloc: Global, number: u64, line: &[u8]) -> Result<Option<u32>, ScriptError>
    ensures { SaysVersion number line.now result }
{
    let tokens = match tokens_in(alloc, line) {
        Ok(tokens) => tokens,
        Err(stop) => return Err(at(stop, number)),
    };
    let mut rest = Line::new(line, tokens.as_slice());
    if rest.is_empty() {
        return Ok(None);
    }
    match version_line(&mut rest) {
        Ok(version) => Ok(Some(version)),
        Err(stop) => Err(at(stop, number)),
    }
}

/// The version of a text: 1, or 2 for several spaces.
#[tactic(auto, using(crate::proofs::BundleLines::version_end))]
fn version(alloc: Global, text: &[u8]) -> Result<u32, ScriptError>
    ensures { TextAnswers result (version_of text.now) }
{
    let mut number = 0u64;
    let mut rest = text;
    'lines: while !rest.is_empty() {
        let (line, after) = first_line(rest);
        number += 1;
        if let Some(version) = version_in(alloc, number, line)? {
            return Ok(version);
        }
        rest = after;
    }
    Err(ScriptError::Refused {
        line: number + 1,
        reason: Reason::Order,
    })
}

/// Reads a text as one of several spaces.
#[tactic(auto, using(crate::proofs::BundleLines::bundle_reads_stop, crate::proofs::BundleLines::bundle_reads_end, crate::proofs::SoundBundles::empty_bundle_sound, crate::proofs::SoundBundles::few_spaces, crate::proofs::SoundBundles::few_sessions, crate::proofs::SoundBundles::few_attributes))]
fn read_spaces(alloc: Global, text: &[u8]) -> Result<Bundle, ScriptError>
    ensures { BundleAnswers result (read_second text.now) }
{
    let mut draft = BundleDraft::new(alloc);
    let mut number = 0u64;
    let mut rest = text;
    'lines: while !rest.is_empty() {
        let (line, after) = first_line(rest);
        number += 1;
        if let Err(stop) = draft.read_line(alloc, number, line) {
            drop(draft);
            return Err(at(stop, number));
        }
        rest = after;
    }
    draft.finish(alloc, number + 1)
}

/// As many turns in the first space as there are calls.
fn turns_of(alloc: Global, calls: &Calls) -> Result<Sequence<u32>, Memory>
    ensures { IfOk result (λ turns. turns ≡ first_space_turns calls.now) }
{
    let mut turns = Sequence::with_capacity(alloc, calls.len())?;
    for _call in calls.as_slice() {
        turns.push(0)?;
    }
    Ok(turns)
}

fn all_turns(alloc: Global, sessions: &Sessions) -> Result<Turns, Memory>
    ensures { IfOk result (λ turns. turns ≡ map first_space_turns sessions.now) }
{
    let mut turns = Turns::new(alloc);
    for calls in sessions.as_slice() {
        turns.push(turns_of(alloc, calls)?)?;
    }
    Ok(turns)
}

fn steps_of(alloc: Global, steps: &[(u64, Step)]) -> Result<BundleSteps, Memory>
    ensures { IfOk result (λ made. made ≡ map first_space_step steps.now) }
{
    let mut made = BundleSteps::with_capacity(alloc, steps.len())?;
    for (line, step) in steps {
        made.push(BundleStep {
            line: *line,
            space: 0,
            step: *step,
        })?;
    }
    Ok(made)
}

/// The bundle of a script alone.
fn one_space(alloc: Global, script: Script) -> Result<Bundle, Memory>
    ensures { IfOk result (λ bundle. bundle ≡ one_space script) }
{
    let turns = all_turns(alloc, &script.sessions)?;
    let steps = steps_of(alloc, script.steps.as_slice())?;
    let mut alone = script;
    alone.steps = Steps::new(alloc);
    let mut spaces = Scripts::new(alloc);
    spaces.push(alone)?;
    Ok(Bundle {
        spaces,
        turns,
        steps,
    })
}

/// Reads a text as one of one space.
#[tactic(auto, using(crate::proofs::BundleLines::first_ok, crate::proofs::BundleLines::first_err))]
fn read_one(alloc: Global, text: &[u8]) -> Result<Bundle, ScriptError>
    ensures { BundleAnswers result (read_first text.now) }
{
    let script = read(alloc, text)?;
    match one_space(alloc, script) {
        Ok(bundle) => Ok(bundle),
        Err(Memory) => Err(ScriptError::Memory),
    }
}

/// The bundle whose text it is, of one space or of several, or the first faulty line.
///
/// The first line with tokens tells which: `hx 1` a script of one space, which is a bundle of one
/// space, `hx 2` one of several.
///
/// # Errors
///
/// The first faulty line with its reason, or `Memory`, which may come instead of any answer.
#[tactic(auto, using(crate::proofs::BundleLines::version_err, crate::proofs::BundleLines::of_spaces, crate::proofs::BundleLines::of_one))]
pub fn read_bundle(alloc: Global, text: &[u8]) -> Result<Bundle, ScriptError>
    ensures { BundleAnswers result (bundle_of text.now) }
{
    if version(alloc, text)? == 2 {
        read_spaces(alloc, text)
    } else {
        read_one(alloc, text)
    }
}

/// Whether the first line of a text with tokens is `hx 2`. It fails with [`Memory`] alone.
#[tactic(auto, using(crate::proofs::BundleLines::version_is_two, crate::proofs::BundleLines::version_refused))]
pub fn is_of_version_2(alloc: Global, text: &[u8]) -> Result<bool, Memory>
    ensures { IfOk result (λ two. (two ≡ true) ↔ (version_of text.now ≡ Ok 2)) }
{
    match version(alloc, text) {
        Ok(version) => Ok(version == 2),
        Err(ScriptError::Refused { .. }) => Ok(false),
        Err(ScriptError::Memory) => Err(Memory),
    }
}
