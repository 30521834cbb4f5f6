ghost use Rattle.std.specs.Prelude.{◌≡◌, ◌≤◌, IfOk, IfErr, IfSome, Ok};
ghost use Rattle.hx_script.specs.Texts.{script_of};
ghost use Rattle.hx_types.specs.Fitting.{IsScript};
ghost use Rattle.hx_replay.specs.Texts.{IsScripted, scripted_of};
ghost use Rattle.hx_command.specs.Reading.{IsTextStop};
ghost use Rattle.hx_command.specs.Threads.{IsReadAs, ReadsAs, StopsReading, any_version, version_1};
ghost use Rattle.hx_replay.specs.Streams.{drawn};

use hx_io::{Source, read_all};
use hx_replay::{Outcome, Scripted, read_scripted};
use hx_types::{LONGEST_SCRIPT, Script};
use std::alloc::Global;

/// Reads the source to its end: the script of one space whose text it gives.
///
/// # Errors
///
/// `Refused` exactly where the text is no script of one space, with its first faulty line;
/// `TooLarge` exactly where the source gave more bytes than a script may have; `ReadFault`;
/// `Memory`.
pub fn read_script<S: Source>(alloc: Global, source: &mut S) -> Result<Script, Outcome>
    ensures script { IfOk result (ReadsAs version_1 (drawn S.Source source.old source.new)) }
    ensures valid { IfOk result IsScript }
    ensures cause { IfErr result (StopsReading version_1 (drawn S.Source source.old source.new)) }
    ensures judged { IfSome (S.left source.old) (λ text. IsReadAs version_1 text result) }
    ensures faults { S.faults source.old ≤ S.faults source.new }
{
    let text = read_all(alloc, source, LONGEST_SCRIPT)?;
    let script = script_of(alloc, text.as_slice())?;
    Ok(script)
}

/// Reads the source to its end: the script whose text it gives, of one space or several.
///
/// # Errors
///
/// Those of [`read_script`], for scripts of both kinds.
pub fn read_any_script<S: Source>(alloc: Global, source: &mut S) -> Result<Scripted, Outcome>
    ensures scripted { IfOk result (ReadsAs any_version (drawn S.Source source.old source.new)) }
    ensures valid { IfOk result IsScripted }
    ensures cause { IfErr result (StopsReading any_version (drawn S.Source source.old source.new)) }
    ensures judged { IfSome (S.left source.old) (λ text. IsReadAs any_version text result) }
    ensures faults { S.faults source.old ≤ S.faults source.new }
{
    let text = read_all(alloc, source, LONGEST_SCRIPT)?;
    let scripted = scripted_of(alloc, text.as_slice())?;
    Ok(scripted)
}

/// The script of a text, which is valid.
fn script_of(alloc: Global, text: &[u8]) -> Result<Script, Outcome>
    ensures script { IfOk result (λ script. script_of text.now ≡ Ok script) }
    ensures valid { IfOk result IsScript }
    ensures cause { IfErr result (IsTextStop version_1 text.now) }
{
    let script = hx_script::read(alloc, text)?;
    hx_script::scripts_are_valid();
    Ok(script)
}

/// The script of a text, of one space or several, which is valid.
fn scripted_of(alloc: Global, text: &[u8]) -> Result<Scripted, Outcome>
    ensures scripted { IfOk result (λ scripted. scripted_of text.now ≡ Ok scripted) }
    ensures valid { IfOk result IsScripted }
    ensures cause { IfErr result (IsTextStop any_version text.now) }
{
    let scripted = read_scripted(alloc, text)?;
    Ok(scripted)
}
