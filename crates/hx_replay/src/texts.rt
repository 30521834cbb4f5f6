ghost use Rattle.std.specs.Prelude.{◌≡◌, ◌≢◌, IfOk, Ok, Err};
ghost use Rattle.hx_script.specs.BundleTexts.{TextAnswers, version_of};
ghost use Rattle.hx_script.specs.Texts.{script_of};
ghost use Rattle.hx_script.specs.declared.errors.ScriptError.{ScriptError as ErrorSeen};
ghost use Rattle.hx_replay.specs.Texts.{IsScripted, scripted_of};

use hx_bundle::Bundle;
use hx_script::{ScriptError, is_of_version_2, read, read_bundle};
use hx_types::Script;
use std::alloc::Global;

/// What a text is the script of.
#[derive(Drop)]
pub enum Scripted {
    /// One space.
    One(Script),
    /// Several spaces, or one that is written as these are.
    Several(Bundle),
}

/// The script or the bundle of a text, by the version that its first line with tokens says.
///
/// # Errors
///
/// The first faulty line with its reason, or `Memory`.
pub fn read_scripted(alloc: Global, text: &[u8]) -> Result<Scripted, ScriptError>
    ensures read { TextAnswers result (scripted_of text.now) }
    ensures valid { IfOk result IsScripted }
{
    match is_of_version_2(alloc, text) {
        Ok(true) => read_several(alloc, text),
        Ok(false) => read_one(alloc, text),
        Err(_) => Err(ScriptError::Memory),
    }
}

/// The bundle of a text of version 2.
fn read_several(alloc: Global, text: &[u8]) -> Result<Scripted, ScriptError>
    requires { version_of text.now ≡ Ok 2 }
    ensures read { TextAnswers result (scripted_of text.now) }
    ensures valid { IfOk result IsScripted }
{
    hx_script::bundles_are_valid();
    match read_bundle(alloc, text) {
        Ok(bundle) => Ok(Scripted::Several(bundle)),
        Err(error) => Err(error),
    }
}

/// The script of a text of another version.
#[tactic(auto, using(crate::proofs::Reading::one_ok))]
fn read_one(alloc: Global, text: &[u8]) -> Result<Scripted, ScriptError>
    requires { version_of text.now ≢ Ok 2 }
    ensures read { TextAnswers result (scripted_of text.now) }
    ensures valid { IfOk result IsScripted }
{
    hx_script::scripts_are_valid();
    hx_law_texts::prints_are_read_back();
    match read(alloc, text) {
        Ok(script) => Ok(Scripted::One(script)),
        Err(ScriptError::Memory) => Err(ScriptError::Memory),
        Err(ScriptError::Refused { .. }) => Err(refusal(alloc, text)),
    }
}

/// Why a text is refused that is no script of one space. Only where its first line is whole and
/// says version 1 is that the reason for which it is none.
fn refusal(alloc: Global, text: &[u8]) -> ScriptError
    requires version { version_of text.now ≢ Ok 2 }
    requires refused { (error : ErrorSeen) × (script_of text.now ≡ Err error) }
    ensures { TextAnswers (Err result) (scripted_of text.now) }
{
    match read_bundle(alloc, text) {
        // Of a text of another version than 2 there is no bundle but that of its script.
        Ok(_) => unreachable!(),
        Err(error) => error,
    }
}
