//! Scripts of the tests.
ghost use Rattle.std.specs.Prelude.{IfOk};
ghost use Rattle.hx_types.specs.Fitting.{IsScript};

use hx_script::{ScriptError, read, scripts_are_valid};
use hx_types::Script;
use std::alloc::Global;
use std::process::Abort;

/// The script of a text.
fn read_script(alloc: Global, text: &str) -> Result<Script, ScriptError>
    ensures { IfOk result (λ script. IsScript script) }
{
    scripts_are_valid();
    let script = read(alloc, text.as_bytes())?;
    Ok(script)
}

/// The script of a text. What a test can't get ends it.
pub fn script_of<R: Abort + AllocGlobal>(rt: &R, text: &str) -> Script
    ensures { IsScript result }
{
    read_script(rt.alloc(), text).expect(rt, "a script")
}
