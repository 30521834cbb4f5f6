ghost use Rattle.std.specs.Prelude.{◌≡◌, [], IfOk, length, replicate};
ghost use Rattle.hx_types.specs.Fitting.{IsScript};
ghost use Rattle.hx_service.specs.Progress.{no_progress};
ghost use Rattle.hx_service.specs.Services.{emptied};

use crate::progress::Progress;
use hx_types::{Calls, Exact, Memory, Script, Sessions, Steps};
use std::alloc::Global;

/// So many sessions without calls.
fn no_calls(alloc: Global, count: usize) -> Result<Sessions, Memory>
    ensures { IfOk result (λ sessions. sessions ≡ replicate count []) }
{
    let mut sessions = Sessions::new(alloc);
    for _session in 0..count {
        sessions.push(Calls::new(alloc))?;
    }
    Ok(sessions)
}

/// The script without its calls and steps.
pub fn empty_script(alloc: Global, script: &Script) -> Result<Script, Memory>
    requires { IsScript script.now }
    ensures { IfOk result (λ empty. (empty ≡ emptied script.now) × IsScript empty) }
{
    Ok(Script {
        space: script.space.copy(alloc)?,
        sessions: no_calls(alloc, script.sessions.len())?,
        steps: Steps::new(alloc),
    })
}

/// No call has begun of so many sessions.
pub fn start_progress(alloc: Global, count: usize) -> Result<Vec<Progress>, Memory>
    ensures { IfOk result (λ progress. progress.items ≡ replicate count no_progress) }
{
    let none = Progress {
        begun: 0,
        under_way: None,
    };
    let progress = vec![in alloc; none; count]?;
    Ok(progress)
}
