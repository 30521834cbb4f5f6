ghost use Rattle.std.specs.Prelude.{◌≡◌, ◌<◌, ◌≤◌, true, false, List, length, reverse, sum_by};
ghost use Rattle.hx_model.specs.Types.{Op};
ghost use Rattle.hx_types.specs.declared.limits.TheConstants.{MOST_CALLS};
ghost use Rattle.hx_types.specs.Fitting.{IsScript};
ghost use Rattle.hx_model.specs.Runs.{IsRun};
ghost use Rattle.hx_law_growing.specs.Growing.{calls_in};

use hx_types::{Calls, MOST_CALLS};
use hx_world::World;

/// How many calls these sessions have together.
fn count_calls(sessions: &[Calls]) -> usize
    requires { sum_by (λ (calls : List Op). length calls) sessions.now ≤ MOST_CALLS }
    ensures { result ≡ sum_by (λ (calls : List Op). length calls) sessions.now }
{
    match sessions.split_first() {
        None => 0,
        Some((first, rest)) => first.len() + count_calls(rest),
    }
}

/// Whether the script has the most calls that a script may have. Its trace is a run of it.
pub fn is_full(world: &World) -> bool
    ensures valid { IsScript world.now.script }
    ensures run { IsRun world.now.script (reverse world.now.trace) }
    ensures full { result ≡ true → calls_in world.now.script ≡ MOST_CALLS }
    ensures few { result ≡ false → calls_in world.now.script < MOST_CALLS }
{
    let _trace = world.trace();
    count_calls(world.script().sessions.as_slice()) >= MOST_CALLS
}
