ghost use Rattle.std.specs.Prelude.{◌≡◌, IfOk, OnOk, map};
ghost use Rattle.std.specs.List.{All};
ghost use Rattle.hx_types.specs.Fitting.{IsScript};
ghost use Rattle.hx_world.specs.Worlds.{WorldState};
ghost use Rattle.hx_spaces.specs.Clusters.{IsRunOfSpace};
ghost use Rattle.hx_spaces.specs.Courses.{newest, run_at_start};

use crate::clusters::Traces;
use hx_types::{Memory, Script};
use hx_world::World;
use std::alloc::Global;

/// A world for each script.
pub fn start_worlds(alloc: Global, scripts: &[Script]) -> Result<Vec<World>, Memory>
    requires { All IsScript scripts.now }
    ensures { IfOk result (λ worlds. map newest worlds.items ≡ map run_at_start scripts.now) }
{
    let mut worlds = Vec::new(alloc);
    for script in scripts {
        let world = World::start(alloc, script)?;
        worlds.push(world)?;
    }
    Ok(worlds)
}

/// The traces of all worlds, whose actors are left to the system.
pub fn leave_worlds(alloc: Global, worlds: Vec<World>) -> Result<Traces, Memory>
    ensures traces { IfOk result (λ traces. traces ≡ map (λ (w : WorldState). w.trace) worlds.items) }
    ensures runs { OnOk result (All IsRunOfSpace (map newest worlds.items)) }
{
    let mut traces = Vec::new(alloc);
    traces.reserve(worlds.len())?;
    for world in worlds {
        traces.push(world.leave())?;
    }
    Ok(Traces::from_vec(traces))
}
