ghost use Rattle.std.specs.Prelude.{◌≡◌, IfErr, OnErr, OnOk};
ghost use Rattle.hx_bundle.specs.Bundles.{IsBundle};
ghost use Rattle.hx_spaces.specs.Courses.{at_start};
ghost use Rattle.hx_spaces.specs.Stepping.{IsStepAt, Steps, bundle_stepped};
ghost use Rattle.hx_replay.specs.BundleSteps.{BundleStops, BundleStopsAt};
ghost use Rattle.hx_replay.specs.Courses.{AreAllTaken};

use crate::steps::{Stopped, stopped_by};
use hx_bundle::{Bundle, BundleStep};
use hx_spaces::Cluster;
use std::alloc::Global;

/// Takes the steps of a bundle in order, each in its space.
pub fn take_steps(alloc: Global, bundle: &Bundle, cluster: &mut Cluster<'_>) -> Result<(), Stopped>
    requires valid { IsBundle bundle.now }
    requires start { cluster.old ≡ at_start bundle.now }
    ensures bundle { cluster.new.bundle ≡ cluster.old.bundle }
    ensures taken { OnOk result (AreAllTaken bundle.now) }
    ensures course { OnOk result (cluster.new ≡ bundle_stepped (at_start bundle.now) bundle.now.steps) }
    ensures stops { IfErr result (BundleStops bundle.now cluster.new) }
{
    let mut rest = bundle.steps.as_slice();
    'steps: while let Some((first, after)) = rest.split_first() {
        take_step_in_space(alloc, cluster, first)?;
        rest = after;
    }
    Ok(())
}

/// Takes a step in its space.
fn take_step_in_space(
    alloc: Global,
    cluster: &mut Cluster<'_>,
    step: &BundleStep,
) -> Result<(), Stopped>
    requires { IsStepAt cluster.old.bundle step.now.space step.now.step }
    ensures bundle { cluster.new.bundle ≡ cluster.old.bundle }
    ensures takes { OnOk result (Steps cluster.old cluster.new step.now.space step.now.step) }
    ensures stops { IfErr result (BundleStopsAt cluster.old step.now) }
    ensures err { OnErr result (cluster.new ≡ cluster.old) }
{
    match cluster.step(alloc, step.space, &step.step) {
        Ok(()) => Ok(()),
        Err(error) => Err(stopped_by(error, step.line)),
    }
}
