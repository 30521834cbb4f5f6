ghost use Rattle.std.specs.Prelude.{◌≡◌, [], IfOk, map};
ghost use Rattle.hx_model.specs.Types.{Script as ScriptSeen};
ghost use Rattle.hx_bundle.specs.Bundles.{IsBundle};
ghost use Rattle.hx_spaces.specs.Courses.{Course, at_start};
ghost use Rattle.hx_spaces.specs.Stepping.{bundle_stepped};
ghost use Rattle.hx_replay.specs.Courses.{AreAllTaken, BundleEnds, IsCourseOf, IsWhole, IsWholeCourse};

use crate::bundle_steps::take_steps;
use crate::outcomes::{Ended, Written};
use crate::replaying::ended_by;
use hx_bundle::Bundle;
use hx_report::report_bundle;
use hx_spaces::{Cluster, Traces};
use hx_types::{Memory, Script, Sequence, Totals};
use hx_world::Drained;
use std::alloc::Global;

/// Takes the steps of a bundle, each in its space, and goes on by the schedule of all spaces.
pub fn replay_bundle(alloc: Global, bundle: &Bundle, with_trace: bool) -> Result<Ended, Memory>
    requires { IsBundle bundle.now }
    ensures { IfOk result (BundleEnds with_trace bundle.now) }
{
    let mut cluster = Cluster::start(alloc, bundle)?;
    match take_steps(alloc, bundle, &mut cluster) {
        Ok(()) => finish(alloc, bundle, with_trace, cluster),
        Err(stopped) => {
            let traces = leave(alloc, bundle, cluster)?;
            ended_by(stopped, traces)
        }
    }
}

/// The traces of a cluster of this bundle.
fn leave(alloc: Global, bundle: &Bundle, cluster: Cluster<'_>) -> Result<Traces, Memory>
    requires { cluster.bundle ≡ bundle.now }
    ensures { IfOk result (IsCourseOf bundle.now cluster.entry) }
{
    cluster.leave(alloc)
}

/// Runs a cluster whose bundle's steps were taken by the schedule, until there is nothing left to
/// do or an actor is worn.
fn finish(
    alloc: Global,
    bundle: &Bundle,
    with_trace: bool,
    cluster: Cluster<'_>,
) -> Result<Ended, Memory>
    requires valid { IsBundle bundle.now }
    requires bundle { cluster.bundle ≡ bundle.now }
    requires taken { AreAllTaken bundle.now }
    requires stepped { cluster ≡ bundle_stepped (at_start bundle.now) bundle.now.steps }
    ensures { IfOk result (BundleEnds with_trace bundle.now) }
{
    let mut cluster = cluster;
    match cluster.drain(alloc, u64::MAX) {
        Ok(Drained::Quiet) => {
            let traces = leave(alloc, bundle, cluster)?;
            Ok(Ended::Whole(answered(alloc, bundle, with_trace, traces)?))
        }
        // No world makes so many entries.
        Ok(Drained::Spent) => unreachable!(),
        Err(error) => {
            let traces = leave(alloc, bundle, cluster)?;
            ended_by(error.into(), traces)
        }
    }
}

/// The whole course and its report.
fn answered(
    alloc: Global,
    bundle: &Bundle,
    with_trace: bool,
    traces: Traces,
) -> Result<Written, Memory>
    requires valid { IsBundle bundle.now }
    requires whole { (course : Course) × IsWhole bundle.now course traces }
    ensures { IfOk result (λ made. IsWholeCourse with_trace bundle.now made.traces made.bytes.items) }
{
    hx_law_searches::histories_are_linear();
    hx_law_order::runs_have_one_order();
    hx_law_searches::searches_are_true_and_whole();
    hx_law_causes::answers_have_causes();
    hx_law_epochs::lost_regions_have_lost_their_replicas();
    let totals = no_totals(alloc, bundle.spaces.as_slice())?;
    let bytes = report_bundle(
        alloc,
        bundle,
        traces.as_slice(),
        totals.as_slice(),
        with_trace,
    )?;
    Ok(Written { traces, bytes })
}

/// No driver of any space.
fn no_totals(alloc: Global, scripts: &[Script]) -> Result<Sequence<Sequence<Totals>>, Memory>
    ensures { IfOk result (λ totals. totals ≡ map (λ (s : ScriptSeen). []) scripts.now) }
{
    let mut totals = Sequence::with_capacity(alloc, scripts.len())?;
    for _script in scripts {
        totals.push(Sequence::new(alloc))?;
    }
    Ok(totals)
}
