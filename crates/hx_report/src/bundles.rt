//! The report of several spaces.

ghost use Rattle.std.specs.Prelude.{◌≡◌, length, map, reverse, IfOk, OnOk};
ghost use Rattle.std.specs.List.{All};
ghost use Rattle.hx_bundle.specs.Bundles.{IsBundle};
ghost use Rattle.hx_types.specs.Fitting.{IsScript};
ghost use Rattle.hx_report.specs.BundleReporting.{AddsBlocks, IsBundleReport};

use crate::blocks::put_block;
use hx_bundle::Bundle;
use hx_print::put_bytes;
use hx_trace::Trace;
use hx_types::{Memory, Script, Sequence, Totals};
use std::alloc::Global;

/// Appends the lines of each space in order.
fn put_blocks(
    alloc: Global,
    out: &mut Vec<u8>,
    scripts: &[Script],
    traces: &[Trace],
    totals: &[Sequence<Totals>],
    with_trace: bool,
) -> Result<(), Memory>
    requires valid { All IsScript scripts.now }
    requires traced { length traces.now ≡ length scripts.now }
    requires driven { length totals.now ≡ length scripts.now }
    ensures { OnOk result (AddsBlocks scripts.now (map (λ t. reverse t) traces.now) totals.now with_trace out.old.items out.new.items) }
{
    for (space, script) in scripts.iter().enumerate() {
        put_block(
            alloc,
            out,
            script,
            &traces[space],
            totals[space].as_slice(),
            with_trace,
        )?;
    }
    Ok(())
}

/// The report of a bundle, of which each space has a trace of its script and the totals of its own
/// drivers: `report 2`, for each space in order the lines that [`report`](crate::report) has
/// between its first and its last, and `end`. Entries are numbered in their space alone.
///
/// # Errors
///
/// [`Memory`] alone, where there is no room for the text or for what it is made of.
#[tactic(auto, unfolding(crate::specs::BundleReporting::bundle_report_text))]
pub fn report_bundle(
    alloc: Global,
    bundle: &Bundle,
    traces: &[Trace],
    totals: &[Sequence<Totals>],
    with_trace: bool,
) -> Result<Vec<u8>, Memory>
    requires valid { IsBundle bundle.now }
    requires traced { length traces.now ≡ length bundle.now.spaces }
    requires driven { length totals.now ≡ length bundle.now.spaces }
    ensures { IfOk result
        (λ bytes. IsBundleReport bundle.now (map (λ t. reverse t) traces.now) totals.now bytes.items with_trace) }
{
    let mut out = Vec::new(alloc);
    put_bytes(&mut out, b"report 2\n")?;
    put_blocks(
        alloc,
        &mut out,
        bundle.spaces.as_slice(),
        traces,
        totals,
        with_trace,
    )?;
    put_bytes(&mut out, b"end\n")?;
    Ok(out)
}
