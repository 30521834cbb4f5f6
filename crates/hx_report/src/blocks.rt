//! The lines of a space.

ghost use Rattle.std.specs.Prelude.{◌≡◌, ◌++◌, reverse, OnOk};
ghost use Rattle.hx_types.specs.Spaces.{IsSpace};
ghost use Rattle.hx_report.specs.BundleReporting.{AddsBlock};
ghost use Rattle.hx_report.specs.Driving.{drivers_text};
ghost use Rattle.hx_report.specs.Tracing.{trace_text};

use crate::calls::put_records;
use crate::drivers::put_drivers;
use crate::epochs::put_epochs;
use crate::items::put_histories;
use crate::tracing::put_trace;
use hx_history::records_and_items;
use hx_print::put_space;
use hx_trace::Trace;
use hx_types::{Memory, Script, Totals};
use std::alloc::Global;

/// Appends the lines behind the epochs: those of the trace where they are wanted, and of the
/// drivers.
fn put_rest(
    out: &mut Vec<u8>,
    trace: &Trace,
    totals: &[Totals],
    with_trace: bool,
) -> Result<(), Memory>
    ensures { OnOk result (out.new.items ≡ out.old.items
        ++ trace_text with_trace (reverse trace.now) ++ drivers_text 1 totals.now) }
{
    put_trace(out, trace, with_trace)?;
    put_drivers(out, totals)
}

/// Appends the lines of a space, as a trace of its script has them: those of the space, of each
/// begun call with its answer, of each key's history, of each epoch, exactly with `with_trace` of
/// each entry and post, and of each driver that took part.
#[tactic(auto, unfolding(crate::specs::BundleReporting::block_text))]
pub fn put_block(
    alloc: Global,
    out: &mut Vec<u8>,
    script: &Script,
    trace: &Trace,
    totals: &[Totals],
    with_trace: bool,
) -> Result<(), Memory>
    requires { IsSpace script.now.space }
    ensures { OnOk result (AddsBlock script.now (reverse trace.now) totals.now with_trace out.old.items out.new.items) }
{
    let both = records_and_items(alloc, script, trace)?;
    put_space(out, &script.space)?;
    put_records(alloc, out, script, &both.records)?;
    put_histories(out, &script.space, &both.histories)?;
    put_epochs(alloc, out, script, trace, both.has_issued)?;
    put_rest(out, trace, totals, with_trace)
}
