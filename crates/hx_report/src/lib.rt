//! The report of a trace: its space, its calls, the histories of its keys, its epochs, where they
//! are wanted its entries and posts, and what each driver of a run did with posts.
//!
//! The format is this project's choice. The functions fail for want of memory alone; no contract
//! says that there is memory, so the test shows a whole report being made.
#![tactic(auto)]

ghost use Rattle.std.specs.Prelude.{reverse, IfOk};
ghost use Rattle.hx_types.specs.Spaces.{IsSpace};
ghost use Rattle.hx_report.specs.Reporting.{IsReport};

mod answers;
mod blocks;
mod bundles;
mod calls;
mod drivers;
mod epochs;
mod items;
mod labels;
mod objects;
mod printed_rows;
mod tracing;

use crate::blocks::put_block;
pub use answers::{put_maybe_answer, put_row};
pub use bundles::report_bundle;
pub use calls::put_end;
pub use drivers::put_driver;
use hx_print::put_bytes;
use hx_trace::Trace;
use hx_types::{Memory, Script, Totals};
pub use items::put_state;
pub use labels::put_labeled;
pub use objects::put_object;
use std::alloc::Global;

/// The report of a trace of the script: the lines of the space, of each begun call with its answer,
/// of each key's history, of each epoch, exactly with `with_trace` of each entry and post, and of
/// each driver that took part.
///
/// # Errors
///
/// [`Memory`] alone, where there is no room for the text or for what it is made of.
#[tactic(auto, using(crate::proofs::BlockTexts::report_is))]
pub fn report(
    alloc: Global,
    script: &Script,
    trace: &Trace,
    totals: &[Totals],
    with_trace: bool,
) -> Result<Vec<u8>, Memory>
    requires { IsSpace script.now.space }
    ensures { IfOk result
        (λ bytes. IsReport script.now (reverse trace.now) totals.now bytes.items with_trace) }
{
    let mut out = Vec::new(alloc);
    put_bytes(&mut out, b"report 1\n")?;
    put_block(alloc, &mut out, script, trace, totals, with_trace)?;
    put_bytes(&mut out, b"end\n")?;
    Ok(out)
}
