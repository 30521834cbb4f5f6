//! The lines of the drivers of a run.

ghost use Rattle.std.specs.Prelude.{◌≡◌, ◌++◌, OnOk};
ghost use Rattle.hx_report.specs.Driving.{driver_line, drivers_text, totals_text};

use crate::labels::put_labeled;
use crate::tracing::put_field;
use hx_print::put_bytes;
use hx_types::{Memory, Totals};

#[tactic(auto, unfolding(crate::specs::Driving::totals_text))]
fn put_totals(out: &mut Vec<u8>, totals: &Totals) -> Result<(), Memory>
    ensures { OnOk result (out.new.items ≡ out.old.items ++ totals_text totals.now) }
{
    put_field(out, b"posts", totals.posts)?;
    put_field(out, b"deliver", totals.deliver)?;
    put_field(out, b"lose", totals.lose)?;
    put_field(out, b"twice", totals.twice)
}

/// Appends the line of a driver. It fails for want of memory alone.
#[tactic(auto, unfolding(crate::specs::Driving::driver_line))]
pub fn put_driver(out: &mut Vec<u8>, number: u64, totals: &Totals) -> Result<(), Memory>
    ensures { OnOk result (out.new.items ≡ out.old.items ++ driver_line number totals.now) }
{
    put_labeled(out, b"driver ", number)?;
    put_totals(out, totals)?;
    put_bytes(out, b"\n")
}

/// Appends a line for each driver, numbered from 1.
#[tactic(auto, unfolding(crate::specs::Driving::drivers_text))]
pub fn put_drivers(out: &mut Vec<u8>, totals: &[Totals]) -> Result<(), Memory>
    ensures { OnOk result (out.new.items ≡ out.old.items ++ drivers_text 1 totals.now) }
{
    let mut number = 1;
    let mut rest = totals;
    'drivers: while let Some((driver, after)) = rest.split_first() {
        put_driver(out, number, driver)?;
        number += 1;
        rest = after;
    }
    Ok(())
}
