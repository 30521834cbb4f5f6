ghost use Rattle.std.specs.Prelude.{◌≡◌, reverse, IfOk};
ghost use Rattle.hx_soak.specs.Summing.{IsSummary, tally_text};
ghost use Rattle.hx_soak.specs.Tallying.{tally_of};

use crate::counting::put_counts;
use crate::objects::present_objects;
use crate::texts::put_objects;
use hx_history::{Histories, records_and_histories};
use hx_print::put_bytes;
use hx_trace::Trace;
use hx_types::{Memory, Records, Script, Space};
use std::alloc::Global;

/// The text of what the records and the histories add up to.
#[tactic(auto, unfolding(crate::specs::Summing::counts_text, crate::specs::Summing::tally_text))]
fn text(
    alloc: Global,
    space: &Space,
    records: &Records,
    histories: &Histories,
) -> Result<Vec<u8>, Memory>
    ensures { IfOk result
        (λ bytes. bytes.items ≡ tally_text space.now (tally_of records.now histories.now)) }
{
    let objects = present_objects(alloc, histories)?;
    let mut out = Vec::new(alloc);
    put_bytes(&mut out, b"soak 1\n")?;
    put_counts(&mut out, records.as_slice())?;
    put_objects(alloc, &mut out, space, &objects)?;
    put_bytes(&mut out, b"end\n")?;
    Ok(out)
}

/// The summary of a trace of the script: the lines `calls`, `done`, `notfound`, `cmpfail`, `found`
/// and `searches` with how many calls ended, and ended so; `objects` with how many keys' histories
/// end with an object present, and `digest` with the hash FNV-1a of the lines of these objects in
/// byte order of keys.
///
/// Of searches those count that ended with rows, and so none that was refused. A sum that
/// overflowed and a text that was too long have no line, since no call that is drawn is atomic.
///
/// # Errors
///
/// [`Memory`] alone, where there is no room for the text or for what it is made of.
pub fn summary(alloc: Global, script: &Script, trace: &Trace) -> Result<Vec<u8>, Memory>
    ensures { IfOk result (λ bytes. IsSummary script.now (reverse trace.now) bytes.items) }
{
    let both = records_and_histories(alloc, script, trace)?;
    text(alloc, &script.space, &both.records, &both.histories)
}
