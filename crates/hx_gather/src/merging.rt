ghost use Rattle.std.specs.Prelude.{◌≡◌, ◌<◌, ◌^◌, List, length, map, IfOk};
ghost use Rattle.hx_clock.specs.declared.parts.Stamped.{Stamped};
ghost use Rattle.hx_clock.specs.Parts.{all_of, IsCausal};
ghost use Rattle.hx_law_threads.specs.Merged.{IsMerged};
ghost use Rattle.hx_gather.specs.Stretches.{stretches_of, ArePlaces};

use crate::stretches::Stretches;
use hx_clock::{Part, Parts};
use hx_trace::{EntryPlace, Trace};
use hx_types::Memory;
use itertools::Itertools;
use std::alloc::Global;

/// All entries of causal parts in the order of their stamps, and nothing else. It moves no entry:
/// each stays where it lies, and the trace has its place. What is merged are stretches of entries
/// whose stamps follow one another, as each thread gives an actor several turns together, and these
/// are fewer than the entries.
///
/// Beside the parts there is memory for eight bytes for each entry, and for a stretch of each part.
/// Where there is not enough, or there are 4,294,967,296 entries or 65,536 parts, the entries are
/// dropped.
pub fn merge(alloc: Global, parts: Parts) -> Result<Trace, Memory>
    requires causal { IsCausal parts }
    ensures merged { IfOk result (λ trace. (merged : List Stamped) × IsMerged parts merged × (trace ≡ map (λ x. x.entry) merged)) }
{
    let places = places_of(alloc, parts.as_slice())?;
    Ok(Trace::of_parts(alloc, parts, places))
}

/// The places of all entries, in the order of their stamps.
fn places_of(alloc: Global, parts: &[Part]) -> Result<Vec<EntryPlace>, Memory>
    requires causal { IsCausal parts.now }
    ensures places { IfOk result (λ places. ArePlaces places.items parts.now) }
{
    let entries = entries_in(parts)?;
    if entries > u32::MAX as usize || parts.len() > usize::from(u16::MAX) {
        return Err(Memory);
    }
    let mut places = Vec::with_capacity(alloc, entries)?;
    let sources = sources_of(alloc, parts)?;
    for stretch in sources.into_iter().kmerge(alloc)? {
        stretch.put_places(&mut places)?;
    }
    Ok(places)
}

/// The stretches of each part.
fn sources_of<'a>(alloc: Global, parts: &'a [Part]) -> Result<Vec<Stretches<'a>>, Memory>
    requires few_entries { length (all_of parts.now) < 2 ^ 32 }
    requires few_parts { length parts.now < 2 ^ 16 }
    ensures { IfOk result (λ sources. sources.items ≡ stretches_of parts.now) }
{
    let mut sources = Vec::with_capacity(alloc, parts.len())?;
    for (place, part) in parts.iter().enumerate() {
        sources.push(Stretches::new(place as u16, part))?;
    }
    Ok(sources)
}

/// How many entries the parts have. Where they are more than a number can say, there is no memory
/// for them.
fn entries_in(parts: &[Part]) -> Result<usize, Memory>
    ensures { IfOk result (λ entries. entries ≡ length (all_of parts.now)) }
{
    let mut entries: usize = 0;
    for part in parts {
        entries = entries.checked_add(part.len()).ok_or(Memory)?;
    }
    Ok(entries)
}
