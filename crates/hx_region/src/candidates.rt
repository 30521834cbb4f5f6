ghost use Rattle.std.specs.Prelude.{◌≡◌, ◌<◌, ◌^◌, length, IfOk};
ghost use Rattle.hx_region.specs.Counts.{better_of, query_counts, IsFewest};

use crate::RegionMap;
use hx_types::{Memory, Terms};
use std::alloc::Global;

/// A subspace, and how many regions it has for a query.
#[derive(Clone, Copy)]
pub struct Candidate {
    pub subspace: u32,
    pub count: u32,
}

/// How many regions each subspace has for a query.
pub fn query_counts(
    alloc: Global,
    map: &RegionMap,
    terms: &Terms,
) -> Result<Vec<Option<u32>>, Memory>
    ensures exact { IfOk result (λ counts. counts.items ≡ query_counts map.now terms.now) }
    ensures few { IfOk result (λ counts. length counts.items < 2 ^ 32) }
{
    let mut counts = Vec::new(alloc);
    for s in 0..map.subspaces() {
        counts.push(Some(map.meeting_count(s, terms)))?;
    }
    Ok(counts)
}

/// The subspace with the fewest regions of those that have a count: of several such the last.
pub fn fewest(counts: &[Option<u32>]) -> Option<Candidate>
    requires { length counts.now < 2 ^ 32 }
    ensures { IsFewest counts.now (length counts.now) result }
{
    let mut best = None;
    for (s, count) in counts.iter().enumerate() {
        best = better(best, s as u32, *count);
    }
    best
}

/// The better of the best subspace so far and a further one: the one with fewer regions. The
/// further one wins a tie.
fn better(best: Option<Candidate>, subspace: u32, count: Option<u32>) -> Option<Candidate>
    ensures { result ≡ better_of best subspace count }
{
    match (best, count) {
        (_, None) => best,
        (Some(best), Some(count)) if best.count < count => Some(best),
        (_, Some(count)) => Some(Candidate { subspace, count }),
    }
}
