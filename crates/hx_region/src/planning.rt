ghost use Rattle.std.specs.Prelude.{◌≡◌, IfOk};
ghost use Rattle.std.specs.List.{find};
ghost use Rattle.hx_model.specs.Planning.{any_lost, lowest_lost, plan_of};
ghost use Rattle.hx_types.specs.Configs.{is_lost};

use crate::RegionMap;
use crate::candidates::{fewest, query_counts};
use hx_types::{Config, Memory, Planned, RegionId, RegionList, Terms};
use std::alloc::Global;

/// Which regions a search of these terms asks.
///
/// Of each subspace the regions that meet the terms are those for the query. The plan names the
/// subspace with the fewest of them, as HyperDex chooses, among those none of whose regions for
/// the query is lost (no server of it is ready); the one declared last wins a tie, by this
/// project's choice. Where every subspace has a lost region for the query, there is no plan:
/// `Lost` names the lowest lost one of the key subspace.
///
/// The regions for the query are first counted in each subspace, in one step for each axis and
/// term. Then those of the subspace with the fewest are made, from the cells of its axes, and no
/// other region is looked at; only where one of them is lost are those of the next subspace made
/// too, and where no subspace is left those of the key subspace once more. So a plan costs about
/// as much as it names, however many regions the space has.
///
/// # Errors
///
/// [`Memory`] alone.
pub fn plan(
    alloc: Global,
    map: &RegionMap,
    config: &Config,
    terms: &Terms,
) -> Result<Planned, Memory>
    ensures exact { IfOk result (λ planned. planned ≡ plan_of map.now config.now terms.now) }
{
    let mut counts = query_counts(alloc, map, terms)?;
    while let Some(best) = fewest(counts.as_slice()) {
        let regions = map.meeting(alloc, best.subspace, terms)?;
        if !any_lost(config, &regions) {
            return Ok(Planned::Regions {
                subspace: best.subspace,
                regions,
            });
        }
        counts[best.subspace as usize] = None;
    }
    let keys = map.meeting(alloc, 0, terms)?;
    Ok(Planned::Lost(lowest_lost(config, &keys)))
}

fn any_lost(config: &Config, regions: &RegionList) -> bool
    ensures { result ≡ any_lost config.now regions.now }
{
    regions
        .as_slice()
        .iter()
        .any(|region| config.is_lost(*region))
}

/// The first lost region of an ascending list; region 0 where none is lost.
fn lowest_lost(config: &Config, regions: &RegionList) -> RegionId
    ensures { result ≡ lowest_lost config.now regions.now }
{
    match first_lost(config, regions.as_slice()) {
        Some(region) => region,
        None => RegionId(0),
    }
}

fn first_lost(config: &Config, regions: &[RegionId]) -> Option<RegionId>
    ensures { result ≡ find (is_lost config.now) regions.now }
{
    regions
        .iter()
        .copied()
        .find(|region| config.is_lost(*region))
}
