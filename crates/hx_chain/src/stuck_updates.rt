ghost use Rattle.std.specs.Prelude.{◌≡◌, drop};
ghost use Rattle.hx_chain.specs.Parts.{stuck_seen};
ghost use Rattle.hx_model.specs.Leading.{first_lost, stuck_among, stuck_of};
ghost use Rattle.hx_model.specs.Slots.{pending_of};

use hx_slot::Slot;
use hx_types::{Config, Places, RegionId, Version};

/// The lowest pending version that has a place in a lost region, with the first such place's
/// region: what stands behind it may never be committed. `None` where no pending version has.
///
/// It takes no memory.
pub fn stuck(config: &Config, slot: &Slot) -> Option<(Version, RegionId)>
    ensures { stuck_seen result ≡ stuck_of config.now slot.now.state }
{
    stuck_from(config, slot, 0)
}

/// What [`stuck`] would give if so many of the lowest pending updates were committed.
///
/// It takes no memory.
#[tactic(auto, using(crate::proofs::Pending::drop_at, crate::proofs::Pending::none_at))]
pub fn stuck_from(config: &Config, slot: &Slot, committed: u32) -> Option<(Version, RegionId)>
    ensures { stuck_seen result ≡ stuck_among config.now (drop committed (pending_of slot.now.state)) }
{
    for i in committed..slot.pending_count() {
        let Some(update) = slot.pending(i) else {
            return None;
        };
        if let Some(region) = first_lost(config, &update.places) {
            return Some((update.version, region));
        }
    }
    None
}

/// The region of the first place in a lost region.
pub fn first_lost(config: &Config, places: &Places) -> Option<RegionId>
    ensures { result ≡ first_lost config.now places.now }
{
    for place in places.as_slice() {
        if config.is_lost(place.region) {
            return Some(place.region);
        }
    }
    None
}
