ghost use Rattle.std.specs.Prelude.{◌≡◌, ◌+◌, ◌*◌, ◌<◌, ◌≤◌, ◌++◌, length, map, IfOk, OnOk, IsTrue};
ghost use Rattle.std.specs.List.{flat_map};
ghost use Rattle.std.specs.Option.{option_copied, option_map};
ghost use Rattle.hx_chain.specs.Crossing.{ComeAfterLower, crossed, place_for, places_in};
ghost use Rattle.hx_model.specs.Places.{declared_subspaces, places_of};
ghost use Rattle.hx_model.specs.Regions.{place_of};
ghost use Rattle.hx_model.specs.Slots.{top_of, touches_of};
ghost use Rattle.hx_region.specs.Spans.{subspace_count};

use hx_region::RegionMap;
use hx_slot::Slot;
use hx_types::{Memory, Object, Place, Places, RegionId, Text};
use std::alloc::Global;

/// The places through which an update of a key goes from one object to another, in the order of
/// its chain (HyperDex's value-dependent chaining).
///
/// The key region comes first. Where the update changes, each declared subspace follows in order
/// with the region of the old object and after it that of the new one if it differs; an absent
/// object has no region. Acknowledgements come back along the chain, so the new region keeps the
/// new object before the old region lets the old one go.
///
/// A place's `after` is the slot's last version with a place in that region (0 for none), in the
/// key region its top; `keeps` is whether the new object is there and lies in the region. The order
/// of the places, `after` and `keeps` are this project's choice.
///
/// # Errors
///
/// [`Memory`] alone.
pub fn places(
    alloc: Global,
    map: &RegionMap,
    key: &Text,
    old: Option<&Object>,
    new: Option<&Object>,
    changes: bool,
    slot: &Slot,
) -> Result<Places, Memory>
    requires { IsTrue slot.now.state.marks }
    ensures exact { IfOk result (λ places. places ≡ places_of map.now key.now (option_copied old.entry) (option_copied new.entry) changes (top_of slot.now.state) (touches_of slot.now.state)) }
    ensures after { IfOk result (ComeAfterLower (top_of slot.now.state + 1)) }
    ensures few { IfOk result (λ places. length places ≤ 1 + 2 * length map.now.subspaces) }
{
    let mut places = Places::new(alloc);
    places.push(Place {
        region: map.of_key(key),
        after: slot.top(),
        keeps: new.is_some(),
    })?;
    if changes {
        add_declared(&mut places, map, key, old, new, slot)?;
    }
    Ok(places)
}

/// Adds the places in the declared subspaces, one subspace after another.
fn add_declared(
    places: &mut Places,
    map: &RegionMap,
    key: &Text,
    old: Option<&Object>,
    new: Option<&Object>,
    slot: &Slot,
) -> Result<(), Memory>
    requires marks { IsTrue slot.now.state.marks }
    requires after { ComeAfterLower (top_of slot.now.state + 1) places.old }
    ensures exact { OnOk result (places.new ≡ places.old ++ flat_map (places_in map.now key.now (option_copied old.entry) (option_copied new.entry) (touches_of slot.now.state)) (declared_subspaces map.now)) }
    ensures after { OnOk result (ComeAfterLower (top_of slot.now.state + 1) places.new) }
    ensures few { OnOk result (length places.new ≤ length places.old + 2 * length map.now.subspaces) }
{
    for s in 1..map.subspaces() {
        let before = region_of(map, s, key, old);
        let after = region_of(map, s, key, new);
        add_between(places, before, after, slot)?;
    }
    Ok(())
}

/// The region of an object in a subspace: none where it is absent.
fn region_of(map: &RegionMap, s: u32, key: &Text, object: Option<&Object>) -> Option<RegionId>
    requires { s < subspace_count map.now }
    ensures { result ≡ option_map (place_of map.now s key.now) (option_copied object.entry) }
{
    match object {
        Some(object) => Some(map.of_object(s, key, object)),
        None => None,
    }
}

/// Adds the region before an update, and after it the one after the update if it differs.
fn add_between(
    places: &mut Places,
    before: Option<RegionId>,
    after: Option<RegionId>,
    slot: &Slot,
) -> Result<(), Memory>
    requires marks { IsTrue slot.now.state.marks }
    requires after { ComeAfterLower (top_of slot.now.state + 1) places.old }
    ensures exact { OnOk result (places.new ≡ places.old ++ map (place_for after (touches_of slot.now.state)) (crossed before after)) }
    ensures after { OnOk result (ComeAfterLower (top_of slot.now.state + 1) places.new) }
    ensures few { OnOk result (length places.new ≤ length places.old + 2) }
{
    if let Some(region) = before {
        places.push(place_in(region, after, slot))?;
    }
    if let Some(region) = after
        && before != after
    {
        places.push(place_in(region, after, slot))?;
    }
    Ok(())
}

/// The place in a region of an update whose new object lies in such a region.
fn place_in(region: RegionId, kept: Option<RegionId>, slot: &Slot) -> Place
    requires { IsTrue slot.now.state.marks }
    ensures exact { result ≡ place_for kept (touches_of slot.now.state) region }
    ensures after { result.after.0 < top_of slot.now.state + 1 }
{
    Place {
        region,
        after: slot.touched(region),
        keeps: kept == Some(region),
    }
}
