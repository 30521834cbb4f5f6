ghost use Rattle.std.specs.Prelude.{◌≡◌, ◌+◌, ◌<◌, ◌≤◌, ◌==◌, IfOk, MatchResult, length, vec_capacity, vec_len};
ghost use Rattle.std.specs.List.{list_any};
ghost use Rattle.std.specs.List.Sorted.{IsSearchInRange};
ghost use Rattle.std.specs.Option.{option_map};
ghost use Rattle.hx_model.specs.Places.{touched_in};
ghost use Rattle.hx_model.specs.Slots.{with_touch, with_touches};
ghost use Rattle.hx_slot.specs.MarksAndTouches.{AscendByRegion, IsAt, IsGap, touch_among, touched_over, touches_over};
ghost use Rattle.hx_types.specs.Words.{provided};
ghost use Rattle.hx_model.specs.Types.{Place, Version};

use crate::rooms::copy_all;
use crate::updates::AcceptedUpdate;
use hx_types::{Memory, Place, RegionId, Touch, Touches, Version, insert_within};
use std::alloc::Global;

/// The version of a region's touch, found by halving.
pub fn touch_of(touches: &[Touch], region: RegionId) -> Option<Version>
    requires { AscendByRegion touches.now }
    ensures { option_map (λ (v : Version). v.0) result ≡ touch_among region touches.now }
{
    match search(touches, region) {
        Ok(place) => Some(touches[place].version),
        Err(_) => None,
    }
}

/// The last version at a region: that of the last of these updates that has a place there, or else
/// of the region's touch, or 0.
pub fn last_touch(line: &[AcceptedUpdate], touches: &[Touch], region: RegionId) -> Version
    requires { AscendByRegion touches.now }
    ensures { result.0 ≡ touched_over region (touched_in region touches.now) line.now }
{
    let mut rest = line;
    while let Some((taken, older)) = rest.split_last() {
        if has_place(taken.update.places.as_slice(), region) {
            return taken.update.version;
        }
        rest = older;
    }
    touch_of(touches, region).unwrap_or(Version(0))
}

/// Whether one of the places is in the region.
fn has_place(places: &[Place], region: RegionId) -> bool
    ensures { result ≡ list_any (λ (p : Place). p.region.0 == region.0) places.now }
{
    places.iter().any(|place| place.region == region)
}

/// Notes the version as the last one at each of the places. There is room for a touch a place.
pub fn note_touches(touches: &mut Vec<Touch>, version: Version, places: &[Place])
    requires ascending { AscendByRegion touches.old.items }
    requires room { vec_len touches.old + length places.now ≤ vec_capacity touches.old }
    ensures items { touches.new.items ≡ with_touches version places.now touches.old.items }
    ensures len { vec_len touches.new ≤ vec_len touches.old + length places.now }
    ensures capacity { vec_capacity touches.old ≤ vec_capacity touches.new }
{
    for place in places {
        let touch = Touch {
            region: place.region,
            version,
        };
        note_touch(touches, touch);
    }
}

fn note_touch(touches: &mut Vec<Touch>, touch: Touch)
    requires ascending { AscendByRegion touches.old.items }
    requires room { vec_len touches.old < vec_capacity touches.old }
    ensures items { touches.new.items ≡ with_touch touch touches.old.items }
    ensures len { vec_len touches.new ≤ vec_len touches.old + 1 }
    ensures capacity { vec_capacity touches.old ≤ vec_capacity touches.new }
{
    match search(touches.as_slice(), touch.region) {
        Ok(place) => touches[place] = touch,
        Err(place) => insert_within(touches, place, touch),
    }
}

/// Where the touch of a region stands, or where it would.
fn search(touches: &[Touch], region: RegionId) -> Result<usize, usize>
    requires { AscendByRegion touches.now }
    ensures bound { IsSearchInRange result (length touches.now) }
    ensures place { MatchResult result (IsAt region.0 touches.now) (IsGap region.0 touches.now) }
{
    touches.binary_search_by_key(&region.0, |touch| touch.region.0)
}

/// The touches after these updates, from those before them; none where touches aren't kept.
pub fn touches_over(
    alloc: Global,
    kept: bool,
    base: &Vec<Touch>,
    line: &[AcceptedUpdate],
) -> Result<Touches, Memory>
    requires { AscendByRegion base.now.items }
    ensures { IfOk result (λ touches. touches ≡ provided kept (touches_over base.now.items line.now)) }
{
    if !kept {
        return Ok(Touches::new(alloc));
    }
    let mut touches = copy_all(base)?;
    for taken in line {
        let update = taken.update.get();
        let places = update.places.as_slice();
        touches.reserve(places.len())?;
        note_touches(&mut touches, update.version, places);
    }
    Ok(Touches::from_vec(touches))
}
