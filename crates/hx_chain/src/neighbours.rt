ghost use Rattle.std.specs.Prelude.{◌≡◌, ◌<◌, ◌^◌, length, is_some, IfSome};
ghost use Rattle.std.specs.Option.{option_copied};
ghost use Rattle.hx_model.specs.Neighbours.{enters, enters_last, hop_at, last_member, member_after, member_before, members_at, next_of, preceding_place, place_number, prev_of, region_at};
ghost use Rattle.hx_model.specs.Slots.{has_place};

use hx_types::{Config, Hop, Member, Place, Places, RegionId, ServerId, Update};

/// The replica after a server's at a place of an update, to which the update goes on: the next
/// member of the place's region, or else the first member of the next place's region.
///
/// After the last member it is `End` where no place follows, and `Blocked` exactly where the next
/// place's region is lost. A server that isn't a member of the place's region is told what follows
/// the last member.
#[inline]
pub fn next(config: &Config, update: &Update, place: u32, server: ServerId) -> Hop
    requires { place < u32.MAX }
    ensures { result ≡ next_of config.now update.now.places place server }
{
    let members = members_at(config, &update.places, place);
    match member_after(members, server) {
        Some(server) => Hop::At { server, place },
        None => {
            let place = place + 1;
            enters(config, place, update.places.get(place as usize))
        }
    }
}

/// The replica before a server's at a place of an update, to which the acknowledgement goes back:
/// the member before it in the place's region, or else the last member of the region of the place
/// before.
///
/// Before the first member it is `End` where no place stands before, and `Blocked` exactly where
/// the region of the place before is lost. A server that isn't a member of the place's region is
/// told what stands before the first member.
#[inline]
pub fn prev(config: &Config, update: &Update, place: u32, server: ServerId) -> Hop
    ensures { result ≡ prev_of config.now update.now.places place server }
{
    let members = members_at(config, &update.places, place);
    match member_before(members, server) {
        Some(server) => Hop::At { server, place },
        None => {
            let before = preceding_place(&update.places, place);
            enters_last(config, place.saturating_sub(1), before)
        }
    }
}

/// The number of an update's place in a region, from 0, or `None` where it has no place there.
#[inline]
pub fn place_number(update: &Update, region: RegionId) -> Option<u32>
    requires { length update.now.places < 2 ^ 32 }
    ensures found { is_some result ≡ has_place region update.now }
    ensures number { IfSome result (λ place. place ≡ place_number region update.now.places) }
    ensures within { IfSome result (λ place. place < length update.now.places) }
{
    let mut number = 0;
    for place in update.places.as_slice() {
        if place.region == region {
            return Some(number);
        }
        number += 1;
    }
    None
}

/// The region of a place.
#[inline]
pub fn region_at(places: &Places, place: u32) -> RegionId
    ensures { result ≡ region_at places.now place }
{
    match places.get(place as usize) {
        Some(found) => found.region,
        None => RegionId(0),
    }
}

/// The members of the region of a place.
#[inline]
fn members_at<'a>(config: &'a Config, places: &Places, place: u32) -> &'a [Member]
    ensures { result.now ≡ members_at config.now places.now place }
{
    match places.get(place as usize) {
        Some(found) => config.members(found.region),
        None => &[],
    }
}

#[inline]
fn member_after(members: &[Member], server: ServerId) -> Option<ServerId>
    ensures { result ≡ member_after server members.now }
{
    for (at, member) in members.iter().enumerate() {
        if member.server == server {
            return match members.get(at + 1) {
                Some(next) => Some(next.server),
                None => None,
            };
        }
    }
    None
}

/// The member right before a server in a list. Before the first there is none, and none before a
/// server that isn't a member.
#[inline]
pub fn member_before(members: &[Member], server: ServerId) -> Option<ServerId>
    ensures { result ≡ member_before None server members.now }
{
    let mut before = None;
    for member in members {
        if member.server == server {
            return before;
        }
        before = Some(member.server);
    }
    None
}

#[inline]
fn last_member(members: &[Member]) -> Option<ServerId>
    ensures { result ≡ last_member None members.now }
{
    match members.last() {
        Some(member) => Some(member.server),
        None => None,
    }
}

#[inline]
fn hop_at(place: u32, server: Option<ServerId>) -> Hop
    ensures { result ≡ hop_at place server }
{
    match server {
        Some(server) => Hop::At { server, place },
        None => Hop::End,
    }
}

/// The first position of a place that follows.
#[inline]
fn enters(config: &Config, place: u32, after: Option<&Place>) -> Hop
    ensures { result ≡ enters config.now place (option_copied after.entry) }
{
    match after {
        None => Hop::End,
        Some(after) if config.is_lost(after.region) => Hop::Blocked(after.region),
        Some(after) => hop_at(place, config.head(after.region)),
    }
}

/// The last position of a place that stands before.
#[inline]
fn enters_last(config: &Config, place: u32, before: Option<&Place>) -> Hop
    ensures { result ≡ enters_last config.now place (option_copied before.entry) }
{
    match before {
        None => Hop::End,
        Some(before) if config.is_lost(before.region) => Hop::Blocked(before.region),
        Some(before) => hop_at(place, last_member(config.members(before.region))),
    }
}

#[inline]
fn preceding_place(places: &Places, place: u32) -> Option<&Place>
    ensures { option_copied result ≡ preceding_place places.now place }
{
    if place == 0 {
        return None;
    }
    places.get(place as usize - 1)
}
