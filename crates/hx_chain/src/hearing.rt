ghost use Rattle.std.specs.Prelude.{◌≡◌, ◌<◌};
ghost use Rattle.hx_model.specs.Hearing.{goes_to, goes_to_at, hears_ack, hears_snap, hears_update, is_that};

use crate::neighbours::{member_before, next, prev, region_at};
use hx_types::{Actor, Config, Hop, Places, RegionId, ServerId, Update};

/// Whether a server's replica hears an update of a sender: the sender stands right before it in the
/// update's chain.
#[inline]
pub fn hears_update(
    config: &Config,
    update: &Update,
    place: u32,
    server: ServerId,
    from: Actor,
) -> bool
    ensures { result ≡ hears_update config.now update.now place server from }
{
    goes_to(from, prev(config, update, place, server))
}

/// Whether a server's replica hears an acknowledgement of an update, of a sender for its replica of
/// a region: that replica stands right after it in the update's chain.
#[inline]
pub fn hears_ack(
    config: &Config,
    update: &Update,
    place: u32,
    server: ServerId,
    from: Actor,
    by: RegionId,
) -> bool
    requires { place < u32.MAX }
    ensures { result ≡ hears_ack config.now update.now place server from by }
{
    goes_to_at(
        &update.places,
        by,
        from,
        next(config, update, place, server),
    )
}

/// Whether a server's replica of a region hears a snapshot of a sender: the sender is the member
/// right before it in the region's list. A server that isn't a member hears nobody.
pub fn hears_snap(config: &Config, region: RegionId, server: ServerId, from: Actor) -> bool
    ensures { result ≡ hears_snap config.now region server from }
{
    is_that(from, member_before(config.members(region), server))
}

/// Whether a hop goes to this actor.
#[inline]
fn goes_to(from: Actor, hop: Hop) -> bool
    ensures { result ≡ goes_to from hop }
{
    match (from, hop) {
        (Actor::Server(sender), Hop::At { server, place: _ }) => server == sender,
        _ => false,
    }
}

/// Whether a hop goes to this actor, at a place of this region.
#[inline]
fn goes_to_at(places: &Places, region: RegionId, from: Actor, hop: Hop) -> bool
    ensures { result ≡ goes_to_at places.now region from hop }
{
    match (from, hop) {
        (Actor::Server(sender), Hop::At { server, place }) => {
            server == sender && region_at(places, place) == region
        }
        _ => false,
    }
}

/// Whether an actor is this server.
fn is_that(from: Actor, member: Option<ServerId>) -> bool
    ensures { result ≡ is_that from member }
{
    match (from, member) {
        (Actor::Server(sender), Some(member)) => member == sender,
        _ => false,
    }
}
