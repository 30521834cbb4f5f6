ghost use Rattle.std.specs.Prelude.{◌≡◌, ◌≤◌, ◌<◌, ◌++◌, ◌∷◌, [], OnOk, IfOk, length, true};
ghost use Rattle.std.specs.List.{flat_map};
ghost use Rattle.hx_model.specs.Types.{At};
ghost use Rattle.hx_types.specs.Words.{list_of};
ghost use Rattle.hx_types.specs.declared.limits.TheConstants.{MOST_PLACES};
ghost use Rattle.hx_model.specs.Neighbours.{place_number};
ghost use Rattle.hx_model.specs.ServerSteps.{ack_to, doubt_in, next_at, passed_on, prev_at, reply, update_to};
ghost use Rattle.hx_slot.specs.States.{IsPlacedIn};
ghost use Rattle.hx_replica.specs.Outputs.{tail_version, context_seen, told_of};

use hx_chain::{next, place_number, prev, region_at};
use hx_region::RegionMap;
use hx_types::{
    Actor, Answer, Caller, Config, Exact, Hop, Memory, Message, Post, Posts, RegionId, ServerId,
    Shared, Space, Update, Version,
};
use std::alloc::Global;

/// Where a slot stands: at a server's replica of a region, in a configuration.
#[derive(Drop)]
pub struct SlotContext<'a> {
    pub space: &'a Space,
    pub map: &'a RegionMap,
    pub config: &'a Config,
    pub server: ServerId,
    pub region: RegionId,
}

/// The number of an update's place in the region of the context.
#[inline]
pub fn place_at(context: &SlotContext, update: &Update) -> u32
    requires placed { IsPlacedIn context.now.region update.now }
    requires few { length update.now.places ≤ MOST_PLACES }
    ensures number { result ≡ place_number context.now.region update.now.places }
    ensures within { result < length update.now.places }
{
    match place_number(update, context.region) {
        Some(place) => place,
        // The update has a place in the region.
        None => unreachable!(),
    }
}

/// The replica after the context's in the chain of an update with this place.
#[inline(always)]
fn next_of(context: &SlotContext, update: &Update, place: u32) -> Hop
    requires placed { IsPlacedIn context.now.region update.now }
    requires few { length update.now.places ≤ MOST_PLACES }
    requires place { place ≡ place_number context.now.region update.now.places }
    ensures { result ≡ next_at (context_seen context.now) update.now }
{
    next(context.config, update, place, context.server)
}

/// The version of an update, where its chain ends at the context.
pub fn end_version(context: &SlotContext, update: &Update) -> Option<Version>
    requires placed { IsPlacedIn context.now.region update.now }
    requires few { length update.now.places ≤ MOST_PLACES }
    ensures { list_of result ≡ tail_version (context_seen context.now) update.now }
{
    match next_of(context, update, place_at(context, update)) {
        Hop::End => Some(update.version),
        Hop::At { .. } | Hop::Blocked(_) => None,
    }
}

/// The replica before the context's in the chain of an update with this place.
#[inline(always)]
fn prev_of(context: &SlotContext, update: &Update, place: u32) -> Hop
    requires place { place ≡ place_number context.now.region update.now.places }
    ensures { result ≡ prev_at (context_seen context.now) update.now }
{
    prev(context.config, update, place, context.server)
}

/// Posts an update to the next replica of its chain; where the chain ends here, its version is one
/// more of those that end.
pub fn post_update(
    alloc: Global,
    context: &SlotContext,
    update: &Shared<Update>,
    posts: &mut Posts,
    tail_versions: &mut Vec<Version>,
) -> Result<(), Memory>
    requires placed { IsPlacedIn context.now.region update.now }
    requires few { length update.now.places ≤ MOST_PLACES }
    ensures posts { OnOk result (posts.new ≡ posts.old ++ passed_on (context_seen context.now) update.now) }
    ensures tail_versions { OnOk result (tail_versions.new.items ≡ tail_versions.old.items ++ tail_version (context_seen context.now) update.now) }
{
    let place = place_at(context, update);
    post_update_at(alloc, context, update, place, posts, tail_versions)
}

/// Posts an update on to the next replica of its chain, by its place in the region of the context.
pub fn post_update_at(
    alloc: Global,
    context: &SlotContext,
    update: &Shared<Update>,
    place: u32,
    posts: &mut Posts,
    tail_versions: &mut Vec<Version>,
) -> Result<(), Memory>
    requires placed { IsPlacedIn context.now.region update.now }
    requires few { length update.now.places ≤ MOST_PLACES }
    requires place { place ≡ place_number context.now.region update.now.places }
    ensures posts { OnOk result (posts.new ≡ posts.old ++ passed_on (context_seen context.now) update.now) }
    ensures tail_versions { OnOk result (tail_versions.new.items ≡ tail_versions.old.items ++ tail_version (context_seen context.now) update.now) }
{
    match next_of(context, update, place) {
        Hop::At { server, place } => {
            posts.push(update_post(alloc, context, update, server, place)?)?;
            Ok(())
        }
        Hop::End => {
            tail_versions.push(update.version)?;
            Ok(())
        }
        Hop::Blocked(_) => Ok(()),
    }
}

fn update_post(
    alloc: Global,
    context: &SlotContext,
    update: &Shared<Update>,
    server: ServerId,
    place: u32,
) -> Result<Post, Memory>
    ensures { IfOk result (λ post. post ∷ [] ≡ update_to (context_seen context.now) update.now (At server place)) }
{
    Ok(Post {
        from: Actor::Server(context.server),
        to: Actor::Server(server),
        message: Message::Update {
            epoch: context.config.epoch,
            region: region_at(&update.places, place),
            update: update.copy(alloc)?,
        },
    })
}

fn ack_post(
    alloc: Global,
    context: &SlotContext,
    update: &Update,
    server: ServerId,
    place: u32,
) -> Result<Post, Memory>
    ensures { IfOk result (λ post. post ∷ [] ≡ ack_to (context_seen context.now) update.now (At server place)) }
{
    Ok(Post {
        from: Actor::Server(context.server),
        to: Actor::Server(server),
        message: Message::Ack {
            epoch: context.config.epoch,
            region: region_at(&update.places, place),
            by: context.region,
            key: update.key.copy(alloc)?,
            version: update.version,
        },
    })
}

/// Acknowledges an update with this place in the region of the context to the previous replica of
/// its chain, if there is one.
pub fn post_ack(
    alloc: Global,
    context: &SlotContext,
    update: &Update,
    place: u32,
    posts: &mut Posts,
) -> Result<(), Memory>
    requires { place ≡ place_number context.now.region update.now.places }
    ensures { OnOk result (posts.new ≡ posts.old ++ ack_to (context_seen context.now) update.now (prev_at (context_seen context.now) update.now)) }
{
    match prev_of(context, update, place) {
        Hop::At { server, place } => {
            posts.push(ack_post(alloc, context, update, server, place)?)?;
            Ok(())
        }
        Hop::End | Hop::Blocked(_) => Ok(()),
    }
}

/// Tells of an update that is committed: the previous replica of its chain, or where there is none
/// its caller.
pub fn post_commit(
    alloc: Global,
    context: &SlotContext,
    update: &Update,
    posts: &mut Posts,
) -> Result<(), Memory>
    requires placed { IsPlacedIn context.now.region update.now }
    requires few { length update.now.places ≤ MOST_PLACES }
    ensures { OnOk result (posts.new ≡ posts.old ++ told_of (context_seen context.now) update.now) }
{
    let place = place_at(context, update);
    post_commit_at(alloc, context, update, place, posts)
}

/// Tells of an update that is committed, by its place in the region of the context.
pub fn post_commit_at(
    alloc: Global,
    context: &SlotContext,
    update: &Update,
    place: u32,
    posts: &mut Posts,
) -> Result<(), Memory>
    requires place { place ≡ place_number context.now.region update.now.places }
    ensures { OnOk result (posts.new ≡ posts.old ++ told_of (context_seen context.now) update.now) }
{
    match prev_of(context, update, place) {
        Hop::At { server, place } => {
            posts.push(ack_post(alloc, context, update, server, place)?)?;
            Ok(())
        }
        Hop::End => {
            let answer = update.answer.copy(alloc)?;
            posts.push(reply(context, update.caller, update.version, answer))?;
            Ok(())
        }
        Hop::Blocked(_) => Ok(()),
    }
}

/// The reply to a call.
pub fn reply(context: &SlotContext, caller: Caller, version: Version, answer: Answer) -> Post
    ensures { result ≡ reply (context_seen context.now) caller version answer }
{
    Post {
        from: Actor::Server(context.server),
        to: Actor::Session(caller.session),
        message: Message::Reply {
            number: caller.number,
            version,
            answer,
        },
    }
}

/// The reply that a write is in doubt, since a region is lost.
pub fn doubt(context: &SlotContext, caller: Caller, version: Version, region: RegionId) -> Post
    ensures { result ≡ doubt_in (context_seen context.now) caller version region }
{
    let epoch = context.config.epoch;
    reply(context, caller, version, Answer::Doubt { region, epoch })
}
