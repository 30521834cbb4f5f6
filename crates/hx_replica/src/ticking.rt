ghost use Rattle.std.specs.Prelude.{◌≡◌, ◌++◌, ◌∷◌, [], IfOk, OnOk, Some, true};
ghost use Rattle.std.specs.List.{All, flat_map};
ghost use Rattle.hx_types.specs.Spaces.{IsSpace};
ghost use Rattle.hx_model.specs.ServerSteps.{asking_last, passed_on, pending_posts, ready_post, replica_tick, snap_posts, snap_to};
ghost use Rattle.hx_model.specs.Slots.{pending_of};
ghost use Rattle.hx_replica.specs.Outputs.{context_seen};
ghost use Rattle.hx_replica.specs.Replicas.{AreOrdered, view_of};
ghost use Rattle.hx_replica.specs.Ticking.{kept_here, standing};
ghost use Rattle.hx_replica.specs.declared.replicas.Replica.{Replica as Held};

use crate::contexts::SlotContext;
use crate::members::joiner_for;
use crate::prepared::ask_newest;
use crate::replicas::Replica;
use crate::settling::post_pending;
use hx_region::RegionMap;
use hx_slot::Slot;
use hx_store::Store;
use hx_types::{Actor, Config, Memory, Message, Post, Posts, ServerId, Shared, Space};
use std::alloc::Global;

/// Posts what a server posts on a tick: what every replica sends again, and where that is anything,
/// the question for the newest configuration.
pub fn post_tick(
    alloc: Global,
    space: &Space,
    map: &RegionMap,
    config: &Config,
    server: ServerId,
    replicas: &[Replica],
    posts: &mut Posts,
) -> Result<(), Memory>
    requires regions { All (λ (r : Held). r.store.region ≡ r.region) replicas.now }
    requires ordered { AreOrdered replicas.now }
    ensures { OnOk result (posts.new ≡ posts.old ++ asking_last (standing config.now server) (flat_map (λ (r : Held). replica_tick space.now (standing config.now server) (view_of r)) replicas.now)) }
{
    let before = posts.len();
    tick_all(alloc, space, map, config, server, replicas, posts)?;
    if posts.len() == before {
        return Ok(());
    }
    ask_newest(server, config, posts)
}

/// Posts what every replica sends again on a tick.
fn tick_all(
    alloc: Global,
    space: &Space,
    map: &RegionMap,
    config: &Config,
    server: ServerId,
    replicas: &[Replica],
    posts: &mut Posts,
) -> Result<(), Memory>
    requires regions { All (λ (r : Held). r.store.region ≡ r.region) replicas.now }
    requires ordered { AreOrdered replicas.now }
    ensures { OnOk result (posts.new ≡ posts.old ++ flat_map (λ (r : Held). replica_tick space.now (standing config.now server) (view_of r)) replicas.now) }
{
    for replica in replicas {
        let context = SlotContext {
            space,
            map,
            config,
            server,
            region: replica.region,
        };
        tick_replica(alloc, &context, replica, posts)?;
    }
    Ok(())
}

/// A replica that is installed and whose region isn't lost sends a snapshot to the joiner that it
/// feeds, each pending update to the next replica of its chain, and that it has joined.
fn tick_replica(
    alloc: Global,
    context: &SlotContext,
    replica: &Replica,
    posts: &mut Posts,
) -> Result<(), Memory>
    requires region { replica.now.region ≡ context.now.region }
    requires store { replica.now.store.region ≡ context.now.region }
    requires ordered { replica.now.store.ordered ≡ true }
    ensures { OnOk result (posts.new ≡ posts.old ++ replica_tick context.now.space.now (standing context.now.config.now context.now.server) (view_of replica.now)) }
{
    if !replica.installed || context.config.is_lost(replica.region) {
        return Ok(());
    }
    snap(alloc, context, &replica.store, posts)?;
    send_pending(alloc, context, &replica.store, posts)?;
    post_ready(context, posts)
}

/// Posts a snapshot to the joiner that this server feeds, if there is one.
pub fn snap(
    alloc: Global,
    context: &SlotContext,
    store: &Store,
    posts: &mut Posts,
) -> Result<(), Memory>
    requires region { store.now.region ≡ context.now.region }
    requires ordered { store.now.ordered ≡ true }
    ensures { OnOk result (posts.new ≡ posts.old ++ snap_posts (standing context.now.config.now context.now.server) (kept_here context.now.region store.now.states)) }
{
    if let Some(joiner) = joiner_for(context.config, context.region, context.server) {
        posts.push(snap_post(alloc, context, store, joiner)?)?;
    }
    Ok(())
}

fn snap_post(
    alloc: Global,
    context: &SlotContext,
    store: &Store,
    joiner: ServerId,
) -> Result<Post, Memory>
    requires region { store.now.region ≡ context.now.region }
    requires ordered { store.now.ordered ≡ true }
    ensures { IfOk result (λ post. post ∷ [] ≡ snap_to (standing context.now.config.now context.now.server) (kept_here context.now.region store.now.states) (Some joiner)) }
{
    Ok(Post {
        from: Actor::Server(context.server),
        to: Actor::Server(joiner),
        message: Message::Snap {
            epoch: context.config.epoch,
            region: context.region,
            snapshot: Shared::new(alloc, store.snapshot(alloc)?)?,
            pending: Shared::new(alloc, store.pending(alloc)?)?,
        },
    })
}

/// Posts each pending update to the next replica of its chain: key by key, the lowest version
/// first.
fn send_pending(
    alloc: Global,
    context: &SlotContext,
    store: &Store,
    posts: &mut Posts,
) -> Result<(), Memory>
    requires region { store.now.region ≡ context.now.region }
    requires ordered { store.now.ordered ≡ true }
    ensures { OnOk result (posts.new ≡ posts.old ++ pending_posts (context_seen context.now) store.now.states) }
{
    for i in 0..store.len() {
        match store.nth(i) {
            Some(slot) => send_slot(alloc, context, slot, posts)?,
            // The store has a slot at each number below its length.
            None => unreachable!(),
        }
    }
    Ok(())
}

/// Posts the pending updates of a slot. Those whose chain ends here have nowhere to go.
fn send_slot(
    alloc: Global,
    context: &SlotContext,
    slot: &Slot,
    posts: &mut Posts,
) -> Result<(), Memory>
    requires { slot.now.region ≡ context.now.region }
    ensures { OnOk result (posts.new ≡ posts.old ++ flat_map (passed_on (context_seen context.now)) (pending_of slot.now.state)) }
{
    let mut tail_versions = Vec::new(alloc);
    post_pending(alloc, context, slot, posts, &mut tail_versions)
}

/// Tells the coordinator that this server has joined, where it is listed as joining.
pub fn post_ready(context: &SlotContext, posts: &mut Posts) -> Result<(), Memory>
    ensures { OnOk result (posts.new ≡ posts.old ++ ready_post (standing context.now.config.now context.now.server) context.now.region) }
{
    if context.config.lists_joining(context.region, context.server) {
        posts.push(Post {
            from: Actor::Server(context.server),
            to: Actor::Coordinator,
            message: Message::Ready {
                epoch: context.config.epoch,
                region: context.region,
            },
        })?;
    }
    Ok(())
}
