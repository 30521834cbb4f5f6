ghost use Rattle.std.specs.Prelude.{◌≡◌, ◌++◌, OnOk, length, true};
ghost use Rattle.std.specs.List.{flat_map};
ghost use Rattle.hx_types.specs.Subspaces.{region_count};
ghost use Rattle.hx_model.specs.Types.{RegionId as Numbered};
ghost use Rattle.hx_model.specs.ServerSteps.{adopted_posts, is_active, listed_regions, replica_or_new, resumed_posts};
ghost use Rattle.hx_replica.specs.Outputs.{context_seen};
ghost use Rattle.hx_replica.specs.Replicas.{AreOrdered, AreReplicas, IsReplicaIn, view_of, views_of};
ghost use Rattle.hx_replica.specs.Ticking.{standing};

use crate::contexts::SlotContext;
use crate::replicas::{Replica, place_of};
use crate::resuming::post_resumed;
use crate::ticking::{post_ready, snap};
use hx_region::RegionMap;
use hx_store::Store;
use hx_types::{Config, Memory, Posts, RegionId, ServerId, Space};
use std::alloc::Global;

/// Posts what a server posts that adopts a configuration: all of its replicas of the regions in
/// which the configuration lists it, in ascending order of regions.
pub fn post_adoption(
    alloc: Global,
    space: &Space,
    map: &RegionMap,
    config: &Config,
    server: ServerId,
    replicas: &[Replica],
    posts: &mut Posts,
) -> Result<(), Memory>
    requires regions { map.now ≡ space.now }
    requires count { length config.now.regions ≡ region_count space.now }
    requires replicas { AreReplicas space.now replicas.now }
    requires ordered { AreOrdered replicas.now }
    ensures { OnOk result (posts.new ≡ posts.old ++ flat_map (λ (g : Numbered). adopted_posts space.now (standing config.now server) (replica_or_new (views_of replicas.now) g)) (listed_regions config.now server)) }
{
    for number in 0..map.regions() {
        let region = RegionId(number);
        if config.lists(region, server) {
            let context = SlotContext {
                space,
                map,
                config,
                server,
                region,
            };
            post_region(alloc, &context, replicas, posts)?;
        }
    }
    Ok(())
}

/// Posts what the server's replica of a region posts. A new one posts nothing.
fn post_region(
    alloc: Global,
    context: &SlotContext,
    replicas: &[Replica],
    posts: &mut Posts,
) -> Result<(), Memory>
    requires replicas { AreReplicas context.now.space.now replicas.now }
    requires ordered { AreOrdered replicas.now }
    ensures { OnOk result (posts.new ≡ posts.old ++ adopted_posts context.now.space.now (standing context.now.config.now context.now.server) (replica_or_new (views_of replicas.now) context.now.region)) }
{
    match place_of(replicas, context.region) {
        Some(place) => post_replica(alloc, context, &replicas[place], posts),
        None => Ok(()),
    }
}

/// A replica that is installed and whose region isn't lost sends a snapshot to the joiner that it
/// feeds, its slots go on, and it says that it has joined.
fn post_replica(
    alloc: Global,
    context: &SlotContext,
    replica: &Replica,
    posts: &mut Posts,
) -> Result<(), Memory>
    requires region { replica.now.region ≡ context.now.region }
    requires is { IsReplicaIn context.now.space.now replica.now }
    requires ordered { replica.now.store.ordered ≡ true }
    ensures { OnOk result (posts.new ≡ posts.old ++ adopted_posts context.now.space.now (standing context.now.config.now context.now.server) (view_of replica.now)) }
{
    if !is_active(context.config, replica) {
        return Ok(());
    }
    snap(alloc, context, &replica.store, posts)?;
    post_slots(alloc, context, &replica.store, posts)?;
    post_ready(context, posts)
}

/// Whether a replica is installed and its region isn't lost.
pub fn is_active(config: &Config, replica: &Replica) -> bool
    ensures { result ≡ is_active config.now (view_of replica.now) }
{
    replica.installed && !config.is_lost(replica.region)
}

/// Posts what the slots of a replica post that goes on.
fn post_slots(
    alloc: Global,
    context: &SlotContext,
    store: &Store,
    posts: &mut Posts,
) -> Result<(), Memory>
    requires region { store.now.region ≡ context.now.region }
    requires ordered { store.now.ordered ≡ true }
    ensures { OnOk result (posts.new ≡ posts.old ++ flat_map (resumed_posts (context_seen context.now)) store.now.states) }
{
    for i in 0..store.len() {
        match store.nth(i) {
            Some(slot) => post_resumed(alloc, context, slot, posts)?,
            // The store has a slot at each number below its length.
            None => unreachable!(),
        }
    }
    Ok(())
}
