ghost use Rattle.std.specs.Prelude.{◌≡◌, ◌<◌, length, map};
ghost use Rattle.hx_types.specs.Words.{list_of, when_some};
ghost use Rattle.hx_model.specs.Types.{RegionId as Numbered};
ghost use Rattle.hx_model.specs.ServerSteps.{tail_acks, listed_regions, replica_or_new, with_replica};
ghost use Rattle.hx_model.specs.Slots.{Acknowledge, Forget, KeyState, moved, moved_all, pending_of};
ghost use Rattle.std.specs.Prelude.{slice_get, Some, true, []};
ghost use Rattle.std.specs.Option.{option_map};
ghost use Rattle.hx_store.specs.Stores.{KeepsRooms, acknowledging, settled_at};
ghost use Rattle.hx_replica.specs.Adopting.{IsPendingAt, changed_at, lean_adopted, lean_replica, marked_end};
ghost use Rattle.hx_replica.specs.Outputs.{tail_version, context_seen};
ghost use Rattle.hx_replica.specs.Replicas.{AreReplicas, HasKeptRooms, IsReplicaIn, KeepRegionRooms, new_replica, rooms_of, view_of, views_of};
ghost use Rattle.hx_replica.specs.Ticking.{standing};

use crate::adopting::is_active;
use crate::contexts::{SlotContext, end_version};
use crate::replicas::{Replica, place_of};
use hx_region::RegionMap;
use hx_slot::Slot;
use hx_store::Store;
use hx_types::{Config, ServerId, Space, Version};
use std::mem;

/// The replicas of a server that adopts a configuration: each that it has of a region in which the
/// configuration lists it takes its place among the new ones, and goes on. It takes no memory.
pub fn keep_all(
    space: &Space,
    regions: &RegionMap,
    config: &Config,
    server: ServerId,
    mut old: Vec<Replica>,
    next: &mut Vec<Replica>,
)
    requires old { AreReplicas space.now old.items }
    requires next { next.old.items ≡ map (new_replica space.now) (listed_regions config.now server) }
    ensures views { views_of next.new.items ≡ map (λ (g : Numbered). lean_replica space.now (standing config.now server) (replica_or_new (views_of old.items) g)) (listed_regions config.now server) }
    ensures are { AreReplicas space.now next.new.items }
    ensures rooms { KeepRegionRooms (views_of old.items) (rooms_of old.items) (views_of next.new.items) (rooms_of next.new.items) }
{
    'replicas: while let Some(replica) = old.pop() {
        let mut kept = replica;
        keep(space, regions, config, server, &mut kept, next);
    }
}

/// A replica changes places with the new one of its region, if there is one, and goes on.
fn keep(
    space: &Space,
    regions: &RegionMap,
    config: &Config,
    server: ServerId,
    replica: &mut Replica,
    next: &mut Vec<Replica>,
)
    requires is { IsReplicaIn space.now replica.old }
    requires next { AreReplicas space.now next.old.items }
    ensures views { views_of next.new.items ≡ with_replica (lean_replica space.now (standing config.now server) (view_of replica.old)) (views_of next.old.items) }
    ensures are { AreReplicas space.now next.new.items }
    ensures rooms { HasKeptRooms replica.old next.old.items next.new.items }
{
    if let Some(number) = place_of(next.as_slice(), replica.region) {
        let context = SlotContext {
            space,
            map: regions,
            config,
            server,
            region: replica.region,
        };
        adopt_replica(&context, replica);
        mem::swap(&mut next[number], replica);
    }
}

/// A replica goes on in a new configuration: where it is installed and its region isn't lost its
/// slots go on, else they forget.
fn adopt_replica(context: &SlotContext, replica: &mut Replica)
    requires region { replica.old.region ≡ context.now.region }
    requires is { IsReplicaIn context.now.space.now replica.old }
    ensures view { view_of replica.new ≡ lean_replica context.now.space.now (standing context.now.config.now context.now.server) (view_of replica.old) }
    ensures is { IsReplicaIn context.now.space.now replica.new }
    ensures rooms { KeepsRooms replica.old.store.rooms replica.new.store.rooms }
{
    let active = is_active(context.config, replica);
    adopt_slots(context, &mut replica.store, active);
}

fn adopt_slots(context: &SlotContext, store: &mut Store, active: bool)
    requires { store.old.region ≡ context.now.region }
    ensures region { store.new.region ≡ store.old.region }
    ensures marks { store.new.keeps_marks ≡ store.old.keeps_marks }
    ensures states { store.new.states ≡ map (lean_adopted (context_seen context.now) active) store.old.states }
    ensures rooms { KeepsRooms store.old.rooms store.new.rooms }
{
    store.sort_order();
    for i in 0..store.len() {
        adopt_slot(context, store, i, active);
    }
}

/// A slot forgets its acknowledgements and early updates. Where it goes on, its pending updates
/// whose chain ends here are acknowledged, and what can be committed is.
#[tactic(auto, using(crate::proofs::Roomy::kept_self, crate::proofs::Roomy::kept_twice))]
fn adopt_slot(context: &SlotContext, store: &mut Store, i: usize, active: bool)
    requires region { store.old.region ≡ context.now.region }
    requires number { i < length store.old.states }
    requires ordered { store.old.ordered ≡ true }
    ensures region { store.new.region ≡ store.old.region }
    ensures marks { store.new.keeps_marks ≡ store.old.keeps_marks }
    ensures states { store.new.states ≡ changed_at (lean_adopted (context_seen context.now) active) i store.old.states }
    ensures rooms { KeepsRooms store.old.rooms store.new.rooms }
    ensures ordered { store.new.ordered ≡ true }
{
    reset_acks(store, i);
    if active {
        mark_ends(context, store, i);
        settle(store, i);
    }
}

/// The slot with this number forgets its acknowledgements and early updates.
fn reset_acks(store: &mut Store, i: usize)
    requires number { i < length store.old.states }
    requires ordered { store.old.ordered ≡ true }
    ensures region { store.new.region ≡ store.old.region }
    ensures marks { store.new.keeps_marks ≡ store.old.keeps_marks }
    ensures states { store.new.states ≡ changed_at (moved Forget) i store.old.states }
    ensures rooms { KeepsRooms store.old.rooms store.new.rooms }
    ensures ordered { store.new.ordered ≡ true }
{
    let place = store.place_at(i);
    store.reset_acks(place);
}

/// The slot with this number commits what it can.
fn settle(store: &mut Store, i: usize)
    requires number { i < length store.old.states }
    requires ordered { store.old.ordered ≡ true }
    ensures region { store.new.region ≡ store.old.region }
    ensures marks { store.new.keeps_marks ≡ store.old.keeps_marks }
    ensures states { store.new.states ≡ changed_at (settled_at store.old.region) i store.old.states }
    ensures rooms { KeepsRooms store.old.rooms store.new.rooms }
    ensures ordered { store.new.ordered ≡ true }
{
    let place = store.place_at(i);
    store.settle(place);
}

/// Of the slot with this number each pending update whose chain ends here is acknowledged.
fn mark_ends(context: &SlotContext, store: &mut Store, i: usize)
    requires region { store.old.region ≡ context.now.region }
    requires number { i < length store.old.states }
    requires ordered { store.old.ordered ≡ true }
    ensures region { store.new.region ≡ store.old.region }
    ensures marks { store.new.keeps_marks ≡ store.old.keeps_marks }
    ensures states { store.new.states ≡ changed_at (λ (s : KeyState). moved_all (tail_acks (context_seen context.now) (pending_of s)) s) i store.old.states }
    ensures rooms { KeepsRooms store.old.rooms store.new.rooms }
    ensures ordered { store.new.ordered ≡ true }
{
    for k in 0..pending_count(store, i) {
        mark_end(context, store, i, k);
    }
}

/// How many updates of the slot with this number are pending.
fn pending_count(store: &Store, i: usize) -> u32
    requires { store.now.ordered ≡ true }
    ensures { result ≡ when_some (slice_get store.now.states i) 0 (λ (s : KeyState). length (pending_of s)) }
{
    match store.nth(i) {
        Some(slot) => slot.pending_count(),
        None => 0,
    }
}

/// Of the slot with this number the pending update with a number is acknowledged, where its chain
/// ends here.
#[tactic(auto, using(crate::proofs::Roomy::kept_self, crate::proofs::Roomy::kept_twice))]
fn mark_end(context: &SlotContext, store: &mut Store, i: usize, k: u32)
    requires region { store.old.region ≡ context.now.region }
    requires number { i < length store.old.states }
    requires ordered { store.old.ordered ≡ true }
    ensures region { store.new.region ≡ store.old.region }
    ensures marks { store.new.keeps_marks ≡ store.old.keeps_marks }
    ensures states { store.new.states ≡ changed_at (marked_end (context_seen context.now) k) i store.old.states }
    ensures rooms { KeepsRooms store.old.rooms store.new.rooms }
    ensures ordered { store.new.ordered ≡ true }
{
    if let Some(version) = end_at(context, store, i, k) {
        mark_acknowledged(store, i, version);
    }
}

/// The version of the pending update with number k of the slot with number i, where its chain ends
/// here.
fn end_at(context: &SlotContext, store: &Store, i: usize, k: u32) -> Option<Version>
    requires region { store.now.region ≡ context.now.region }
    requires ordered { store.now.ordered ≡ true }
    ensures { list_of result ≡ when_some (slice_get store.now.states i) [] (λ (s : KeyState). when_some (slice_get (pending_of s) k) [] (tail_version (context_seen context.now))) }
{
    end_of_slot(context, store.nth(i)?, k)
}

fn end_of_slot(context: &SlotContext, slot: &Slot, k: u32) -> Option<Version>
    requires { slot.now.region ≡ context.now.region }
    ensures { list_of result ≡ when_some (slice_get (pending_of slot.now.state) k) [] (tail_version (context_seen context.now)) }
{
    end_version(context, slot.pending(k)?)
}

/// Of the slot with this number a pending version is acknowledged.
fn mark_acknowledged(store: &mut Store, i: usize, version: Version)
    requires number { i < length store.old.states }
    requires pending { IsPendingAt i version store.old.states }
    requires ordered { store.old.ordered ≡ true }
    ensures region { store.new.region ≡ store.old.region }
    ensures marks { store.new.keeps_marks ≡ store.old.keeps_marks }
    ensures states { store.new.states ≡ changed_at (moved (Acknowledge version.0)) i store.old.states }
    ensures rooms { KeepsRooms store.old.rooms store.new.rooms }
    ensures ordered { store.new.ordered ≡ true }
{
    let place = store.place_at(i);
    store.mark_acknowledged(place, version);
}
