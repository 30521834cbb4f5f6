ghost use Rattle.std.specs.Prelude.{◌≡◌, ◌<◌, ◌≤◌, IfOk, OnOk, Some, length, map, slice_get, slice_set, true};
ghost use Rattle.std.specs.Option.{option_map};
ghost use Rattle.hx_types.specs.declared.limits.TheConstants.{MOST_ATTRIBUTES};
ghost use Rattle.hx_types.specs.Spaces.{IsSpace};
ghost use Rattle.hx_types.specs.Subspaces.{region_count};
ghost use Rattle.hx_model.specs.ServerSteps.{listed_regions, replica_of};
ghost use Rattle.hx_store.specs.Stores.{UsesRoom, after_step, key_at, state_at};
ghost use Rattle.hx_replica.specs.Outputs.{ChangeFits, HasRoomFor, room_of, stepped};
ghost use Rattle.hx_replica.specs.Replicas.{AscendByRegion, first_replica, in_order, new_replica, views_of};

use crate::outputs::SlotChange;
use hx_store::Store;
use hx_types::{Config, Memory, RegionId, ServerId, Space};
use std::alloc::Global;

/// A server's part of a region: whether it has all that was there before it joined, and its slots.
pub struct Replica {
    pub region: RegionId,
    pub installed: bool,
    pub store: Store,
}

impl Drop for Replica {
    fn drop(self) {
        let Replica {
            region: _,
            installed: _,
            store: _,
        } = self;
    }
}

/// A replica, installed and empty, of each region in which the configuration lists the server.
pub fn first_replicas(
    alloc: Global,
    space: &Space,
    config: &Config,
    regions: u32,
    server: ServerId,
) -> Result<Vec<Replica>, Memory>
    requires regions { regions ≡ length config.now.regions }
    requires attributes { length space.now.attributes ≤ MOST_ATTRIBUTES }
    ensures { IfOk result (λ replicas. replicas.items ≡ map (first_replica space.now) (listed_regions config.now server)) }
{
    let mut replicas = Vec::new(alloc);
    for number in 0..regions {
        let region = RegionId(number);
        if config.lists(region, server) {
            let store = Store::new(alloc, space, region, number < space.key_parts)?;
            replicas.push(Replica {
                region,
                installed: true,
                store,
            })?;
        }
    }
    Ok(replicas)
}

/// A new replica, empty and not installed, of each region in which the configuration lists the
/// server.
pub fn new_replicas(
    alloc: Global,
    space: &Space,
    config: &Config,
    regions: u32,
    server: ServerId,
) -> Result<Vec<Replica>, Memory>
    requires regions { regions ≡ length config.now.regions }
    requires attributes { length space.now.attributes ≤ MOST_ATTRIBUTES }
    ensures { IfOk result (λ replicas. replicas.items ≡ map (new_replica space.now) (listed_regions config.now server)) }
{
    let mut replicas = Vec::new(alloc);
    for number in 0..regions {
        let region = RegionId(number);
        if config.lists(region, server) {
            let store = Store::new(alloc, space, region, number < space.key_parts)?;
            replicas.push(Replica {
                region,
                installed: false,
                store,
            })?;
        }
    }
    Ok(replicas)
}

/// An installed replica of a region, with this store.
pub fn joined_replica(alloc: Global, region: RegionId, store: Store) -> Result<Box<Replica>, Memory>
    ensures { IfOk result (λ boxed. boxed.value ≡ record { region = region; installed = true; store = store }) }
{
    let joined = Replica {
        region,
        installed: true,
        store,
    };
    Ok(Box::new(alloc, joined)?)
}

/// The place of a region's replica, found by halving.
#[inline]
pub fn place_of(replicas: &[Replica], region: RegionId) -> Option<usize>
    requires { AscendByRegion replicas.now }
    ensures { option_map (slice_get (views_of replicas.now)) result ≡ option_map Some (replica_of region (views_of replicas.now)) }
{
    match replicas.binary_search_by_key(&region.0, |replica| replica.region.0) {
        Ok(place) => Some(place),
        Err(_) => None,
    }
}

/// The stores put their slots in byte order of keys, where new ones have come since. It takes no
/// memory.
pub fn sort_orders(replicas: &mut Vec<Replica>)
    ensures { replicas.new.items ≡ map in_order replicas.old.items }
{
    for place in 0..replicas.len() {
        replicas[place].store.sort_order();
    }
}

/// A replica takes the place of another. It is moved in a function of its own, so that the steps of
/// slots, which are nearly all, have no room for a whole replica.
pub fn put_replica(place: &mut Replica, replica: Box<Replica>)
    ensures { place.new ≡ replica.value }
{
    *place = Box::into_inner(replica);
}

/// The slot at a place makes its part of a step. It takes no memory.
#[tactic(auto, using(crate::proofs::Roomy::kept_uses, crate::proofs::Roomy::same_uses))]
pub fn change_slot(store: &mut Store, place: usize, change: SlotChange)
    requires room { HasRoomFor (key_at store.old place) (room_of change) place store.old.rooms }
    requires fits { ChangeFits store.old.region (state_at store.old (key_at store.old place)) (key_at store.old place) change }
    ensures region { store.new.region ≡ store.old.region }
    ensures marks { store.new.keeps_marks ≡ store.old.keeps_marks }
    ensures states { store.new.states ≡ after_step store.old (key_at store.old place) (stepped change) }
    ensures rooms { UsesRoom place store.old.rooms store.new.rooms }
{
    match change {
        SlotChange::Open => store.ensure_slot(place),
        SlotChange::Accept {
            update,
            place: number,
            tail_versions,
        } => store.accept(place, update, number, tail_versions.as_slice()),
        SlotChange::Acknowledge { version } => store.acknowledge(place, version),
    }
}
