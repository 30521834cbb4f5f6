ghost use Rattle.std.specs.Prelude.{◌≡◌, ◌≤◌, ◌++◌, [], IfOk, OnOk, length, map};
ghost use Rattle.std.specs.List.{All, AllByRecursion, flat_map};
ghost use Rattle.hx_types.specs.declared.limits.TheConstants.{MOST_ATTRIBUTES};
ghost use Rattle.hx_types.specs.Subspaces.{is_key_region};
ghost use Rattle.hx_law_folds.specs.Folding.{KeptsAscend, folded};
ghost use Rattle.hx_model.specs.ServerSteps.{installed_slots, move_posts, offered_all, ready_post};
ghost use Rattle.hx_model.specs.Slots.{Forget, KeyState, moved, moved_all};
ghost use Rattle.hx_slot.specs.States.{IsOrderly};
ghost use Rattle.hx_store.specs.Stores.{state_at};
ghost use Rattle.hx_law_folds.specs.Folding.{TextsAscend};
ghost use Rattle.hx_replica.specs.Installing.{CanCome, IsFresh, joined_slots, joining, of_key, own_offer, texts};
ghost use Rattle.hx_replica.specs.Outputs.{context_seen};
ghost use Rattle.hx_replica.specs.Ticking.{standing};

use crate::contexts::{SlotContext, place_at};
use crate::keys::keys_of;
use crate::resuming::carry_on;
use crate::ticking::post_ready;
use hx_slot::Slot;
use hx_store::{Store, settle_all};
use hx_types::{Exact, Memory, Posts, Same, Shared, Snapshot, Text, Update, Updates};
use std::alloc::Global;

/// The store of a replica that installs a snapshot of its region: the slots of the snapshot, each
/// of which then takes the pending updates of its key, in byte order of keys. The coordinator is
/// told last, where the replica is listed as not ready. That a joiner is sent both is this
/// project's choice.
pub fn installed(
    alloc: Global,
    context: &SlotContext,
    snapshot: &Snapshot,
    pending: &Updates,
    posts: &mut Posts,
) -> Result<Store, Memory>
    requires attributes { length context.now.space.now.attributes ≤ MOST_ATTRIBUTES }
    requires ascend { KeptsAscend snapshot.now }
    requires orderly { All IsOrderly snapshot.now }
    requires pending { All (CanCome context.now.region) pending.now }
    ensures region { IfOk result (λ store. store.region ≡ context.now.region) }
    ensures marks { IfOk result (λ store. store.keeps_marks ≡ is_key_region context.now.space.now context.now.region) }
    ensures states { IfOk result (λ store. store.states ≡ map (folded context.now.region) (installed_slots (context_seen context.now) snapshot.now pending.now).states) }
    ensures posts { OnOk result (posts.new ≡ (posts.old ++ (installed_slots (context_seen context.now) snapshot.now pending.now).posts) ++ ready_post (standing context.now.config.now context.now.server) context.now.region) }
{
    let keeps_marks = context.region.0 < context.space.key_parts;
    let Ok(mut store) = Store::new(alloc, context.space, context.region, keeps_marks) else {
        return Err(Memory);
    };
    install_all(alloc, context, snapshot, pending, &mut store, posts)?;
    Ok(store)
}

/// An empty store takes the slots of a snapshot and then the pending updates, and the coordinator
/// is told.
fn install_all(
    alloc: Global,
    context: &SlotContext,
    snapshot: &Snapshot,
    pending: &Updates,
    store: &mut Store,
    posts: &mut Posts,
) -> Result<(), Memory>
    requires region { store.old.region ≡ context.now.region }
    requires marks { store.old.keeps_marks ≡ is_key_region context.now.space.now context.now.region }
    requires empty { store.old.states ≡ [] }
    requires ascend { KeptsAscend snapshot.now }
    requires orderly { All IsOrderly snapshot.now }
    requires pending { All (CanCome context.now.region) pending.now }
    ensures region { store.new.region ≡ store.old.region }
    ensures marks { store.new.keeps_marks ≡ store.old.keeps_marks }
    ensures states { OnOk result (store.new.states ≡ map (folded context.now.region) (installed_slots (context_seen context.now) snapshot.now pending.now).states) }
    ensures posts { OnOk result (posts.new ≡ (posts.old ++ (installed_slots (context_seen context.now) snapshot.now pending.now).posts) ++ ready_post (standing context.now.config.now context.now.server) context.now.region) }
{
    store.install(alloc, snapshot)?;
    let keys = keys_of(alloc, pending)?;
    join_all(alloc, context, keys.as_slice(), pending, store, posts)?;
    post_ready(context, posts)
}

/// The slots of these keys take the pending updates of their keys, one after another.
fn join_all(
    alloc: Global,
    context: &SlotContext,
    keys: &[&Text],
    pending: &Updates,
    store: &mut Store,
    posts: &mut Posts,
) -> Result<(), Memory>
    requires region { store.old.region ≡ context.now.region }
    requires marks { store.old.keeps_marks ≡ is_key_region context.now.space.now context.now.region }
    requires fresh { AllByRecursion (IsFresh context.now.region) store.old.states }
    requires kinds { AllByRecursion (λ (t : KeyState). t.marks ≡ is_key_region context.now.space.now context.now.region) store.old.states }
    requires keys { TextsAscend (texts keys.now) }
    requires pending { All (CanCome context.now.region) pending.now }
    ensures region { store.new.region ≡ store.old.region }
    ensures marks { store.new.keeps_marks ≡ store.old.keeps_marks }
    ensures states { OnOk result (store.new.states ≡ map (folded context.now.region) (joined_slots (context_seen context.now) pending.now store.old.states (texts keys.now)).states) }
    ensures posts { OnOk result (posts.new ≡ posts.old ++ (joined_slots (context_seen context.now) pending.now store.old.states (texts keys.now)).posts) }
{
    for key in keys {
        let Ok(mut slot) = slot_of(alloc, context, store, key) else {
            return Err(Memory);
        };
        join(alloc, context, &mut slot, pending, posts)?;
        store.put_slot(alloc, slot)?;
    }
    Ok(())
}

/// A copy of the slot of a key, an empty one where the store has none. It has neither
/// acknowledgements nor early updates.
fn slot_of(alloc: Global, context: &SlotContext, store: &Store, key: &Text) -> Result<Slot, Memory>
    requires region { store.now.region ≡ context.now.region }
    requires marks { store.now.keeps_marks ≡ is_key_region context.now.space.now context.now.region }
    ensures region { IfOk result (λ slot. slot.region ≡ context.now.region) }
    ensures state { IfOk result (λ slot. slot.state ≡ moved Forget (state_at store.now key.now)) }
{
    match store.slot(key) {
        Some(slot) => slot.renewed(alloc),
        None => {
            let keeps_marks = context.region.0 < context.space.key_parts;
            Ok(Slot::new(alloc, context.region, key.copy(alloc)?, keeps_marks))
        }
    }
}

/// A slot takes the pending updates of its key: those that it accepts go to the next replica of
/// their chains or end here, and what can be committed is told of.
fn join(
    alloc: Global,
    context: &SlotContext,
    slot: &mut Slot,
    pending: &Updates,
    posts: &mut Posts,
) -> Result<(), Memory>
    requires region { slot.old.region ≡ context.now.region }
    requires fresh { IsFresh context.now.region slot.old.state }
    requires pending { All (CanCome context.now.region) pending.now }
    ensures region { slot.new.region ≡ slot.old.region }
    ensures state { OnOk result (slot.new.state ≡ folded context.now.region (moved_all (joining (context_seen context.now) pending.now slot.old.state) slot.old.state)) }
    ensures posts { OnOk result (posts.new ≡ posts.old ++ flat_map (move_posts (context_seen context.now)) (joining (context_seen context.now) pending.now slot.old.state)) }
{
    offer_all(alloc, context, slot, pending)?;
    let tail_versions = carry_on(alloc, context, slot, posts)?;
    settle_all(slot, tail_versions.as_slice());
    Ok(())
}

/// A slot is offered the updates of its key.
fn offer_all(
    alloc: Global,
    context: &SlotContext,
    slot: &mut Slot,
    updates: &Updates,
) -> Result<(), Memory>
    requires region { slot.old.region ≡ context.now.region }
    requires updates { All (CanCome context.now.region) updates.now }
    ensures region { slot.new.region ≡ slot.old.region }
    ensures state { OnOk result (slot.new.state ≡ moved_all (offered_all context.now.region slot.old.state (of_key slot.old.state.base.key updates.now)) slot.old.state) }
{
    for update in updates.as_slice() {
        offer(alloc, context, slot, update)?;
    }
    Ok(())
}

/// A slot is offered an update, if it is of its key.
fn offer(
    alloc: Global,
    context: &SlotContext,
    slot: &mut Slot,
    update: &Shared<Update>,
) -> Result<(), Memory>
    requires region { slot.old.region ≡ context.now.region }
    requires update { CanCome context.now.region update.now }
    ensures region { slot.new.region ≡ slot.old.region }
    ensures state { OnOk result (slot.new.state ≡ moved_all (own_offer context.now.region slot.old.state update.now) slot.old.state) }
{
    if !update.key.same(slot.key()) {
        return Ok(());
    }
    slot.reserve(alloc, 1)?;
    let _ = slot.offer(update.copy(alloc)?, place_at(context, update));
    Ok(())
}
