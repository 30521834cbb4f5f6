ghost use Rattle.std.specs.Prelude.{◌≡◌, ◌≤◌, ◌<◌, ◌++◌, ◌∷◌, [], IfOk, OnOk, length, true};
ghost use Rattle.std.specs.Borrow.{Bor};
ghost use Rattle.std.specs.List.{All, flat_map};
ghost use Rattle.hx_model.specs.Types.{Update as Updated};
ghost use Rattle.hx_model.specs.Neighbours.{place_number};
ghost use Rattle.hx_model.specs.ServerSteps.{passed_on};
ghost use Rattle.hx_model.specs.Slots.{follows, offered, pending_of, taken, top_of, turns};
ghost use Rattle.hx_replica.specs.Outputs.{AreEnds, IsComing, IsHere, IsNew, accepting_posts, tail_version, seen, context_seen};

use crate::contexts::{SlotContext, post_commit_at, post_update, post_update_at};
use crate::settling::{is_settled, line_of, post_commits};
use hx_slot::Slot;
use hx_types::{Memory, Posts, Shared, Update, Version};
use std::alloc::Global;

/// A slot is offered an update above its top, with this place in the region of the context: the
/// update and each early one whose turn then comes go to the next replica or end here, and what can
/// be committed is told of. The versions whose chain ends here go into the list, which is empty
/// before.
#[inline(always)]
pub fn accepted(
    alloc: Global,
    context: &SlotContext,
    slot: &Slot,
    update: &Shared<Update>,
    place: u32,
    posts: &mut Posts,
    tail_versions: &mut Vec<Version>,
) -> Result<(), Memory>
    requires coming { IsComing context.now.region slot.now.state update.now }
    requires place { place ≡ place_number context.now.region update.now.places }
    requires region { slot.now.region ≡ context.now.region }
    requires none { tail_versions.old.items ≡ [] }
    ensures posts { OnOk result (posts.new ≡ posts.old ++ accepting_posts (context_seen context.now) slot.now.state update.now) }
    ensures ends { OnOk result (AreEnds (context_seen context.now) slot.now.state update.now tail_versions.new.items) }
{
    if slot.early_count() == 0 && slot.pending_count() == 0 {
        return accepted_alone(alloc, context, slot, update, place, posts, tail_versions);
    }
    let taken = taken_by(alloc, context, slot, update, place)?;
    let line = line_of(alloc, slot, taken.as_slice())?;
    take_all(
        alloc,
        context,
        slot,
        update,
        taken.as_slice(),
        line.as_slice(),
        posts,
        tail_versions,
    )
}

/// What a slot that holds no other update accepts: no list of updates is made for it.
#[inline(always)]
fn accepted_alone(
    alloc: Global,
    context: &SlotContext,
    slot: &Slot,
    update: &Shared<Update>,
    place: u32,
    posts: &mut Posts,
    tail_versions: &mut Vec<Version>,
) -> Result<(), Memory>
    requires coming { IsComing context.now.region slot.now.state update.now }
    requires place { place ≡ place_number context.now.region update.now.places }
    requires region { slot.now.region ≡ context.now.region }
    requires early { slot.now.state.early ≡ [] }
    requires pending { pending_of slot.now.state ≡ [] }
    requires none { tail_versions.old.items ≡ [] }
    ensures posts { OnOk result (posts.new ≡ posts.old ++ accepting_posts (context_seen context.now) slot.now.state update.now) }
    ensures ends { OnOk result (AreEnds (context_seen context.now) slot.now.state update.now tail_versions.new.items) }
{
    if !is_in_turn(context, slot, update, place) {
        return Ok(());
    }
    post_update_at(alloc, context, update, place, posts, tail_versions)?;
    if is_settled(slot, tail_versions.as_slice(), update.version) {
        post_commit_at(alloc, context, update, place, posts)?;
    }
    Ok(())
}

/// What is posted where a slot takes these updates, behind which stands its line; the versions
/// whose chain ends here go into the list.
fn take_all(
    alloc: Global,
    context: &SlotContext,
    slot: &Slot,
    update: &Shared<Update>,
    updates: &[&Shared<Update>],
    line: &[&Shared<Update>],
    posts: &mut Posts,
    tail_versions: &mut Vec<Version>,
) -> Result<(), Memory>
    requires coming { IsComing context.now.region slot.now.state update.now }
    requires region { slot.now.region ≡ context.now.region }
    requires taken { seen updates.now ≡ taken (offered context.now.region slot.now.state update.now) }
    requires new { All (IsNew context.now.region slot.now.state.floor) updates.now }
    requires line { seen line.now ≡ pending_of slot.now.state ++ seen updates.now }
    requires here { All (IsHere context.now.region) line.now }
    requires none { tail_versions.old.items ≡ [] }
    ensures posts { OnOk result (posts.new ≡ posts.old ++ accepting_posts (context_seen context.now) slot.now.state update.now) }
    ensures ends { OnOk result (AreEnds (context_seen context.now) slot.now.state update.now tail_versions.new.items) }
{
    // The contract alone speaks of the update that is offered.
    let _ = update;
    post_updates(alloc, context, updates, posts, tail_versions)?;
    post_commits(alloc, context, slot, line, tail_versions.as_slice(), posts)
}

/// The updates that the slot takes with this one, in order; none where its turn hasn't come.
fn taken_by<'a>(
    alloc: Global,
    context: &SlotContext,
    slot: &'a Slot,
    update: &'a Shared<Update>,
    place: u32,
) -> Result<Vec<&'a Shared<Update>>, Memory>
    requires place { place ≡ place_number context.now.region update.now.places }
    requires coming { IsComing context.now.region slot.now.state update.now }
    requires region { slot.now.region ≡ context.now.region }
    ensures taken { IfOk result (λ us. seen us.items ≡ taken (offered context.now.region slot.now.state update.now)) }
    ensures new { IfOk result (λ us. All (IsNew context.now.region slot.now.state.floor) us.items) }
{
    if is_in_turn(context, slot, update, place) {
        taken_from(alloc, slot, update)
    } else {
        Ok(Vec::new(alloc))
    }
}

/// Whether the update's turn has come: the version after which it comes is the slot's top.
#[inline]
fn is_in_turn(context: &SlotContext, slot: &Slot, update: &Update, place: u32) -> bool
    requires place { place ≡ place_number context.now.region update.now.places }
    ensures { result ≡ follows context.now.region (top_of slot.now.state) update.now }
{
    // The contract alone speaks of where the slot stands.
    let _ = context;
    match update.places.get(place as usize) {
        Some(place) => place.after.0 == slot.top().0,
        None => false,
    }
}

/// An update, and each early one whose turn comes after it.
fn taken_from<'a>(
    alloc: Global,
    slot: &'a Slot,
    update: &'a Shared<Update>,
) -> Result<Vec<&'a Shared<Update>>, Memory>
    requires { IsComing slot.now.region slot.now.state update.now }
    ensures taken { IfOk result (λ us. seen us.items ≡ update.now ∷ taken (turns slot.now.region (length slot.now.state.early) update.now.version.0 slot.now.state.early)) }
    ensures new { IfOk result (λ us. All (IsNew slot.now.region slot.now.state.floor) us.items) }
{
    let mut taken = Vec::new(alloc);
    taken.push(update)?;
    let mut top = update.version;
    for _turn in 0..slot.early_count() {
        match slot.next_early(top) {
            Some(next) => {
                taken.push(next)?;
                top = next.version;
            }
            None => return Ok(taken),
        }
    }
    Ok(taken)
}

/// Each update goes to the next replica of its chain, or its chain ends here.
pub fn post_updates(
    alloc: Global,
    context: &SlotContext,
    updates: &[&Shared<Update>],
    posts: &mut Posts,
    tail_versions: &mut Vec<Version>,
) -> Result<(), Memory>
    requires { All (IsHere context.now.region) updates.now }
    ensures posts { OnOk result (posts.new ≡ posts.old ++ flat_map (λ (b : Bor Updated). passed_on (context_seen context.now) b.now) updates.now) }
    ensures tail_versions { OnOk result (tail_versions.new.items ≡ tail_versions.old.items ++ flat_map (λ (b : Bor Updated). tail_version (context_seen context.now) b.now) updates.now) }
{
    for update in updates {
        post_update(alloc, context, update, posts, tail_versions)?;
    }
    Ok(())
}
