ghost use Rattle.std.specs.Prelude.{◌≡◌, ◌≤◌, ◌<◌, ◌++◌, ◌∷◌, [], IfOk, IfSome, OnOk, Some, true, length};
ghost use Rattle.std.specs.List.{All};
ghost use Rattle.std.specs.Option.{option_copied};
ghost use Rattle.hx_types.specs.Spaces.{IsSpace};
ghost use Rattle.hx_types.specs.Words.{provided};
ghost use Rattle.hx_model.specs.Types.{Place};
ghost use Rattle.hx_types.specs.declared.outcomes.Decision.TheVariants as a_decision;
ghost use Rattle.hx_types.specs.declared.limits.TheConstants.{MOST_PLACES};
ghost use Rattle.hx_model.specs.Leading.{decide, stuck_of};
ghost use Rattle.hx_model.specs.Regions.{key_region};
ghost use Rattle.hx_model.specs.Neighbours.{place_number};
ghost use Rattle.hx_model.specs.ServerSteps.{ack_step, call_step, decided, get_step, known_to, pending_with, update_step, waiting_doubt, write_step};
ghost use Rattle.hx_model.specs.Slots.{top_of};
ghost use Rattle.hx_slot.specs.States.{HasFewPlaces, IsPlacedIn};
ghost use Rattle.hx_replica.specs.declared.outputs.SlotChange.TheVariants.{Open};
ghost use Rattle.hx_replica.specs.Outputs.{IsChangeOf, IsComing, IsLeading, accept_step, context_seen, hears_version};

use crate::accepting::accepted;
use crate::contexts::{SlotContext, doubt, place_at, post_ack, post_commit_at, reply};
use crate::outputs::{SlotChange, slot_replies};
use crate::settling::post_lowest_commits;
use hx_chain::{decide, hears_ack, stuck};
use hx_slot::Slot;
use hx_types::{
    Actor, Answer, Caller, Decision, Exact, Memory, Note, Notes, Op, Posts, RegionId, Shared,
    Update, Version,
};
use std::alloc::Global;

/// A call is a get, or a write on which the leader decides.
pub fn call(
    alloc: Global,
    context: &SlotContext,
    slot: &Slot,
    caller: Caller,
    op: &Op,
    posts: &mut Posts,
    notes: &mut Notes,
) -> Result<SlotChange, Memory>
    requires map { context.now.map.now ≡ context.now.space.now }
    requires space { IsSpace context.now.space.now }
    requires region { slot.now.region ≡ context.now.region }
    requires leading { IsLeading context.now.space.now context.now.region slot.now.state }
    ensures posts { OnOk result (posts.new ≡ posts.old ++ (call_step (context_seen context.now) slot.now.state caller op.now).posts) }
    ensures notes { OnOk result (notes.new ≡ notes.old ++ (call_step (context_seen context.now) slot.now.state caller op.now).notes) }
    ensures change { IfOk result (IsChangeOf context.now.region slot.now.state slot.now.state.base.key (call_step (context_seen context.now) slot.now.state caller op.now)) }
{
    if op.is_write() {
        write(alloc, context, slot, caller, op, posts, notes)
    } else {
        read(alloc, context, slot, caller, posts)
    }
}

/// A get is answered by the floor and the committed object.
fn read(
    alloc: Global,
    context: &SlotContext,
    slot: &Slot,
    caller: Caller,
    posts: &mut Posts,
) -> Result<SlotChange, Memory>
    requires { slot.now.region ≡ context.now.region }
    ensures posts { OnOk result (posts.new ≡ posts.old ++ (get_step (context_seen context.now) slot.now.state caller).posts) }
    ensures change { IfOk result (IsChangeOf context.now.region slot.now.state slot.now.state.base.key (get_step (context_seen context.now) slot.now.state caller)) }
{
    let answer = match slot.object() {
        Some((_, object)) => Answer::Found(object.copy(alloc)?),
        None => Answer::NotFound,
    };
    slot_replies(reply(context, caller, slot.floor(), answer), posts)
}

/// A write, by what the leader decides on it.
fn write(
    alloc: Global,
    context: &SlotContext,
    slot: &Slot,
    caller: Caller,
    op: &Op,
    posts: &mut Posts,
    notes: &mut Notes,
) -> Result<SlotChange, Memory>
    requires map { context.now.map.now ≡ context.now.space.now }
    requires space { IsSpace context.now.space.now }
    requires region { slot.now.region ≡ context.now.region }
    requires leading { IsLeading context.now.space.now context.now.region slot.now.state }
    ensures posts { OnOk result (posts.new ≡ posts.old ++ (write_step (context_seen context.now) slot.now.state caller op.now).posts) }
    ensures notes { OnOk result (notes.new ≡ notes.old ++ (write_step (context_seen context.now) slot.now.state caller op.now).notes) }
    ensures change { IfOk result (IsChangeOf context.now.region slot.now.state slot.now.state.base.key (write_step (context_seen context.now) slot.now.state caller op.now)) }
{
    let top = slot.top();
    prove!(top.0 < u64::MAX);
    match decide(
        alloc,
        context.space,
        context.map,
        context.config,
        slot,
        caller,
        op,
    )? {
        Decision::Old => Ok(SlotChange::Open),
        Decision::Again(version, answer) => {
            slot_replies(reply(context, caller, version, answer), posts)
        }
        Decision::Wait(version) => wait(context, slot, caller, version, posts),
        Decision::Stuck(region) => slot_replies(doubt(context, caller, Version(0), region), posts),
        Decision::Assign(update) => assign(alloc, context, slot, update, posts, notes),
    }
}

/// A write that is assigned and not committed yet: in doubt where a lost region stands in its way,
/// else nothing is said.
fn wait(
    context: &SlotContext,
    slot: &Slot,
    caller: Caller,
    version: Version,
    posts: &mut Posts,
) -> Result<SlotChange, Memory>
    requires { slot.now.region ≡ context.now.region }
    ensures posts { OnOk result (posts.new ≡ posts.old ++ waiting_doubt (context_seen context.now) caller version (stuck_of context.now.config.now slot.now.state)) }
    ensures change { IfOk result (λ change. change ≡ Open) }
{
    match stuck(context.config, slot) {
        Some((first, region)) if first.0 <= version.0 => {
            slot_replies(doubt(context, caller, version, region), posts)
        }
        _ => Ok(SlotChange::Open),
    }
}

/// The update that a write is given is noted, and accepted as the next one.
fn assign(
    alloc: Global,
    context: &SlotContext,
    slot: &Slot,
    update: Shared<Update>,
    posts: &mut Posts,
    notes: &mut Notes,
) -> Result<SlotChange, Memory>
    requires coming { IsComing context.now.region slot.now.state update }
    requires region { slot.now.region ≡ context.now.region }
    ensures posts { OnOk result (posts.new ≡ posts.old ++ (decided (context_seen context.now) slot.now.state update.caller (a_decision.Assign update)).posts) }
    ensures notes { OnOk result (notes.new ≡ notes.old ++ (decided (context_seen context.now) slot.now.state update.caller (a_decision.Assign update)).notes) }
    ensures change { IfOk result (IsChangeOf context.now.region slot.now.state update.key (decided (context_seen context.now) slot.now.state update.caller (a_decision.Assign update))) }
{
    let note = Note::Assigned {
        update: update.copy(alloc)?,
    };
    notes.push(note)?;
    let place = place_at(context, &update);
    accept(alloc, context, slot, update, place, posts)
}

/// An update with this place in the region of the context is known, accepted or early.
#[inline(always)]
pub fn offer(
    alloc: Global,
    context: &SlotContext,
    slot: &Slot,
    update: &Shared<Update>,
    place: u32,
    posts: &mut Posts,
) -> Result<SlotChange, Memory>
    requires placed { IsPlacedIn context.now.region update.now }
    requires few { length update.now.places ≤ MOST_PLACES }
    requires after { All (λ (p : Place). p.after.0 < update.now.version.0) update.now.places }
    requires place { place ≡ place_number context.now.region update.now.places }
    requires region { slot.now.region ≡ context.now.region }
    ensures posts { OnOk result (posts.new ≡ posts.old ++ (update_step (context_seen context.now) slot.now.state update.now).posts) }
    ensures change { IfOk result (IsChangeOf context.now.region slot.now.state update.now.key (update_step (context_seen context.now) slot.now.state update.now)) }
{
    if update.version.0 <= slot.top().0 {
        post_known(alloc, context, slot, update, place, posts)?;
        return Ok(SlotChange::Open);
    }
    accept(alloc, context, slot, update.copy(alloc)?, place, posts)
}

/// A known update is acknowledged again where it is committed.
fn post_known(
    alloc: Global,
    context: &SlotContext,
    slot: &Slot,
    update: &Update,
    place: u32,
    posts: &mut Posts,
) -> Result<(), Memory>
    requires { place ≡ place_number context.now.region update.now.places }
    ensures { OnOk result (posts.new ≡ posts.old ++ known_to (context_seen context.now) slot.now.state update.now) }
{
    if update.version.0 <= slot.floor().0 {
        post_ack(alloc, context, update, place, posts)?;
    }
    Ok(())
}

/// An update above the top, with this place in the region of the context, is offered to the slot.
#[inline(always)]
fn accept(
    alloc: Global,
    context: &SlotContext,
    slot: &Slot,
    update: Shared<Update>,
    place: u32,
    posts: &mut Posts,
) -> Result<SlotChange, Memory>
    requires coming { IsComing context.now.region slot.now.state update }
    requires place { place ≡ place_number context.now.region update.places }
    requires region { slot.now.region ≡ context.now.region }
    ensures posts { OnOk result (posts.new ≡ posts.old ++ (accept_step (context_seen context.now) slot.now.state update).posts) }
    ensures change { IfOk result (IsChangeOf context.now.region slot.now.state update.key (accept_step (context_seen context.now) slot.now.state update)) }
{
    let mut tail_versions = Vec::new(alloc);
    accepted(
        alloc,
        context,
        slot,
        &update,
        place,
        posts,
        &mut tail_versions,
    )?;
    Ok(SlotChange::Accept {
        update,
        place,
        tail_versions,
    })
}

/// Whether an acknowledgement is heard: its version is pending, and it is heard for the pending
/// update of that version. What can then be committed is told of.
#[inline(always)]
pub fn settle(
    alloc: Global,
    context: &SlotContext,
    slot: &Slot,
    from: Actor,
    version: Version,
    by: RegionId,
    posts: &mut Posts,
) -> Result<bool, Memory>
    requires { slot.now.region ≡ context.now.region }
    ensures heard { IfOk result (λ heard. heard ≡ hears_version (context_seen context.now) from by (pending_with version.0 slot.now.state)) }
    ensures posts { IfOk result (λ heard. posts.new ≡ posts.old ++ provided heard (ack_step (context_seen context.now) slot.now.state version.0).posts) }
{
    let Some(update) = pending_with(slot, version) else {
        return Ok(false);
    };
    let place = place_at(context, update);
    if !hears_ack(context.config, update, place, context.server, from, by) {
        return Ok(false);
    }
    acknowledge(alloc, context, slot, version, update, place, posts)?;
    Ok(true)
}

/// Tells of what can be committed once a version is acknowledged, of which this is the pending
/// update, with this place in the region of the context.
#[inline(always)]
fn acknowledge(
    alloc: Global,
    context: &SlotContext,
    slot: &Slot,
    version: Version,
    update: &Update,
    place: u32,
    posts: &mut Posts,
) -> Result<(), Memory>
    requires region { slot.now.region ≡ context.now.region }
    requires pending { pending_with version.0 slot.now.state ≡ Some update.now }
    requires place { place ≡ place_number context.now.region update.now.places }
    ensures { OnOk result (posts.new ≡ posts.old ++ (ack_step (context_seen context.now) slot.now.state version.0).posts) }
{
    if slot.pending_count() == 1 {
        return post_commit_at(alloc, context, update, place, posts);
    }
    post_lowest_commits(alloc, context, slot, slot.would_commit(version), posts)
}

/// The pending update of a version.
#[inline]
fn pending_with<'a>(slot: &'a Slot, version: Version) -> Option<&'a Shared<Update>>
    ensures pending { option_copied result ≡ pending_with version.0 slot.now.state }
    ensures place { IfSome (option_copied result) (IsPlacedIn slot.now.region) }
    ensures few { IfSome (option_copied result) HasFewPlaces }
{
    for i in 0..slot.pending_count() {
        match slot.pending(i) {
            Some(update) => {
                if update.version.0 == version.0 {
                    return Some(update);
                }
            }
            // The number is below how many are pending.
            None => unreachable!(),
        }
    }
    None
}
