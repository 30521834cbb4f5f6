ghost use Rattle.std.specs.Prelude.{◌≡◌, ◌≤◌, ◌++◌, ◌==◌, IfOk, OnOk, length, take};
ghost use Rattle.std.specs.Borrow.{Bor};
ghost use Rattle.std.specs.List.{All, flat_map, list_any, prefix_len};
ghost use Rattle.hx_model.specs.ServerSteps.{passed_on};
ghost use Rattle.hx_model.specs.Slots.{pending_of};
ghost use Rattle.hx_model.specs.Types.{Update as Updated, Version as Numbered};
ghost use Rattle.hx_replica.specs.Outputs.{IsHere, tail_version, ended_count, seen, settled_among, settles, context_seen, told_of};

use crate::contexts::{SlotContext, post_commit, post_update};
use hx_slot::Slot;
use hx_types::{Memory, Posts, Shared, Update, Version};
use std::alloc::Global;

#[inline]
fn is_among(versions: &[Version], version: Version) -> bool
    ensures { result ≡ list_any (λ (v : Numbered). v.0 == version.0) versions.now }
{
    versions.iter().any(|other| *other == version)
}

/// Whether a version is acknowledged, or one of those that are being acknowledged.
#[inline(always)]
pub fn is_settled(slot: &Slot, tail_versions: &[Version], version: Version) -> bool
    ensures { result ≡ settles slot.now.state.acked tail_versions.now version }
{
    is_among(tail_versions, version) || slot.is_acknowledged(version)
}

/// How many updates at the front of a line are acknowledged.
fn settled_count(slot: &Slot, line: &[&Shared<Update>], tail_versions: &[Version]) -> usize
    ensures { result ≡ prefix_len (λ (b : Bor Updated). settles slot.now.state.acked tail_versions.now b.now.version) line.now }
{
    line.iter()
        .take_while(|update| is_settled(slot, tail_versions, update.version))
        .count()
}

/// Tells of the updates at the front of a line that are acknowledged, one after another: they are
/// committed.
pub fn post_commits(
    alloc: Global,
    context: &SlotContext,
    slot: &Slot,
    line: &[&Shared<Update>],
    tail_versions: &[Version],
    posts: &mut Posts,
) -> Result<(), Memory>
    requires { All (IsHere context.now.region) line.now }
    ensures { OnOk result (posts.new ≡ posts.old ++ flat_map (λ (b : Bor Updated). told_of (context_seen context.now) b.now) (settled_among slot.now.state.acked tail_versions.now line.now)) }
{
    let (settled, _) = line.split_at(settled_count(slot, line, tail_versions));
    post_each_commit(alloc, context, settled, posts)
}

fn post_each_commit(
    alloc: Global,
    context: &SlotContext,
    updates: &[&Shared<Update>],
    posts: &mut Posts,
) -> Result<(), Memory>
    requires { All (IsHere context.now.region) updates.now }
    ensures { OnOk result (posts.new ≡ posts.old ++ flat_map (λ (b : Bor Updated). told_of (context_seen context.now) b.now) updates.now) }
{
    for update in updates {
        post_commit(alloc, context, update, posts)?;
    }
    Ok(())
}

/// The pending updates of a slot, and after them those that it is about to accept.
pub fn line_of<'a>(
    alloc: Global,
    slot: &'a Slot,
    taken: &[&'a Shared<Update>],
) -> Result<Vec<&'a Shared<Update>>, Memory>
    requires { All (IsHere slot.now.region) taken.now }
    ensures line { IfOk result (λ line. seen line.items ≡ pending_of slot.now.state ++ seen taken.now) }
    ensures here { IfOk result (λ line. All (IsHere slot.now.region) line.items) }
{
    let mut line = pending_line(alloc, slot)?;
    for update in taken {
        line.push(*update)?;
    }
    Ok(line)
}

/// Each pending update goes to the next replica of its chain, the lowest version first; the
/// versions of those whose chain ends here are added.
pub fn post_pending(
    alloc: Global,
    context: &SlotContext,
    slot: &Slot,
    posts: &mut Posts,
    tail_versions: &mut Vec<Version>,
) -> Result<(), Memory>
    requires { slot.now.region ≡ context.now.region }
    ensures posts { OnOk result (posts.new ≡ posts.old ++ flat_map (passed_on (context_seen context.now)) (pending_of slot.now.state)) }
    ensures tail_versions { OnOk result (tail_versions.new.items ≡ tail_versions.old.items ++ flat_map (tail_version (context_seen context.now)) (pending_of slot.now.state)) }
{
    for i in 0..slot.pending_count() {
        match slot.pending(i) {
            Some(update) => post_update(alloc, context, update, posts, tail_versions)?,
            // The number is below how many are pending.
            None => unreachable!(),
        }
    }
    Ok(())
}

/// How many of the lowest pending updates have one of these versions.
pub fn ended_count(slot: &Slot, tail_versions: &[Version]) -> u32
    ensures { result ≡ ended_count tail_versions.now (pending_of slot.now.state) }
{
    let count = slot.pending_count();
    for i in 0..count {
        match slot.pending(i) {
            Some(update) => {
                if !is_among(tail_versions, update.version) {
                    return i;
                }
            }
            // The number is below how many are pending.
            None => unreachable!(),
        }
    }
    count
}

/// Tells of so many of the lowest pending updates: they are committed.
pub fn post_lowest_commits(
    alloc: Global,
    context: &SlotContext,
    slot: &Slot,
    count: u32,
    posts: &mut Posts,
) -> Result<(), Memory>
    requires region { slot.now.region ≡ context.now.region }
    requires count { count ≤ length (pending_of slot.now.state) }
    ensures { OnOk result (posts.new ≡ posts.old ++ flat_map (told_of (context_seen context.now)) (take count (pending_of slot.now.state))) }
{
    for i in 0..count {
        match slot.pending(i) {
            Some(update) => post_commit(alloc, context, update, posts)?,
            // The number is below how many are pending.
            None => unreachable!(),
        }
    }
    Ok(())
}

/// The pending updates of a slot, the lowest version first.
pub fn pending_line<'a>(alloc: Global, slot: &'a Slot) -> Result<Vec<&'a Shared<Update>>, Memory>
    ensures line { IfOk result (λ line. seen line.items ≡ pending_of slot.now.state) }
    ensures here { IfOk result (λ line. All (IsHere slot.now.region) line.items) }
{
    let mut line = Vec::new(alloc);
    for i in 0..slot.pending_count() {
        match slot.pending(i) {
            Some(update) => line.push(update)?,
            // The number is below how many are pending.
            None => unreachable!(),
        }
    }
    Ok(line)
}
