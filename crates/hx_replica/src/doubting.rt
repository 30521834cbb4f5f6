ghost use Rattle.std.specs.Prelude.{◌≡◌, ◌++◌, OnOk, drop};
ghost use Rattle.std.specs.List.{flat_map};
ghost use Rattle.hx_model.specs.Slots.{pending_of};
ghost use Rattle.hx_replica.specs.Adopting.{doubt_of, doubts_among};
ghost use Rattle.hx_replica.specs.Outputs.{context_seen};

use crate::contexts::{SlotContext, doubt};
use hx_chain::stuck_from;
use hx_slot::Slot;
use hx_types::{Memory, Posts, RegionId, Update, Version};

/// Where the server leads the region and a lost region stands in the way of a pending update, the
/// callers of that update and of all later ones are told that their writes are in doubt. So many of
/// the lowest pending updates are committed before.
pub fn post_doubts(
    context: &SlotContext,
    slot: &Slot,
    committed: u32,
    posts: &mut Posts,
) -> Result<(), Memory>
    ensures { OnOk result (posts.new ≡ posts.old ++ doubts_among (context_seen context.now) (drop committed (pending_of slot.now.state))) }
{
    if !context
        .config
        .leads(context.space, context.server, context.region)
    {
        return Ok(());
    }
    match stuck_from(context.config, slot, committed) {
        Some((first, region)) => doubt_from(context, slot, committed, first, region, posts),
        None => Ok(()),
    }
}

/// The callers of the pending updates from a version on are told of the lost region.
fn doubt_from(
    context: &SlotContext,
    slot: &Slot,
    committed: u32,
    first: Version,
    region: RegionId,
    posts: &mut Posts,
) -> Result<(), Memory>
    ensures { OnOk result (posts.new ≡ posts.old ++ flat_map (doubt_of (context_seen context.now) first region) (drop committed (pending_of slot.now.state))) }
{
    for i in committed..slot.pending_count() {
        match slot.pending(i) {
            Some(update) => doubt_one(context, update, first, region, posts)?,
            // The number is below how many are pending.
            None => unreachable!(),
        }
    }
    Ok(())
}

fn doubt_one(
    context: &SlotContext,
    update: &Update,
    first: Version,
    region: RegionId,
    posts: &mut Posts,
) -> Result<(), Memory>
    ensures { OnOk result (posts.new ≡ posts.old ++ doubt_of (context_seen context.now) first region update.now) }
{
    if first.0 <= update.version.0 {
        posts.push(doubt(context, update.caller, update.version, region))?;
    }
    Ok(())
}
