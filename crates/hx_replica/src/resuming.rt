ghost use Rattle.std.specs.Prelude.{◌≡◌, ◌++◌, IfOk, OnOk};
ghost use Rattle.hx_model.specs.ServerSteps.{resumed_posts};
ghost use Rattle.hx_replica.specs.Adopting.{IsCarriedOn};
ghost use Rattle.hx_replica.specs.Outputs.{context_seen};

use crate::contexts::SlotContext;
use crate::doubting::post_doubts;
use crate::settling::{ended_count, post_lowest_commits, post_pending};
use hx_slot::Slot;
use hx_types::{Memory, Posts, Version};
use std::alloc::Global;

/// Posts what a slot posts that goes on in a new configuration: every pending update goes to the
/// next replica of its chain or ends here, what can then be committed is told of, and where the
/// server leads the region, what stands behind a lost region is in doubt.
pub fn post_resumed(
    alloc: Global,
    context: &SlotContext,
    slot: &Slot,
    posts: &mut Posts,
) -> Result<(), Memory>
    requires { slot.now.region ≡ context.now.region }
    ensures { OnOk result (posts.new ≡ posts.old ++ resumed_posts (context_seen context.now) slot.now.state) }
{
    if !slot.has_pending() {
        return Ok(());
    }
    let tail_versions = carry_on(alloc, context, slot, posts)?;
    post_doubts(
        context,
        slot,
        ended_count(slot, tail_versions.as_slice()),
        posts,
    )
}

/// Passes every pending update on, and tells of those that can then be committed, where no other is
/// acknowledged; gives the versions whose chain ends here.
pub fn carry_on(
    alloc: Global,
    context: &SlotContext,
    slot: &Slot,
    posts: &mut Posts,
) -> Result<Vec<Version>, Memory>
    requires { slot.now.region ≡ context.now.region }
    ensures { IfOk result (λ tail_versions. IsCarriedOn (context_seen context.now) slot.now.state posts.old posts.new tail_versions.items) }
{
    let mut tail_versions = Vec::new(alloc);
    post_pending(alloc, context, slot, posts, &mut tail_versions)?;
    let committed = ended_count(slot, tail_versions.as_slice());
    post_lowest_commits(alloc, context, slot, committed, posts)?;
    Ok(tail_versions)
}
