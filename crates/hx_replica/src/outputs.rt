ghost use Rattle.std.specs.Prelude.{◌≡◌, ◌++◌, [], ◌∷◌, IfOk, OnOk};
ghost use Rattle.hx_replica.specs.declared.outputs.SlotChange.TheVariants.{Open};

use hx_types::{Memory, Post, Posts, Shared, Update, Version};

/// How a slot makes its part of a step.
#[derive(Drop)]
pub enum SlotChange {
    /// The slot is part of the store from now on.
    Open,
    /// It is offered an update; then these versions, whose chain ends here, are acknowledged.
    Accept {
        update: Shared<Update>,
        place: u32,
        tail_versions: Vec<Version>,
    },
    /// A version is acknowledged.
    Acknowledge {
        version: Version,
    },
}

/// The slot stays, and this is its only post.
#[inline]
pub fn slot_replies(post: Post, posts: &mut Posts) -> Result<SlotChange, Memory>
    ensures posts { OnOk result (posts.new ≡ posts.old ++ post ∷ []) }
    ensures change { IfOk result (λ change. change ≡ Open) }
{
    posts.push(post)?;
    Ok(SlotChange::Open)
}
