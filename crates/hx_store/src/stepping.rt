ghost use Rattle.std.specs.Prelude.{◌≡◌, ◌+◌, ◌<◌, ◌≤◌, ◌++◌};
ghost use Rattle.hx_law_folds.specs.Folding.{folded};
ghost use Rattle.hx_model.specs.Slots.{moved_all, offered, settled};
ghost use Rattle.hx_store.specs.Stores.{ArePending, CanBeOffered, accepted_at, acknowledging};

use hx_slot::Slot;
use hx_types::{Shared, Update, Version};

/// Pending versions of a slot are acknowledged, and what can be committed is.
pub fn settle_all(slot: &mut Slot, versions: &[Version])
    requires { ArePending slot.old.state versions.now }
    ensures state { slot.new.state ≡ folded slot.old.region (moved_all (acknowledging versions.now ++ settled (moved_all (acknowledging versions.now) slot.old.state)) slot.old.state) }
    ensures region { slot.new.region ≡ slot.old.region }
    ensures spare { slot.old.spare ≤ slot.new.spare }
{
    acknowledge_all(slot, versions);
    let _ = slot.settle();
}

/// Pending versions of a slot are acknowledged, and nothing is committed.
pub fn acknowledge_all(slot: &mut Slot, versions: &[Version])
    requires { ArePending slot.old.state versions.now }
    ensures state { slot.new.state ≡ moved_all (acknowledging versions.now) slot.old.state }
    ensures region { slot.new.region ≡ slot.old.region }
    ensures spare { slot.old.spare ≤ slot.new.spare }
{
    for version in versions {
        slot.acknowledge(*version);
    }
}

/// A slot is offered an update, whose place in the region has this number; then these versions,
/// whose chain ends here, are acknowledged, and what can be committed is.
pub fn accept(slot: &mut Slot, update: Shared<Update>, number: u32, ends: &[Version])
    requires room { 0 < slot.old.spare }
    requires offer { CanBeOffered slot.old.region update number }
    requires pending { ArePending (moved_all (offered slot.old.region slot.old.state update) slot.old.state) ends.now }
    ensures state { slot.new.state ≡ accepted_at update ends.now slot.old.region slot.old.state }
    ensures region { slot.new.region ≡ slot.old.region }
    ensures spare { slot.old.spare ≤ slot.new.spare + 1 }
{
    let _ = slot.offer(update, number);
    acknowledge_all(slot, ends);
    let _ = slot.settle();
}
