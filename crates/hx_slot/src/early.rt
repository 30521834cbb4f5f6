ghost use Rattle.std.specs.Prelude.{◌≡◌, ◌≤◌, ◌==◌, filter, map, not, position, slice_get, vec_capacity, vec_len};
ghost use Rattle.std.specs.Option.{option_copied};
ghost use Rattle.hx_slot.specs.declared.updates.PlacedUpdate.{PlacedUpdate};

use crate::updates::PlacedUpdate;
use hx_types::{Shared, Update, Version};

/// The first of the early updates that come after this version, by its number.
pub fn early_after(early: &[PlacedUpdate], top: Version) -> Option<usize>
    ensures { result ≡ position (λ (p : PlacedUpdate). p.after.0 == top.0) early.now }
{
    early.iter().position(|placed| placed.after == top)
}

/// Takes the updates of a version out.
#[inline(always)]
pub fn drop_version(early: &mut Vec<PlacedUpdate>, version: Version)
    ensures items { early.new.items ≡ filter (λ (p : PlacedUpdate). not (p.update.version.0 == version.0)) early.old.items }
    ensures len { vec_len early.new ≤ vec_len early.old }
    ensures capacity { vec_capacity early.new ≡ vec_capacity early.old }
{
    if early.is_empty() {
        return;
    }
    early.retain(|placed| placed.update.version != version);
}

/// The update at a place of the list, from 0.
pub fn early_at(early: &[PlacedUpdate], place: usize) -> Option<&Shared<Update>>
    ensures { option_copied result ≡ slice_get (map (λ (p : PlacedUpdate). p.update) early.now) place }
{
    match early.get(place) {
        Some(placed) => Some(&placed.update),
        None => None,
    }
}
