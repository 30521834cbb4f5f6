ghost use Rattle.std.specs.Prelude.{◌≡◌, ◌+◌, ◌≤◌, IfOk, OnOk, vec_capacity, vec_len};
ghost use Rattle.hx_slot.specs.Rooms.{IsGrown};

use hx_types::{Exact, Memory};

/// Up to how many items a list gets no more room than is asked for.
const FEW: usize = 8;

/// Makes room for so many items more. A list of few items gets just that room, since most lists of
/// a slot stay short.
pub fn grow<T>(items: &mut Vec<T>, more: usize) -> Result<(), Memory>
    ensures same { IsGrown items.old items.new }
    ensures room { OnOk result (vec_len items.new + more ≤ vec_capacity items.new) }
{
    if items.len() < FEW {
        items.reserve_exact(more)?;
    } else {
        items.reserve(more)?;
    }
    Ok(())
}

/// A copy of the items, with no more room than they need.
pub fn copy_all<T: Exact>(items: &Vec<T>) -> Result<Vec<T>, Memory>
    ensures { IfOk result (λ copy. copy.items ≡ items.now.items) }
{
    Ok(items.clone()?)
}
