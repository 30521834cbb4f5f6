ghost use Rattle.std.specs.Prelude.{◌≡◌, IfOk, false};
ghost use Rattle.std.specs.List.{AllByRecursion};
ghost use Rattle.hx_slot.specs.Acks.{AreSameUpdates};
ghost use Rattle.hx_slot.specs.Bases.{IsCopied};
ghost use Rattle.hx_slot.specs.declared.updates.AcceptedUpdate.{AcceptedUpdate};

use crate::bases::Base;
use crate::rooms::copy_all;
use crate::updates::AcceptedUpdate;
use hx_types::{Exact, Memory};
use std::alloc::Global;

/// A copy of the updates, none of which is acknowledged.
pub fn renewed_line(alloc: Global, line: &[AcceptedUpdate]) -> Result<Vec<AcceptedUpdate>, Memory>
    ensures same { IfOk result (λ copy. AreSameUpdates line.now copy.items) }
    ensures forgotten { IfOk result (λ copy. AllByRecursion (λ (t : AcceptedUpdate). t.acknowledged ≡ false) copy.items) }
{
    let mut copy = Vec::new(alloc);
    for taken in line {
        copy.push(AcceptedUpdate {
            update: taken.update.copy(alloc)?,
            keeps: taken.keeps,
            acknowledged: false,
        })?;
    }
    Ok(copy)
}

/// A copy of a base.
pub fn renewed_base(alloc: Global, base: &Base) -> Result<Base, Memory>
    ensures { IfOk result (IsCopied base.now) }
{
    Ok(Base {
        floor: base.floor,
        object: base.object.copy(alloc)?,
        marks: copy_all(&base.marks)?,
        touches: copy_all(&base.touches)?,
    })
}
