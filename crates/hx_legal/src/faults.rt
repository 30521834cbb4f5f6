ghost use Rattle.std.specs.Prelude.{◌↔◌, reverse, IfSome, IsNone, IsTrue};
ghost use Rattle.hx_legal.specs.Faults.{IsFirstFault};
ghost use Rattle.hx_model.specs.Legal.{IsLegal};

use crate::effects::is_effect;
use hx_types::{Item, Object, Space};

/// Whether a history of one object is legal; its items stand oldest first.
///
/// The answer and the object of the first item are those of its operation's effect on the absent
/// object, and those of each further item the ones of its operation's effect on the object after
/// the item before it. Versions and callers don't matter. An operation that isn't on a key leaves
/// the object and is answered [`Answer::NotFound`](hx_types::Answer). The empty history is legal.
///
/// It takes no memory.
pub fn legal(space: &Space, items: &[Item]) -> bool
    ensures { IsTrue result ↔ IsLegal space.now (reverse items.now) }
{
    first_fault(space, items).is_none()
}

/// The place, from 0, of the first item that isn't the effect of its operation on the object
/// before it; `None` exactly where the history is legal. It takes no memory.
pub fn first_fault(space: &Space, items: &[Item]) -> Option<usize>
    ensures none { IsNone result ↔ IsLegal space.now (reverse items.now) }
    ensures first { IfSome result (IsFirstFault space.now items.now) }
{
    let mut before = None;
    for (place, item) in items.iter().enumerate() {
        if !is_effect(space, before, item) {
            return Some(place);
        }
        before = item.object.as_ref();
    }
    None
}
