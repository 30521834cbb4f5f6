//! What the tests are made of. A want of memory ends a test.
ghost use Rattle.std.specs.Prelude.{◌≡◌};

use hx_types::{Sequence, SharedList, Text};
use std::process::Abort;

pub fn text<R: Abort + AllocGlobal>(rt: &R, text: &str) -> Text
    ensures { result ≡ text.now }
{
    Text::from_str(rt.alloc(), text).expect(rt, "memory")
}

/// The list of these items.
pub fn list<R: Abort + AllocGlobal, T: Drop, const N: usize>(rt: &R, items: [T; N]) -> Sequence<T>
    ensures { result ≡ items }
{
    let Ok(items) = Vec::from_array(rt.alloc(), items) else {
        panic!(rt; "memory");
    };
    Sequence::from_vec(items)
}

/// The list of these items, with several owners.
pub fn shared_list<R: Abort + AllocGlobal, T: Drop, const N: usize>(
    rt: &R,
    items: [T; N],
) -> SharedList<T>
    ensures { result ≡ items }
{
    let items = list(rt, items).into_vec();
    SharedList::from_vec(rt.alloc(), items).expect(rt, "memory")
}
