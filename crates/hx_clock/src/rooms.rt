//! Lists whose places are numbers of 32 bits, the room that they have, and runs of their items.
ghost use Rattle.std.specs.Prelude.{◌≡◌, ◌+◌, ◌≤◌, ◌<◌, ◌^◌, length, nat_lt, slice_range, true, vec_capacity, OnOk};

use hx_types::Memory;

/// How many posts and notes an entry may have.
#[derive(Clone, Copy)]
pub struct Room {
    pub posts: usize,
    pub notes: usize,
}

/// Whether a list of so many items with so many more has at most 4,294,967,295: their places are
/// numbers of 32 bits.
#[inline]
pub fn is_few(items: usize, more: usize) -> bool
    ensures { result ≡ nat_lt (items + more) (2 ^ 32) }
{
    match items.checked_add(more) {
        Some(sum) => sum <= u32::MAX as usize,
        None => false,
    }
}

/// Makes room for so many items more. Lists of 4,294,967,296 items have none. It fails with
/// [`Memory`] alone, and the items stay, whatever comes.
#[inline]
pub fn make_room<T: Drop>(list: &mut Vec<T>, more: usize) -> Result<(), Memory>
    ensures items { list.new.items ≡ list.old.items }
    ensures room { OnOk result (length list.new.items + more ≤ vec_capacity list.new) }
    ensures few { OnOk result (length list.new.items + more < 2 ^ 32) }
{
    if !is_few(list.len(), more) {
        return Err(Memory);
    }
    list.reserve(more)?;
    Ok(())
}

/// Whether a list has room for so many items more, and then at most 4,294,967,295.
#[inline(always)]
pub fn fits<T>(list: &Vec<T>, more: usize) -> bool
    ensures room { result ≡ true → length list.now.items + more ≤ vec_capacity list.now }
    ensures few { result ≡ true → length list.now.items + more < 2 ^ 32 }
{
    let count = list.len();
    let most = list.capacity().min(u32::MAX as usize);
    count <= most && more <= most - count
}

/// The items of a run, from the place of the first to that after the last.
#[inline(always)]
pub fn run_of<T>(list: &[T], start: u32, end: usize) -> &[T]
    requires order { start ≤ end }
    requires within { end ≤ length list.now }
    ensures { result.now ≡ slice_range list.now start end }
{
    &list[start as usize..end]
}
