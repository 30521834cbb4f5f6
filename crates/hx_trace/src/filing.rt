ghost use Rattle.std.specs.Prelude.{◌≡◌, ◌+◌, ◌<◌, ◌≤◌, ◌^◌, ◌++◌, [], ◌∷◌, length, None, nat_lt, true, vec_capacity, vec_len, OnOk};
ghost use Rattle.hx_trace.specs.Lists.{AreWhole, HasRoom, HasWholeRoom, IsInputIn, IsSame, entries_in, input_by, kept, whole_by};

use crate::heads::{Head, InputHead};
use crate::lists::{Lists, count};
use hx_clock::{fits, is_few, make_room};
use hx_types::{Actor, Entry, Memory, Notes, Posts};

/// Whether there is room already for an entry more with so many posts and notes, in lists without
/// an entry that is kept whole or was adopted. Most entries find it: the lists grow by doubling.
#[inline(always)]
pub fn has_room(lists: &Lists, posts: usize, notes: usize) -> bool
    ensures { result ≡ true → HasRoom lists.now posts notes }
{
    fits(&lists.heads, 1)
        && fits(&lists.posts, posts)
        && fits(&lists.notes, notes)
        && lists.places.is_empty()
        && lists.wholes.is_empty()
}

/// Makes room for the head of one entry more. Lists of 4,294,967,295 entries have none.
#[inline]
fn reserve_head(lists: &mut Lists) -> Result<(), Memory>
    ensures same { IsSame lists.old lists.new }
    ensures room { OnOk result (length lists.new.heads.items < vec_capacity lists.new.heads) }
    ensures few { OnOk result (length lists.new.places.items + length lists.new.heads.items + 1 < 2 ^ 32) }
{
    if !is_few(count(lists), 1) {
        return Err(Memory);
    }
    lists.heads.reserve(1)?;
    Ok(())
}

/// Makes room for an entry more with so many posts and notes, and for it as a whole where some
/// entry is kept whole or was adopted: else each post has its place among the others, and no
/// delivery is kept whole.
#[cold]
#[inline(never)]
pub fn reserve(lists: &mut Lists, posts: usize, notes: usize) -> Result<(), Memory>
    ensures same { IsSame lists.old lists.new }
    ensures room { OnOk result (HasRoom lists.new posts notes) }
{
    reserve_head(lists)?;
    make_room(&mut lists.posts, posts)?;
    make_room(&mut lists.notes, notes)?;
    if lists.places.is_empty() && lists.wholes.is_empty() {
        return Ok(());
    }
    make_room(&mut lists.wholes, 1)
}

/// Makes room for one entry more that is kept whole.
pub fn reserve_whole(lists: &mut Lists) -> Result<(), Memory>
    ensures same { IsSame lists.old lists.new }
    ensures room { OnOk result (HasWholeRoom lists.new) }
{
    reserve_head(lists)?;
    make_room(&mut lists.wholes, 1)
}

/// Puts an entry at the end, whose posts and notes move out of the lists in which they lie. There
/// is room, so it takes no memory.
#[inline(always)]
pub fn append_parts(
    lists: &mut Lists,
    actor: Actor,
    input: InputHead,
    outputs: &mut Posts,
    notes: &mut Notes,
)
    requires whole { AreWhole lists.old }
    requires room { HasRoom lists.old (length outputs.old) (length notes.old) }
    requires input { IsInputIn (length lists.old.posts.items) (length lists.old.wholes.items) input }
    requires filed { whole_by lists.old.wholes.items input ≡ None }
    ensures whole { AreWhole lists.new }
    ensures entries { entries_in lists.new ≡ entries_in lists.old
        ++ record { actor = actor; input = input_by lists.old.posts.items input; outputs = outputs.old; notes = notes.old } ∷ [] }
    ensures outputs { outputs.new ≡ [] }
    ensures notes { notes.new ≡ [] }
{
    let head = Head {
        actor,
        input,
        posts: lists.posts.len() as u32,
        notes: lists.notes.len() as u32,
    };
    outputs.move_to(&mut lists.posts);
    notes.move_to(&mut lists.notes);
    lists.heads.push_reserved(head);
}

/// The head of an entry that is kept whole at the end.
#[inline]
fn head_of_whole(lists: &Lists) -> Head
    requires whole { AreWhole lists.now }
    requires few { length lists.now.wholes.items < 2 ^ 32 }
    ensures { result ≡ kept (length lists.now.posts.items) (length lists.now.notes.items) (length lists.now.wholes.items) }
{
    Head {
        actor: Actor::Coordinator,
        input: InputHead::Whole {
            at: lists.wholes.len() as u32,
        },
        posts: lists.posts.len() as u32,
        notes: lists.notes.len() as u32,
    }
}

/// Keeps a whole entry at the end. There is room, so it takes no memory.
pub fn append_whole(lists: &mut Lists, entry: Entry)
    requires whole { AreWhole lists.old }
    requires room { HasWholeRoom lists.old }
    ensures whole { AreWhole lists.new }
    ensures entries { entries_in lists.new ≡ entries_in lists.old ++ entry ∷ [] }
{
    let head = head_of_whole(lists);
    lists.wholes.push_reserved(entry);
    lists.heads.push_reserved(head);
}
