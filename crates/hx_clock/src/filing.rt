ghost use Rattle.std.specs.Prelude.{◌≡◌, ◌+◌, ◌<◌, ◌^◌, ◌++◌, [], ◌∷◌, length, true, vec_capacity, OnOk};
ghost use Rattle.hx_clock.specs.Parts.{stamped};
ghost use Rattle.hx_clock.specs.PartLists.{AreWhole, HasRoom, IsInputIn, IsSame, deliveries_in, entries_in, input_by};

use crate::heads::{InputHead, PartHead};
use crate::part_lists::PartLists;
use crate::rooms::{fits, make_room};
use hx_types::{Actor, Input, Memory, Notes, Posts, Stamp};

/// Whether there is room already for an entry more with so many posts and notes. Most entries find
/// it: the lists grow by doubling.
#[inline(always)]
pub fn has_room(lists: &PartLists, posts: usize, notes: usize) -> bool
    ensures { result ≡ true → HasRoom lists.now posts notes }
{
    fits(&lists.heads, 1)
        && fits(&lists.posts, posts)
        && fits(&lists.notes, notes)
        && fits(&lists.deliveries, 1)
}

/// Makes room for an entry more with so many posts and notes, and for what it delivers.
#[cold]
#[inline(never)]
pub fn reserve(lists: &mut PartLists, posts: usize, notes: usize) -> Result<(), Memory>
    ensures same { IsSame lists.old lists.new }
    ensures room { OnOk result (HasRoom lists.new posts notes) }
{
    make_room(&mut lists.heads, 1)?;
    make_room(&mut lists.posts, posts)?;
    make_room(&mut lists.notes, notes)?;
    make_room(&mut lists.deliveries, 1)
}

/// Puts what an input delivers at the end, and gives what is left of it.
#[inline(always)]
fn file_input(deliveries: &mut Vec<Input>, input: Input) -> InputHead
    requires room { length deliveries.old.items < vec_capacity deliveries.old }
    requires few { length deliveries.old.items < 2 ^ 32 }
    ensures deliveries { deliveries.new.items ≡ deliveries.old.items ++ deliveries_in input }
    ensures within { IsInputIn (length deliveries.new.items) result }
    ensures input { input_by deliveries.new.items result ≡ input }
{
    match &input {
        Input::Tick => InputHead::Tick,
        Input::Halt => InputHead::Halt,
        Input::Deliver { .. } => {
            let at = deliveries.len() as u32;
            deliveries.push_reserved(input);
            InputHead::Delivered { at }
        }
    }
}

/// Puts an entry at the end, whose posts and notes move out of the lists in which they lie. There
/// is room, so it takes no memory.
#[inline(always)]
pub fn append_parts(
    lists: &mut PartLists,
    stamp: Stamp,
    actor: Actor,
    input: Input,
    posts: &mut Posts,
    notes: &mut Notes,
)
    requires whole { AreWhole lists.old }
    requires room { HasRoom lists.old (length posts.old) (length notes.old) }
    ensures whole { AreWhole lists.new }
    ensures entries { entries_in lists.new ≡ entries_in lists.old
        ++ stamped stamp.0 (record { actor = actor; input = input; outputs = posts.old; notes = notes.old }) ∷ [] }
    ensures posts { posts.new ≡ [] }
    ensures notes { notes.new ≡ [] }
{
    let head = PartHead {
        stamp,
        actor,
        input: file_input(&mut lists.deliveries, input),
        posts: lists.posts.len() as u32,
        notes: lists.notes.len() as u32,
    };
    posts.move_to(&mut lists.posts);
    notes.move_to(&mut lists.notes);
    lists.heads.push_reserved(head);
}
