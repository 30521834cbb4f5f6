ghost use Rattle.std.specs.Prelude.{◌≡◌, ◌++◌, [], ◌∷◌, ◌↔◌, length, None, IsTrue, OnOk};
ghost use Rattle.hx_clock.specs.Parts.{stamped};
ghost use Rattle.hx_clock.specs.Rooms.{IsRoomFor};

use crate::filing::{append_parts, has_room, reserve};
use crate::part_lists::{PartLists, count, empty};
use crate::parts::Part;
use crate::rooms::Room;
use hx_types::{Actor, Input, Memory, Notes, Posts, Stamp};
use std::alloc::Global;
use std::marker::Model;

/// The entries of one actor, in the order in which it made them, which grow at their end. Contracts
/// see them, and how many posts and notes the next entry may have, if there is room for it. Each
/// entry that is put at the end uses the room up.
///
/// The posts, the notes and the delivered messages of all entries lie in a list for each kind, so
/// that an entry takes no memory of its own.
pub struct GrowingPart {
    lists: PartLists,
    room: Option<Room>,
}

impl Drop for GrowingPart {
    fn drop(self) {
        let GrowingPart { lists: _, room: _ } = self;
    }
}

impl Model for GrowingPart {
    ghost use Rattle.hx_clock.specs.PartLists.{entries_in};
    ghost use Rattle.hx_clock.specs.Rooms.{PartSeen, IsGrowing};

    ghost Value = { PartSeen };

    ghost view = { λ p. record { items = entries_in p.lists; room = p.room } };

    ghost invariant = { λ p. IsGrowing p.lists p.room };
}

impl GrowingPart {
    /// No entries, and no room. It takes no memory.
    pub fn new(alloc: Global) -> GrowingPart
        ensures items { result.items ≡ [] }
        ensures room { result.room ≡ None }
    {
        GrowingPart {
            lists: empty(alloc),
            room: None,
        }
    }

    /// How many entries there are.
    #[inline(always)]
    pub fn len(&self) -> usize
        ensures { result ≡ length self.now.items }
    {
        count(&self.lists)
    }

    /// Whether there is no entry.
    #[inline(always)]
    pub fn is_empty(&self) -> bool
        ensures { IsTrue result ↔ (self.now.items ≡ []) }
    {
        count(&self.lists) == 0
    }

    /// Makes room for one entry with so many posts and notes. It takes all memory that the entry
    /// needs. Where there is none, the entries stay all the same. A part of 4,294,967,295 entries,
    /// posts, notes or deliveries has no room for more.
    #[inline(always)]
    pub fn reserve(&mut self, posts: usize, notes: usize) -> Result<(), Memory>
        ensures items { self.new.items ≡ self.old.items }
        ensures room { OnOk result (IsRoomFor self.new.room posts notes) }
    {
        self.room = None;
        if !has_room(&self.lists, posts, notes) {
            reserve(&mut self.lists, posts, notes)?;
        }
        self.room = Some(Room { posts, notes });
        Ok(())
    }

    /// Puts an entry at the end, for which there is room. Its posts and notes move out of the lists
    /// in which they lie, which keep their own room. It takes no memory.
    #[inline(always)]
    pub fn push_reserved(
        &mut self,
        stamp: Stamp,
        actor: Actor,
        input: Input,
        posts: &mut Posts,
        notes: &mut Notes,
    )
        requires room { IsRoomFor self.old.room (length posts.old) (length notes.old) }
        ensures items { self.new.items ≡ self.old.items
            ++ stamped stamp.0 (record { actor = actor; input = input; outputs = posts.old; notes = notes.old }) ∷ [] }
        ensures room { self.new.room ≡ None }
        ensures posts { posts.new ≡ [] }
        ensures notes { notes.new ≡ [] }
    {
        self.room = None;
        append_parts(&mut self.lists, stamp, actor, input, posts, notes);
    }

    /// The entries as a part that grows no more.
    pub fn into_part(self) -> Part
        ensures { result ≡ self.items }
    {
        let GrowingPart { lists, room: _ } = self;
        Part::of_lists(lists)
    }
}
