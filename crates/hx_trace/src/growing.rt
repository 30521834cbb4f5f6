ghost use Rattle.std.specs.Prelude.{◌≡◌, ◌<◌, ◌≤◌, ◌^◌, ◌+◌, ◌++◌, [], ◌∷◌, length, map, reverse, slice_get, Some, None, IfNone, IfOk, IfSome, MatchOption, OnErr, OnOk};
ghost use Rattle.std.specs.List.{AllByRecursion};
ghost use Rattle.hx_types.specs.Words.{post};
ghost use Rattle.hx_types.specs.declared.traces.Input.TheVariants as an_input;
ghost use Rattle.hx_model.specs.Runs.{MayTake, post_named};
ghost use Rattle.hx_trace.specs.Lists.{AreAllFiled, AreWhole, IsFiledAs, delivery, entries_in};
ghost use Rattle.hx_trace.specs.Rooms.{IsRoomFor, LiesAt};
ghost use Rattle.hx_trace.specs.Places.{IsPlaceIn, placed};

use crate::filing::{append_parts, append_whole, has_room, reserve, reserve_whole};
use crate::heads::InputHead;
use crate::lists::{Lists, adopted, count, empty, head_at, next_of, posts_end};
use crate::places::EntryPlace;
use hx_clock::{Parts, Room};
use hx_types::{Actor, Entry, Input, Memory, Message, Notes, Post, PostId, Posts};
use std::alloc::Global;
use std::marker::Model;

/// The entries of a trace, which grow at their end. Contracts see them, the posts of those that
/// aren't kept whole one after another, and how many posts and notes the next entry may have, if
/// there is room for it. Each entry that is put at the end uses the room up.
pub struct GrowingTrace {
    lists: Lists,
    room: Option<Room>,
}

impl Drop for GrowingTrace {
    fn drop(self) {
        let GrowingTrace { lists: _, room: _ } = self;
    }
}

impl Model for GrowingTrace {
    ghost use Rattle.hx_trace.specs.Rooms.{Growth, IsGrowing};
    ghost use Rattle.hx_trace.specs.Lists.{entries_in};

    ghost Value = { Growth };

    ghost view = { λ g. record { entries = entries_in g.lists; filed = g.lists.posts.items; room = g.room } };

    ghost invariant = { λ g. IsGrowing g.lists g.room };
}

/// What is kept of an input that an actor may take: of a delivery its post's place in the trace.
/// There is `None` where the post is one of an entry that is kept whole, which has no such place.
fn head_of_input(lists: &Lists, actor: Actor, input: &Input) -> Option<InputHead>
    requires whole { AreWhole lists.now }
    requires few_entries { length lists.now.places.items + length lists.now.heads.items < 2 ^ 32 }
    requires few_posts { length lists.now.posts.items < 2 ^ 32 }
    requires may { MayTake (reverse (entries_in lists.now)) actor input.now }
    ensures filed { IfSome result (IsFiledAs lists.now input.now) }
    ensures unfiled { IfNone result (AreAllFiled lists.now → ⊥) }
{
    match input {
        Input::Tick => Some(InputHead::Tick),
        Input::Halt => Some(InputHead::Halt),
        Input::Deliver { id, from, message } => sent_at(lists, actor, *id, *from, message),
    }
}

/// A post of the trace, with the place where it lies, or `None` where its entry is kept whole.
fn sent_at(
    lists: &Lists,
    to: Actor,
    id: PostId,
    from: Actor,
    message: &Message,
) -> Option<InputHead>
    requires whole { AreWhole lists.now }
    requires few_entries { length lists.now.places.items + length lists.now.heads.items < 2 ^ 32 }
    requires few_posts { length lists.now.posts.items < 2 ^ 32 }
    requires sent { post_named id (reverse (entries_in lists.now)) ≡ Some (post from to message.now) }
    ensures filed { IfSome result (IsFiledAs lists.now (an_input.Deliver id from message.now)) }
    ensures unfiled { IfNone result (AreAllFiled lists.now → ⊥) }
{
    let place = (id.entry as usize - 1).checked_sub(lists.places.len())?;
    let Some(head) = head_at(lists, place) else {
        // The post was sent, so its entry has a head.
        unreachable!()
    };
    match head.input {
        InputHead::Whole { .. } => None,
        _ => Some(InputHead::Sent {
            entry: id.entry as u32,
            place: id.place,
            at: head.posts + id.place,
        }),
    }
}

/// Where the post of a name lies among the posts of heads.
#[inline(always)]
fn place_in(lists: &Lists, id: PostId) -> Option<usize>
    requires { AreWhole lists.now }
    ensures within { IfSome result (λ at. at < length lists.now.posts.items) }
    ensures post { IfSome result (λ at. slice_get lists.now.posts.items at ≡ post_named id (reverse (entries_in lists.now))) }
{
    let number = id.entry.checked_sub(1)?;
    let place = (number as usize).checked_sub(lists.places.len())?;
    let head = head_at(lists, place)?;
    match head.input {
        InputHead::Whole { .. } => None,
        _ => place_among(
            head.posts,
            posts_end(lists, next_of(lists, place)),
            id.place,
        ),
    }
}

/// Where an item of a run lies, by its place from 0 in the run, or `None` past the end.
#[inline(always)]
fn place_among(start: u32, end: usize, place: u32) -> Option<usize>
    ensures { MatchOption result (end ≤ start + place) (λ at. (at ≡ start + place) × (at < end)) }
{
    let at = start as usize + place as usize;
    if at < end { Some(at) } else { None }
}

impl GrowingTrace {
    /// No entries, and no room. It takes no memory.
    pub fn new(alloc: Global) -> GrowingTrace
        ensures entries { result.entries ≡ [] }
        ensures room { result.room ≡ None }
    {
        GrowingTrace {
            lists: empty(alloc),
            room: None,
        }
    }

    /// The entries of parts, one at each place. It takes no memory.
    pub(crate) fn of_parts(alloc: Global, parts: Parts, places: Vec<EntryPlace>) -> GrowingTrace
        requires { AllByRecursion (IsPlaceIn parts) places.items }
        ensures { result.entries ≡ map (placed parts) places.items }
    {
        GrowingTrace {
            lists: adopted(alloc, parts, places),
            room: None,
        }
    }

    /// How many entries there are.
    #[inline]
    pub fn len(&self) -> usize
        ensures { result ≡ length self.now.entries }
    {
        count(&self.lists)
    }

    /// Takes memory for the heads of so many entries more.
    pub(crate) fn reserve_heads(&mut self, entries: usize) -> Result<(), Memory>
        ensures { self.new.entries ≡ self.old.entries }
    {
        self.lists.heads.reserve_exact(entries)?;
        Ok(())
    }

    /// The lists of the entries.
    #[inline(always)]
    pub(crate) fn lists(&self) -> &Lists
        ensures whole { AreWhole result.now }
        ensures entries { entries_in result.now ≡ self.now.entries }
    {
        &self.lists
    }

    /// Makes room for one entry with so many posts and notes. It takes all memory that the entry
    /// needs. Where there is none, the entries stay all the same. A trace of 4,294,967,295 entries,
    /// posts or notes has no room for more.
    #[inline(always)]
    pub fn reserve(&mut self, posts: usize, notes: usize) -> Result<(), Memory>
        ensures entries { self.new.entries ≡ self.old.entries }
        ensures filed { self.new.filed ≡ self.old.filed }
        ensures room { OnOk result (self.new.room ≡ Some (record { posts = posts; notes = notes })) }
    {
        self.room = None;
        if !has_room(&self.lists, posts, notes) {
            reserve(&mut self.lists, posts, notes)?;
        }
        self.room = Some(Room { posts, notes });
        Ok(())
    }

    /// Puts an entry at the end. It takes no memory: of a post that the entry delivers only its
    /// name is kept, and the message is let go. Where the post is one of an entry that is kept
    /// whole, this entry is kept whole too.
    pub fn append(&mut self, entry: Entry)
        requires room { IsRoomFor self.old.room (length entry.outputs) (length entry.notes) }
        requires may { MayTake (reverse self.old.entries) entry.actor entry.input }
        ensures entries { self.new.entries ≡ self.old.entries ++ entry ∷ [] }
        ensures room { self.new.room ≡ None }
    {
        self.room = None;
        match head_of_input(&self.lists, entry.actor, &entry.input) {
            Some(input) => {
                let actor = entry.actor;
                let (mut outputs, mut notes) = entry.into_outputs_and_notes();
                append_parts(&mut self.lists, actor, input, &mut outputs, &mut notes);
            }
            None => append_whole(&mut self.lists, entry),
        }
    }

    /// Where the post of a name lies among the posts of the entries. There is `None` where there is
    /// no such post, and where it is one of an entry that is kept whole or that was adopted, which
    /// lies elsewhere.
    #[inline(always)]
    pub fn place_of(&self, id: PostId) -> Option<usize>
        ensures { IfSome result (LiesAt self.now id) }
    {
        place_in(&self.lists, id)
    }

    /// The post at a place.
    #[inline(always)]
    pub fn post(&self, at: usize) -> &Post
        requires { at < length self.now.filed }
        ensures { Some result.now ≡ slice_get self.now.filed at }
    {
        &self.lists.posts[at]
    }

    /// Puts the delivery of a post of the trace at the end, by the place where the post lies. The
    /// posts and notes of the entry move out of the lists in which they lie, which keep their room.
    /// It takes no memory.
    #[inline(always)]
    pub fn append_delivery(
        &mut self,
        actor: Actor,
        id: PostId,
        at: usize,
        outputs: &mut Posts,
        notes: &mut Notes,
    )
        requires room { IsRoomFor self.old.room (length outputs.old) (length notes.old) }
        requires lies { LiesAt self.old id at }
        ensures entries { self.new.entries ≡ self.old.entries
            ++ record { actor = actor; input = delivery id (post_named id (reverse self.old.entries)); outputs = outputs.old; notes = notes.old } ∷ [] }
        ensures room { self.new.room ≡ None }
        ensures outputs { outputs.new ≡ [] }
        ensures notes { notes.new ≡ [] }
    {
        self.room = None;
        let input = InputHead::Sent {
            entry: id.entry as u32,
            place: id.place,
            at: at as u32,
        };
        append_parts(&mut self.lists, actor, input, outputs, notes);
    }

    /// Puts an entry of an actor's own turn at the end. Its posts and notes move out of the lists
    /// in which they lie, which keep their room. It takes no memory.
    #[inline(always)]
    pub fn append_tick(&mut self, actor: Actor, outputs: &mut Posts, notes: &mut Notes)
        requires room { IsRoomFor self.old.room (length outputs.old) (length notes.old) }
        ensures entries { self.new.entries ≡ self.old.entries
            ++ record { actor = actor; input = an_input.Tick; outputs = outputs.old; notes = notes.old } ∷ [] }
        ensures room { self.new.room ≡ None }
        ensures outputs { outputs.new ≡ [] }
        ensures notes { notes.new ≡ [] }
    {
        self.room = None;
        append_parts(&mut self.lists, actor, InputHead::Tick, outputs, notes);
    }

    /// Keeps a whole entry at the end, with its message. Where there is no memory the entries stay.
    pub(crate) fn push(&mut self, entry: Entry) -> Result<(), Memory>
        ensures ok { OnOk result (self.new.entries ≡ self.old.entries ++ entry ∷ []) }
        ensures err { OnErr result (self.new.entries ≡ self.old.entries) }
    {
        self.room = None;
        reserve_whole(&mut self.lists)?;
        append_whole(&mut self.lists, entry);
        Ok(())
    }
}
