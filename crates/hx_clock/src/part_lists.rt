ghost use Rattle.std.specs.Prelude.{◌≡◌, ◌<◌, [], Some, length, slice_get, suc};
ghost use Rattle.std.specs.Option.{option_copied, option_map};
ghost use Rattle.hx_clock.specs.Lent.{entry_seen, input_seen};
ghost use Rattle.hx_clock.specs.PartLists.{AreWhole, entries_in, input_by, notes_from, posts_from};

use crate::heads::{InputHead, PartHead};
use crate::lent::{EntryRef, InputRef};
use crate::rooms::run_of;
use hx_types::{Input, Note, Post, Stamp};
use std::alloc::Global;

/// The lists in which a part lies: a head for each entry, and the posts, the notes and the
/// deliveries of all entries, one after another.
pub struct PartLists {
    pub heads: Vec<PartHead>,
    pub posts: Vec<Post>,
    pub notes: Vec<Note>,
    pub deliveries: Vec<Input>,
}

impl Drop for PartLists {
    fn drop(self) {
        let PartLists {
            heads: _,
            posts: _,
            notes: _,
            deliveries: _,
        } = self;
    }
}

/// Lists without an entry. It takes no memory.
pub fn empty(alloc: Global) -> PartLists
    ensures whole { AreWhole result }
    ensures entries { entries_in result ≡ [] }
{
    PartLists {
        heads: Vec::new(alloc),
        posts: Vec::new(alloc),
        notes: Vec::new(alloc),
        deliveries: Vec::new(alloc),
    }
}

/// How many entries there are.
#[inline(always)]
pub fn count(lists: &PartLists) -> usize
    ensures heads { result ≡ length lists.now.heads.items }
    ensures entries { result ≡ length (entries_in lists.now) }
{
    lists.heads.len()
}

/// An input, lent.
#[inline(always)]
fn lent(input: &Input) -> InputRef<'_>
    ensures { input_seen result ≡ input.now }
{
    match input {
        Input::Tick => InputRef::Tick,
        Input::Halt => InputRef::Halt,
        Input::Deliver { id, from, message } => InputRef::Deliver {
            id: *id,
            from: *from,
            message,
        },
    }
}

/// What the actor took.
#[inline(always)]
fn input_of(lists: &PartLists, input: InputHead) -> InputRef<'_>
    ensures { input_seen result ≡ input_by lists.now.deliveries.items input }
{
    match input {
        InputHead::Tick => InputRef::Tick,
        InputHead::Halt => InputRef::Halt,
        InputHead::Delivered { at } => match lists.deliveries.get(at as usize) {
            Some(delivery) => lent(delivery),
            None => InputRef::Tick,
        },
    }
}

/// The head at a place.
#[inline(always)]
fn head_at(lists: &PartLists, place: usize) -> PartHead
    requires { place < length lists.now.heads.items }
    ensures { slice_get lists.now.heads.items place ≡ Some result }
{
    lists.heads[place]
}

/// Where the posts of the entry at a place end.
#[inline(always)]
fn posts_end(lists: &PartLists, place: usize) -> usize
    requires { place < length lists.now.heads.items }
    ensures { result ≡ posts_from (length lists.now.posts.items) (slice_get lists.now.heads.items (suc place)) }
{
    match lists.heads.get(place + 1) {
        Some(next) => next.posts as usize,
        None => lists.posts.len(),
    }
}

/// Where the notes of the entry at a place end.
#[inline(always)]
fn notes_end(lists: &PartLists, place: usize) -> usize
    requires { place < length lists.now.heads.items }
    ensures { result ≡ notes_from (length lists.now.notes.items) (slice_get lists.now.heads.items (suc place)) }
{
    match lists.heads.get(place + 1) {
        Some(next) => next.notes as usize,
        None => lists.notes.len(),
    }
}

/// The posts of the entry at a place.
#[inline(always)]
pub fn posts_at(lists: &PartLists, place: usize) -> &[Post]
    requires whole { AreWhole lists.now }
    requires there { place < length (entries_in lists.now) }
    ensures { Some result.now ≡ option_map (λ x. x.entry.outputs) (slice_get (entries_in lists.now) place) }
{
    let head = head_at(lists, place);
    run_of(lists.posts.as_slice(), head.posts, posts_end(lists, place))
}

/// The notes of the entry at a place.
#[inline(always)]
pub fn notes_at(lists: &PartLists, place: usize) -> &[Note]
    requires whole { AreWhole lists.now }
    requires there { place < length (entries_in lists.now) }
    ensures { Some result.now ≡ option_map (λ x. x.entry.notes) (slice_get (entries_in lists.now) place) }
{
    let head = head_at(lists, place);
    run_of(lists.notes.as_slice(), head.notes, notes_end(lists, place))
}

/// The entry at a place.
#[inline(always)]
pub fn entry_at(lists: &PartLists, place: usize) -> EntryRef<'_>
    requires whole { AreWhole lists.now }
    requires there { place < length (entries_in lists.now) }
    ensures { Some (entry_seen result) ≡ option_map (λ x. x.entry) (slice_get (entries_in lists.now) place) }
{
    let head = head_at(lists, place);
    EntryRef {
        actor: head.actor,
        input: input_of(lists, head.input),
        outputs: posts_at(lists, place),
        notes: notes_at(lists, place),
    }
}

/// The stamp of the entry at a place.
#[inline(always)]
pub fn stamp_at(lists: &PartLists, place: usize) -> Stamp
    requires there { place < length (entries_in lists.now) }
    ensures { Some result ≡ option_map (λ x. x.stamp) (slice_get (entries_in lists.now) place) }
{
    head_at(lists, place).stamp
}
