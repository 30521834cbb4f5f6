ghost use Rattle.std.specs.Prelude.{◌≡◌, ◌+◌, ◌<◌, ◌++◌, [], ◌∷◌, false, length, map, nat_lt, slice_get, slice_range, suc};
ghost use Rattle.std.specs.List.{AllByRecursion};
ghost use Rattle.std.specs.Option.{option_copied, option_map};
ghost use Rattle.hx_types.specs.Words.{when_some};
ghost use Rattle.hx_trace.specs.Entries.{entry_seen, input_seen};
ghost use Rattle.hx_trace.specs.Lists.{AreWhole, IsHeadIn, delivery, entries_by, entries_in, entry_by, input_by, notes_from, posts_from, whole_by};
ghost use Rattle.hx_trace.specs.Places.{IsPlaceIn, placed};

use crate::heads::{Head, InputHead};
use crate::places::{EntryPlace, part_at_place};
use hx_clock::{EntryRef, InputRef, Part, Parts, run_of};
use hx_types::{Entry, Input, Note, Post, PostId};
use std::alloc::Global;

/// The lists in which a trace lies. First come the entries of adopted parts, which lie where they
/// lay before: each has its place, and its stamp counts for nothing. Then come those that were put
/// at the end: each has a head, and the posts and notes of all lie one after another. Of these,
/// entries that are kept whole lie apart.
pub struct Lists {
    pub places: Vec<EntryPlace>,
    pub parts: Vec<Part>,
    pub heads: Vec<Head>,
    pub posts: Vec<Post>,
    pub notes: Vec<Note>,
    pub wholes: Vec<Entry>,
}

impl Drop for Lists {
    fn drop(self) {
        let Lists {
            places: _,
            parts: _,
            heads: _,
            posts: _,
            notes: _,
            wholes: _,
        } = self;
    }
}

/// The lists of the entries of parts, one at each place. It takes no memory.
pub fn adopted(alloc: Global, parts: Parts, places: Vec<EntryPlace>) -> Lists
    requires { AllByRecursion (IsPlaceIn parts) places.items }
    ensures whole { AreWhole result }
    ensures entries { entries_in result ≡ map (placed parts) places.items }
{
    Lists {
        places,
        parts: parts.into_vec(),
        heads: Vec::new(alloc),
        posts: Vec::new(alloc),
        notes: Vec::new(alloc),
        wholes: Vec::new(alloc),
    }
}

/// Lists without an entry.
pub fn empty(alloc: Global) -> Lists
    ensures whole { AreWhole result }
    ensures entries { entries_in result ≡ [] }
{
    adopted(alloc, Parts::new(alloc), Vec::new(alloc))
}

/// How many entries there are.
#[inline]
pub fn count(lists: &Lists) -> usize
    ensures places_and_heads { result ≡ length lists.now.places.items + length lists.now.heads.items }
    ensures entries { result ≡ length (entries_in lists.now) }
{
    lists.places.len() + lists.heads.len()
}

/// The head at a place from 0, or `None` past the end.
#[inline(always)]
pub fn head_at(lists: &Lists, place: usize) -> Option<&Head>
    ensures { option_copied result ≡ slice_get lists.now.heads.items place }
{
    lists.heads.get(place)
}

/// The head after that at a place, or `None` where that is the last.
#[inline(always)]
pub fn next_of(lists: &Lists, place: usize) -> Option<&Head>
    requires { place < length lists.now.heads.items }
    ensures { option_copied result ≡ slice_get lists.now.heads.items (suc place) }
{
    lists.heads.get(place + 1)
}

/// Where the posts of a head end, by the next head.
#[inline(always)]
pub fn posts_end(lists: &Lists, next: Option<&Head>) -> usize
    ensures { result ≡ posts_from (length lists.now.posts.items) (option_copied next.entry) }
{
    match next {
        Some(next) => next.posts as usize,
        None => lists.posts.len(),
    }
}

/// Where the notes of a head end, by the next head.
#[inline(always)]
fn notes_end(lists: &Lists, next: Option<&Head>) -> usize
    ensures { result ≡ notes_from (length lists.now.notes.items) (option_copied next.entry) }
{
    match next {
        Some(next) => next.notes as usize,
        None => lists.notes.len(),
    }
}

/// The entry that is kept whole, if the head names one.
#[inline(always)]
fn whole_of(lists: &Lists, input: InputHead) -> Option<&Entry>
    ensures { option_copied result ≡ whole_by lists.now.wholes.items input }
{
    match input {
        InputHead::Whole { at } => lists.wholes.get(at as usize),
        InputHead::Tick | InputHead::Halt | InputHead::Sent { .. } => None,
    }
}

/// The delivery of a post, lent.
#[inline(always)]
fn delivered(entry: u32, place: u32, post: Option<&Post>) -> InputRef<'_>
    ensures { input_seen result ≡ delivery (record { entry = entry; place = place }) (option_copied post.entry) }
{
    match post {
        Some(post) => InputRef::Deliver {
            id: PostId {
                entry: u64::from(entry),
                place,
            },
            from: post.from,
            message: &post.message,
        },
        None => InputRef::Tick,
    }
}

/// What the actor took, where the entry isn't kept whole.
#[inline(always)]
fn input_of<'a>(lists: &'a Lists, input: InputHead) -> InputRef<'a>
    ensures { input_seen result ≡ input_by lists.now.posts.items input }
{
    match input {
        InputHead::Tick => InputRef::Tick,
        InputHead::Halt => InputRef::Halt,
        InputHead::Sent { entry, place, at } => delivered(
            entry,
            place,
            lists.posts.get(at as usize),
        ),
        InputHead::Whole { .. } => InputRef::Tick,
    }
}

/// An input, lent.
#[inline(always)]
fn lent(input: &Input) -> InputRef<'_>
    ensures { input_seen result ≡ input.now }
{
    match input {
        Input::Tick => InputRef::Tick,
        Input::Halt => InputRef::Halt,
        Input::Deliver { id, from, message } => InputRef::Deliver {
            id: *id,
            from: *from,
            message,
        },
    }
}

/// An entry, lent.
#[inline(always)]
fn lent_entry(entry: &Entry) -> EntryRef<'_>
    ensures { entry_seen result ≡ entry.now }
{
    EntryRef {
        actor: entry.actor,
        input: lent(&entry.input),
        outputs: entry.outputs.as_slice(),
        notes: entry.notes.as_slice(),
    }
}

/// The posts of a head, by the next head.
#[inline(always)]
fn posts_of<'a>(lists: &'a Lists, head: &Head, next: Option<&Head>) -> &'a [Post]
    requires { IsHeadIn (length lists.now.posts.items) (length lists.now.notes.items) (length lists.now.wholes.items) head.now (option_copied next) }
    ensures { result.now ≡ slice_range lists.now.posts.items head.now.posts (posts_from (length lists.now.posts.items) (option_copied next.entry)) }
{
    run_of(lists.posts.as_slice(), head.posts, posts_end(lists, next))
}

/// The notes of a head, by the next head.
#[inline(always)]
fn notes_of<'a>(lists: &'a Lists, head: &Head, next: Option<&Head>) -> &'a [Note]
    requires { IsHeadIn (length lists.now.posts.items) (length lists.now.notes.items) (length lists.now.wholes.items) head.now (option_copied next) }
    ensures { result.now ≡ slice_range lists.now.notes.items head.now.notes (notes_from (length lists.now.notes.items) (option_copied next.entry)) }
{
    run_of(lists.notes.as_slice(), head.notes, notes_end(lists, next))
}

/// The entry of a head, by the next head.
#[inline(always)]
pub fn entry_of<'a>(lists: &'a Lists, head: &Head, next: Option<&Head>) -> EntryRef<'a>
    requires { IsHeadIn (length lists.now.posts.items) (length lists.now.notes.items) (length lists.now.wholes.items) head.now (option_copied next) }
    ensures { entry_seen result ≡ entry_by lists.now.posts.items lists.now.notes.items lists.now.wholes.items head.now (option_copied next.entry) }
{
    match whole_of(lists, head.input) {
        Some(whole) => lent_entry(whole),
        None => EntryRef {
            actor: head.actor,
            input: input_of(lists, head.input),
            outputs: posts_of(lists, head, next),
            notes: notes_of(lists, head, next),
        },
    }
}

/// The entry of the head at a place.
#[inline(always)]
fn entry_of_head(lists: &Lists, place: usize) -> Option<EntryRef<'_>>
    requires { AreWhole lists.now }
    ensures { option_map entry_seen result ≡ slice_get (entries_by lists.now.posts.items lists.now.notes.items lists.now.wholes.items lists.now.heads.items) place }
{
    let head = head_at(lists, place)?;
    Some(entry_of(lists, head, next_of(lists, place)))
}

/// The posts of the head at a place. Nothing else of the entry is read.
#[inline(always)]
fn posts_of_head(lists: &Lists, place: usize) -> Option<&[Post]>
    requires { AreWhole lists.now }
    ensures { option_copied result ≡ option_map (λ e. e.outputs) (slice_get (entries_by lists.now.posts.items lists.now.notes.items lists.now.wholes.items lists.now.heads.items) place) }
{
    let head = head_at(lists, place)?;
    match whole_of(lists, head.input) {
        Some(whole) => Some(whole.outputs.as_slice()),
        None => Some(posts_of(lists, head, next_of(lists, place))),
    }
}

/// The entry at a place in the parts, lent.
#[inline(always)]
pub fn entry_in_part(lists: &Lists, place: EntryPlace) -> EntryRef<'_>
    requires { IsPlaceIn lists.now.parts.items place }
    ensures { entry_seen result ≡ placed lists.now.parts.items place }
{
    part_at_place(lists.parts.as_slice(), place).entry(place.at as usize)
}

/// The entry at a place from 0, or `None` past the end.
#[inline(always)]
pub fn entry_at(lists: &Lists, place: usize) -> Option<EntryRef<'_>>
    requires { AreWhole lists.now }
    ensures { option_map entry_seen result ≡ slice_get (entries_in lists.now) place }
{
    match place.checked_sub(lists.places.len()) {
        None => Some(entry_in_part(lists, lists.places[place])),
        Some(place) => entry_of_head(lists, place),
    }
}

/// The posts of the entry at a place in the parts.
#[inline(always)]
fn posts_in_part(lists: &Lists, place: EntryPlace) -> &[Post]
    requires { IsPlaceIn lists.now.parts.items place }
    ensures { result.now ≡ (placed lists.now.parts.items place).outputs }
{
    part_at_place(lists.parts.as_slice(), place).posts(place.at as usize)
}

/// The posts of the entry at a place from 0, or `None` past the end. Nothing else of the entry is
/// read.
#[inline(always)]
pub fn posts_at(lists: &Lists, place: usize) -> Option<&[Post]>
    requires { AreWhole lists.now }
    ensures { option_copied result ≡ option_map (λ e. e.outputs) (slice_get (entries_in lists.now) place) }
{
    match place.checked_sub(lists.places.len()) {
        None => Some(posts_in_part(lists, lists.places[place])),
        Some(place) => posts_of_head(lists, place),
    }
}

/// The post at a place of those of an entry, or `None` past the last.
#[inline(always)]
pub fn post_at(posts: &[Post], place: u32) -> Option<&Post>
    ensures { option_copied result ≡ slice_get posts.now place }
{
    posts.get(place as usize)
}

/// Whether there is an entry at a place from 0 and it has notes. Of an entry of the parts it reads
/// nothing.
#[inline(always)]
pub fn has_notes_at(lists: &Lists, place: usize) -> bool
    requires { AreWhole lists.now }
    ensures { result ≡ when_some (slice_get (entries_in lists.now) place) false (λ e. nat_lt 0 (length e.notes)) }
{
    match place.checked_sub(lists.places.len()) {
        None => lists.places[place].has_notes,
        Some(place) => match entry_of_head(lists, place) {
            Some(entry) => entry.notes.len() > 0,
            None => false,
        },
    }
}
