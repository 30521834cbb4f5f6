ghost use Rattle.std.specs.Prelude.{◌≡◌, ◌≤◌, ◌++◌, [], ◌∷◌, List, length, map, reverse, slice_get, IfOk, IsTrue, ◌↔◌, OnErr, OnOk};
ghost use Rattle.std.specs.List.{AllByRecursion};
ghost use Rattle.std.specs.Option.{option_copied, option_map};
ghost use Rattle.hx_model.specs.Runs.{post_named};
ghost use Rattle.std.specs.Borrow.{sem};
ghost use Rattle.hx_trace.specs.Entries.{entry_seen, if_noted};
ghost use Rattle.hx_trace.specs.Lending.{LendsGrowing};
ghost use Rattle.hx_trace.specs.Places.{IsPlaceIn, placed};

use crate::entries::Entries;
use crate::growing::GrowingTrace;
use crate::lists::{entry_at, has_notes_at, post_at, posts_at};
use crate::places::EntryPlace;
use hx_clock::{EntryRef, Parts};
use hx_types::{Entry, Memory, Post, PostId};
use std::alloc::Global;
use std::marker::Model;

/// The steps of all actors in order; entry n is the n-th from 1. Contracts see it as the list of
/// its entries.
pub struct Trace {
    growing: GrowingTrace,
}

/// The parts are let go here alone: who drops a trace has nothing to prove of them.
impl Drop for Trace {
    fn drop(self) {
        let Trace { growing: _ } = self;
    }
}

impl Model for Trace {
    ghost use Rattle.std.specs.Prelude.{List};
    ghost use Rattle.hx_types.specs.declared.traces.Entry.{Entry};

    ghost Value = { List Entry };

    ghost view = { λ t. t.growing.entries };
}

impl Trace {
    /// The trace without entries. It takes no memory.
    pub fn new(alloc: Global) -> Trace
        ensures { result ≡ [] }
    {
        Trace {
            growing: GrowingTrace::new(alloc),
        }
    }

    /// The trace without entries, with room for the heads of so many. It fails with [`Memory`]
    /// alone.
    pub fn with_capacity(alloc: Global, entries: usize) -> Result<Trace, Memory>
        ensures { IfOk result (λ made. made ≡ []) }
    {
        let mut growing = GrowingTrace::new(alloc);
        growing.reserve_heads(entries)?;
        Ok(Trace { growing })
    }

    /// The entries of parts, one at each place. They stay where they lie in the parts, and their
    /// stamps count for nothing. Each place names an entry of its part, and tells whether it has
    /// notes. It takes no memory.
    pub fn of_parts(alloc: Global, parts: Parts, places: Vec<EntryPlace>) -> Trace
        requires { AllByRecursion (IsPlaceIn parts) places.items }
        ensures { result ≡ map (placed parts) places.items }
    {
        Trace {
            growing: GrowingTrace::of_parts(alloc, parts, places),
        }
    }

    /// How many entries there are.
    pub fn len(&self) -> usize
        ensures { result ≡ length self.now }
    {
        self.growing.len()
    }

    /// Whether there is no entry.
    pub fn is_empty(&self) -> bool
        ensures { IsTrue result ↔ (self.now ≡ []) }
    {
        self.growing.len() == 0
    }

    /// The entry at a place from 0, or `None` past the end.
    #[inline(always)]
    pub fn get(&self, place: usize) -> Option<EntryRef<'_>>
        ensures { option_map entry_seen result ≡ slice_get self.now place }
    {
        entry_at(self.growing.lists(), place)
    }

    /// The entry at a place from 0 if it has notes, and `None` where it has none and past the end.
    /// Of an entry that was adopted and has none nothing is read, so that a walk over the notes of
    /// a trace is short.
    #[inline(always)]
    pub fn noted(&self, place: usize) -> Option<EntryRef<'_>>
        ensures { option_map entry_seen result ≡ if_noted (slice_get self.now place) }
    {
        let lists = self.growing.lists();
        if has_notes_at(lists, place) {
            entry_at(lists, place)
        } else {
            None
        }
    }

    /// The post of a name, if it was sent.
    pub fn sent(&self, id: PostId) -> Option<&Post>
        ensures { option_copied result ≡ post_named id (reverse self.now) }
    {
        let place = id.entry.checked_sub(1)?;
        let posts = posts_at(self.growing.lists(), place as usize)?;
        post_at(posts, id.place)
    }

    /// The entries in order.
    #[inline(always)]
    pub fn iter(&self) -> Entries<'_>
        ensures { result ≡ self.now }
    {
        let lists = self.growing.lists();
        Entries {
            places: lists.places.as_slice(),
            heads: lists.heads.as_slice(),
            lists,
        }
    }

    /// Puts an entry at the end, and keeps it whole. Where there is no memory the trace stays and
    /// the entry is dropped: a trace has at most 4,294,967,295 entries.
    pub fn push(&mut self, entry: Entry) -> Result<(), Memory>
        ensures ok { OnOk result (self.new ≡ self.old ++ entry ∷ []) }
        ensures err { OnErr result (self.new ≡ self.old) }
    {
        self.growing.push(entry)
    }

    /// The entries of the trace, to make room for one more and put it at the end in place.
    pub fn growing(&mut self) -> &mut GrowingTrace
        ensures* grows { sem 𝓛 (LendsGrowing self.entry result) }
        ensures entries { result.now.entries ≡ self.old }
    {
        &mut self.growing
    }
}
