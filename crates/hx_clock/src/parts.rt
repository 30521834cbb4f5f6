ghost use Rattle.std.specs.Prelude.{◌≡◌, ◌==◌, ◌↔◌, ◌<◌, ◌++◌, [], ◌∷◌, length, nat_lt, slice_get, IsTrue, OnErr, OnOk, Some};
ghost use Rattle.std.specs.Option.{option_map};
ghost use Rattle.hx_clock.specs.Lent.{entry_seen};
ghost use Rattle.hx_clock.specs.PartLists.{AreWhole, entries_in};
ghost use Rattle.std.proofs.Common.{rules};
ghost use Rattle.std.specs.Cmp.{partial_order_from_own_ties};
ghost use Rattle.std.specs.Cmp.Rules.{comparing};
ghost use Rattle.std.specs.Ordering.{as_partial_cmp, nat_cmp, on};

use crate::filing::{append_parts, reserve};
use crate::lent::EntryRef;
use crate::part_lists::{PartLists, count, empty, entry_at, notes_at, posts_at, stamp_at};
use hx_types::{Entry, Exact, Memory, Post, Sequence, Stamp};
use std::alloc::Global;
use std::cmp::Ordering;
use std::marker::Model;

/// An entry with its stamp. Two are compared by their stamps alone.
#[derive(Drop)]
pub struct Stamped {
    pub stamp: Stamp,
    pub entry: Entry,
}

/// The entries of one actor, in the order in which it made them. Contracts see it as the list of
/// its entries with their stamps. A [`GrowingPart`](crate::GrowingPart) makes it.
pub struct Part {
    lists: PartLists,
}

impl Drop for Part {
    fn drop(self) {
        let Part { lists: _ } = self;
    }
}

impl Model for Part {
    ghost use Rattle.std.specs.Prelude.{List};
    ghost use Rattle.hx_clock.specs.declared.parts.Stamped.{Stamped};
    ghost use Rattle.hx_clock.specs.PartLists.{AreWhole, entries_in};

    ghost Value = { List Stamped };

    ghost view = { λ p. entries_in p.lists };

    ghost invariant = { λ p. AreWhole p.lists };
}

/// The parts of several actors.
pub type Parts = Sequence<Part>;

impl Part {
    /// No entries. It takes no memory.
    pub fn new(alloc: Global) -> Part
        ensures { result ≡ [] }
    {
        Part {
            lists: empty(alloc),
        }
    }

    /// The entries of lists.
    pub(crate) fn of_lists(lists: PartLists) -> Part
        requires { AreWhole lists }
        ensures { result ≡ entries_in lists }
    {
        Part { lists }
    }

    /// Puts an entry at the end, with a copy of what it delivers. Where there is no memory the part
    /// stays and the entry is dropped.
    pub fn push(&mut self, alloc: Global, stamped: Stamped) -> Result<(), Memory>
        ensures ok { OnOk result (self.new ≡ self.old ++ stamped ∷ []) }
        ensures err { OnErr result (self.new ≡ self.old) }
    {
        let Stamped { stamp, entry } = stamped;
        let input = entry.input.copy(alloc)?;
        let actor = entry.actor;
        let (mut posts, mut notes) = entry.into_outputs_and_notes();
        reserve(&mut self.lists, posts.len(), notes.len())?;
        append_parts(&mut self.lists, stamp, actor, input, &mut posts, &mut notes);
        Ok(())
    }

    /// How many entries there are.
    #[inline(always)]
    pub fn len(&self) -> usize
        ensures { result ≡ length self.now }
    {
        count(&self.lists)
    }

    /// Whether there is no entry.
    #[inline(always)]
    pub fn is_empty(&self) -> bool
        ensures { IsTrue result ↔ (self.now ≡ []) }
    {
        count(&self.lists) == 0
    }

    /// The entry at a place from 0, without its stamp.
    #[inline(always)]
    pub fn entry(&self, place: usize) -> EntryRef<'_>
        requires { place < length self.now }
        ensures { Some (entry_seen result) ≡ option_map (λ x. x.entry) (slice_get self.now place) }
    {
        entry_at(&self.lists, place)
    }

    /// The posts of the entry at a place from 0. Nothing else of the entry is read.
    #[inline(always)]
    pub fn posts(&self, place: usize) -> &[Post]
        requires { place < length self.now }
        ensures { Some result.now ≡ option_map (λ x. x.entry.outputs) (slice_get self.now place) }
    {
        posts_at(&self.lists, place)
    }

    /// Whether the entry at a place from 0 has notes. It reads none of them.
    #[inline(always)]
    pub fn has_notes(&self, place: usize) -> bool
        requires { place < length self.now }
        ensures { Some result ≡ option_map (λ x. nat_lt 0 (length x.entry.notes)) (slice_get self.now place) }
    {
        notes_at(&self.lists, place).len() > 0
    }

    /// The stamp of the entry at a place from 0.
    #[inline(always)]
    pub fn stamp(&self, place: usize) -> Stamp
        requires { place < length self.now }
        ensures { Some result ≡ option_map (λ x. x.stamp) (slice_get self.now place) }
    {
        stamp_at(&self.lists, place)
    }
}

impl PartialEq for Stamped {
    ghost eq = { on (λ x. x.stamp.0) ◌==◌ };

    ghost laws = { Prim.search (comparing, rules) };

    fn eq(&self, other: &Stamped) -> bool {
        self.stamp == other.stamp
    }
}

impl Eq for Stamped {
    ghost laws = { Prim.search (comparing, rules) };
}

impl Ord for Stamped {
    ghost cmp = { on (λ x. x.stamp.0) nat_cmp };

    ghost total = { Prim.search (comparing, rules) };

    ghost matches_partial_cmp = { Prim.search (comparing, rules) };

    ghost matches_eq = { Prim.search (comparing, rules) };

    fn cmp(&self, other: &Stamped) -> Ordering {
        self.stamp.0.cmp(&other.stamp.0)
    }
}

impl PartialOrd for Stamped {
    ghost partial_cmp = { as_partial_cmp (on (λ x. x.stamp.0) nat_cmp) };

    ghost laws = { partial_order_from_own_ties (Prim.search (comparing, rules)) (Prim.search (comparing, rules)) };

    fn partial_cmp(&self, other: &Stamped) -> Option<Ordering> {
        Some(self.cmp(other))
    }
}
