ghost use Rattle.std.specs.Prelude.{◌≡◌, ℕ, ◌<◌, ◌≤◌, ◌+◌, [], IfOk, OnOk, length, nat_eq, slice_set, true};
ghost use Rattle.std.specs.List.{IsDistinct, flat_map};
ghost use Rattle.hx_types.specs.Words.{list_of};
ghost use Rattle.hx_index.specs.Looks.{HaveCounted};
ghost use Rattle.hx_index.specs.Orders.{IsIndexOf, count_of, rows_at, stands_in};
ghost use Rattle.hx_index.specs.Searches.{least_run, most_looks};
ghost use Rattle.hx_index.specs.Sides.{matches_at};
ghost use Rattle.hx_store.specs.Indexed.{IndexedState, IsKept, IsKeptAs, IsOf, IsWider, kept_at, marked_count};

use crate::copying::copy_row;
use crate::searching::rows_at;
use hx_index::{Ids, Index, View};
use hx_slot::Slot;
use hx_types::{Memory, Row, Rows, Shared, Terms};
use std::alloc::Global;
use std::marker::Model;
use std::mem;

/// An index of the committed objects of slots, which is brought up to date when a search asks: it
/// keeps the row by which it has each slot, and which slots may have another object since. Slots
/// that came since the last search have no place in it yet, so that a new slot costs it nothing.
pub struct Indexed {
    index: Index,
    /// The row by which the index has the slot at each place.
    rows: Vec<Option<Shared<Row>>>,
    /// The places of the slots that may have another object, each once.
    stale: Vec<u32>,
    /// Whether each place stands there.
    is_stale: Vec<bool>,
}

impl Drop for Indexed {
    fn drop(self) {
        let Indexed {
            index: _,
            rows: _,
            stale: _,
            is_stale: _,
        } = self;
    }
}

impl Model for Indexed {
    ghost use Rattle.std.specs.Prelude.{vec_capacity};
    ghost use Rattle.hx_store.specs.Indexed.{AreIndexed, IndexedState};

    ghost Value = { IndexedState };

    ghost view = { λ x. record { index = x.index; rows = x.rows.items; stale = x.is_stale.items } };

    ghost invariant = { λ x. AreIndexed x.index x.rows.items x.is_stale.items x.stale.items (vec_capacity x.stale) };
}

impl Indexed {
    /// The index of no slots, of objects with so many attributes besides the key.
    pub fn new(alloc: Global, attributes: u32) -> Result<Indexed, Memory>
        ensures rows { IfOk result (λ (x : IndexedState). x.rows ≡ []) }
        ensures stale { IfOk result (λ (x : IndexedState). x.stale ≡ []) }
        ensures attributes { IfOk result (λ (x : IndexedState). length x.index.orders ≡ attributes + 1) }
    {
        let index = Index::new(alloc, attributes)?;
        Ok(Indexed {
            index,
            rows: Vec::new(alloc),
            stale: Vec::new(alloc),
            is_stale: Vec::new(alloc),
        })
    }

    /// The slot at a place may have another object from now on. Where the slot has no place yet, it
    /// is taken in when it gets one. It takes no memory.
    pub fn mark_stale(&mut self, place: usize)
        ensures stale { self.new.stale ≡ slice_set self.old.stale place true }
        ensures rows { self.new.rows ≡ self.old.rows }
        ensures index { self.new.index ≡ self.old.index }
    {
        match self.is_stale.get(place) {
            Some(false) => {}
            _ => return,
        }
        self.is_stale[place] = true;
        self.stale.push_reserved(place as u32);
    }

    /// Brings the index up to date: each slot has a place, and the index has it by its committed
    /// object. After an error it has some of them so, and the others are still marked or have no
    /// place.
    pub fn refresh(&mut self, alloc: Global, slots: &[Slot]) -> Result<(), Memory>
        requires { IsOf slots.now self.old }
        ensures kept { IsOf slots.now self.new }
        ensures fresh { OnOk result (rows_at self.new.rows ≡ kept_at slots.now) }
        ensures attributes { length self.new.index.orders ≡ length self.old.index.orders }
    {
        self.widen(alloc, slots.len() as u32)?;
        for _ in 0..self.stale_count() {
            self.refresh_last(alloc, slots)?;
        }
        Ok(())
    }

    /// Makes places for n slots in all. What is there stays, whatever comes.
    fn widen(&mut self, alloc: Global, n: u32) -> Result<(), Memory>
        ensures wider { IsWider self.old self.new }
        ensures places { OnOk result (n ≤ length self.new.stale) }
        ensures attributes { length self.new.index.orders ≡ length self.old.index.orders }
    {
        for _ in self.rows.len()..n as usize {
            self.add_place(alloc, n)?;
        }
        Ok(())
    }

    /// Makes a place for one slot more, which is marked, and room for n places in all. What is
    /// there stays, whatever comes.
    fn add_place(&mut self, alloc: Global, n: u32) -> Result<(), Memory>
        requires { length self.old.stale < n }
        ensures wider { IsWider self.old self.new }
        ensures one { OnOk result (length self.new.stale ≡ length self.old.stale + 1) }
        ensures attributes { length self.new.index.orders ≡ length self.old.index.orders }
    {
        let place = self.rows.len();
        let most = n as usize;
        self.index.reserve(alloc, n)?;
        self.rows.reserve(most - place)?;
        self.is_stale.reserve(most - place)?;
        self.stale.reserve(most - self.stale.len())?;
        self.rows.push_reserved(None);
        self.is_stale.push_reserved(true);
        self.stale.push_reserved(place as u32);
        Ok(())
    }

    /// How many slots may have another object.
    fn stale_count(&self) -> usize
        ensures { result ≡ marked_count self.now.stale }
    {
        self.stale.len()
    }

    /// Brings the index up to date at the place that was marked last. Where there is no memory for
    /// its row, it stays as it was.
    fn refresh_last(&mut self, alloc: Global, slots: &[Slot]) -> Result<(), Memory>
        requires of { IsOf slots.now self.old }
        requires some { 0 < marked_count self.old.stale }
        ensures kept { IsOf slots.now self.new }
        ensures places { length self.new.stale ≡ length self.old.stale }
        ensures count { OnOk result (marked_count self.new.stale + 1 ≡ marked_count self.old.stale) }
        ensures attributes { length self.new.index.orders ≡ length self.old.index.orders }
    {
        let Some(place) = self.stale.last() else {
            // Some place is marked.
            unreachable!()
        };
        let place = *place;
        let row = row_of(alloc, slots, place)?;
        let old = mem::replace(&mut self.rows[place as usize], row);
        follow(&mut self.index, self.rows.as_slice(), place, &old);
        drop(old);
        self.is_stale[place as usize] = false;
        let _ = self.stale.pop();
        Ok(())
    }

    /// The places at whose rows every term holds, each once, in any order.
    pub fn find(&self, alloc: Global, terms: &Terms, looks: &mut u64) -> Result<Ids, Memory>
        ensures matching { IfOk result (λ ids. (i : ℕ) → stands_in ids.items i ≡ matches_at (rows_at self.now.rows) terms.now i) }
        ensures once { IfOk result (λ ids. IsDistinct nat_eq ids.items) }
        ensures index { IsIndexOf (rows_at self.now.rows) self.now.index }
        ensures counted { looks.old ≤ looks.new }
        ensures looks { looks.new ≤ looks.old + most_looks self.now.index (rows_at self.now.rows) terms.now }
        ensures each { IfOk result (λ ids. HaveCounted (least_run self.now.index (rows_at self.now.rows) (count_of self.now.index) terms.now) looks.old looks.new) }
    {
        let mut view = View::new(self.rows.as_slice(), *looks);
        let found = self.index.find(alloc, &mut view, terms);
        *looks = view.looks();
        found
    }

    /// Copies of the rows at these places, one after another.
    pub fn rows(&self, alloc: Global, places: &[u32]) -> Result<Rows, Memory>
        ensures { IfOk result (λ rows. rows ≡ flat_map (λ i. list_of (rows_at self.now.rows i)) places.now) }
    {
        rows_at(alloc, self.rows.as_slice(), places)
    }
}

/// A copy of the committed object of the slot at a place, if there is one, with its first owner.
fn row_of(alloc: Global, slots: &[Slot], place: u32) -> Result<Option<Shared<Row>>, Memory>
    ensures { IfOk result (λ row. row ≡ kept_at slots.now place) }
{
    match slots.get(place as usize) {
        Some(slot) => match copy_row(alloc, slot)? {
            Some(row) => Ok(Some(Shared::new(alloc, row)?)),
            None => Ok(None),
        },
        None => Ok(None),
    }
}

/// The index follows a change of the row at a place. It has the place by the row that was there
/// before, or not. It takes no memory.
fn follow(index: &mut Index, rows: &[Option<Shared<Row>>], place: u32, before: &Option<Shared<Row>>)
    requires kept { IsKeptAs before.now place rows.now index.old }
    requires place { place < length rows.now }
    ensures kept { IsKept rows.now index.new }
    ensures attributes { length index.new.orders ≡ length index.old.orders }
{
    let keeps = rows[place as usize].is_some();
    match before {
        Some(row) if keeps => index.replace(rows, place, row),
        Some(row) => index.forget(rows, place, row),
        None if keeps => index.add(rows, place),
        None => {}
    }
}
