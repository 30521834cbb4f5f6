ghost use Rattle.std.specs.Prelude.{◌≡◌, ℕ, ◌<◌, ◌≤◌, ◌+◌, ◌^◌, [], IfNone, IfOk, IfSome, IsSomeAnd, OnErr, OnOk, Some, false, insert, is_some, length, nat_eq, take, true, vec_capacity, vec_len};
ghost use Rattle.std.specs.Cmp.Lexicographic.{slice_cmp};
ghost use Rattle.std.specs.List.{All, IsDistinct, filter, flat_map, list_any};
ghost use Rattle.std.specs.Ordering.{nat_cmp};
ghost use Rattle.hx_model.specs.Slots.{is_pending, moved_all, offered};
ghost use Rattle.hx_types.specs.Prefixes.{IsPrefixOf};
ghost use Rattle.hx_types.specs.Words.{list_of, same_text};
ghost use Rattle.hx_index.specs.Looks.{HaveCounted};
ghost use Rattle.hx_index.specs.Orders.{IsIndexOf, count_of, stands_in};
ghost use Rattle.hx_index.specs.Searches.{least_run, most_looks};
ghost use Rattle.hx_index.specs.Sides.{matches_at};
ghost use Rattle.hx_store.specs.Indexed.{is_marked, times};
ghost use Rattle.hx_store.specs.Invariant.{AscendAt, HasAll, HasMoved, IsAdded, IsListedAt, IsReplacedAt, IsSplit, KeysApart, is_listed, key_in, stored_at};
ghost use Rattle.hx_store.specs.Slots.{Entry, IsFresh, StoreSlot, rows_in};
ghost use Rattle.hx_store.specs.Stores.{ArePending, CanBeOffered, accepted_at, acknowledged_at, forgotten_at, marked_at, no_moves, settled_at};

use crate::indexed::Indexed;
use crate::stepping::accept;
use hx_index::Ids;
use hx_slot::Slot;
use hx_types::{
    Exact, Memory, RegionId, Rows, Shared, Terms, Text, Update, Version, insert_within, prefix_of,
};
use indexmap::IndexMap;
use std::alloc::Global;
use std::cmp::Ordering;
use std::marker::Model;

/// A search that finds fewer places than this, or fewer than one in so many of the slots, sorts
/// them: a walk over all slots would cost it more. It is this project's choice.
const FEWEST_TO_WALK: usize = 16;

/// Room for how many slots a store begins with.
const FIRST_SLOTS: usize = 16;

/// The slot of each key, by its place: the number of the key in the order of coming. An index of
/// the kept objects is brought up to date when a search asks.
pub struct Slots {
    /// Whether the slot of each key is part of the store.
    keys: IndexMap<Text, bool>,
    /// The first eight bytes of each key as a number, as [`prefix_of`] has them. Keys are put in
    /// order by these, and by the keys themselves only where these are the same: that takes 8 bytes
    /// a slot, and spares most looks at keys elsewhere in memory. It is this project's choice.
    prefixes: Vec<u64>,
    slots: Vec<Slot>,
    indexed: Indexed,
}

impl Drop for Slots {
    fn drop(self) {
        let Slots {
            keys: _,
            prefixes: _,
            slots: _,
            indexed: _,
        } = self;
    }
}

impl Model for Slots {
    ghost use Rattle.hx_store.specs.Slots.{AreSlots, SlotsState, entries_of};

    ghost Value = { SlotsState };

    ghost view = { λ x. record { entries = entries_of x.keys.entries x.slots.items; rows = x.indexed.rows; index = x.indexed.index } };

    ghost invariant = { λ x. AreSlots x.keys.entries x.prefixes.items x.slots.items x.indexed };
}

impl Slots {
    /// No slots, of objects with so many attributes besides the key.
    pub fn new(alloc: Global, attributes: u32) -> Result<Slots, Memory>
        ensures entries { IfOk result (λ slots. slots.entries ≡ []) }
        ensures attributes { IfOk result (λ slots. length slots.index.orders ≡ attributes + 1) }
    {
        let indexed = Indexed::new(alloc, attributes)?;
        Ok(Slots {
            keys: IndexMap::new(alloc),
            prefixes: Vec::new(alloc),
            slots: Vec::new(alloc),
            indexed,
        })
    }

    /// How many slots there are.
    pub fn len(&self) -> usize
        ensures { result ≡ length self.now.entries }
    {
        self.slots.len()
    }

    /// The place of a key.
    pub fn place_of(&self, key: &Text) -> Option<usize>
        ensures within { IfSome result (λ place. place < length self.now.entries) }
        ensures key { IfSome result (λ place. key_in self.now.entries place ≡ key.now) }
        ensures none { IfNone result (list_any (λ (e : Entry). same_text e.0 key.now) self.now.entries ≡ false) }
    {
        self.keys.get_index_of(key)
    }

    /// The slot at a place.
    pub fn slot_at(&self, place: usize) -> &Slot
        requires { place < length self.now.entries }
        ensures { stored_at self.now.entries place ≡ Some (record { slot = result.now; listed = is_listed self.now.entries place }) }
    {
        &self.slots[place]
    }

    /// Whether the slot at a place is part of the store.
    pub fn is_listed(&self, place: usize) -> bool
        ensures { result ≡ is_listed self.now.entries place }
    {
        match self.keys.get_index(place) {
            Some((_, listed)) => *listed,
            None => false,
        }
    }

    /// The key at a place, or the empty text where there is none.
    fn key_at(&self, place: usize) -> &str
        ensures { result.now ≡ key_in self.now.entries place }
    {
        match self.keys.get_index(place) {
            Some((key, _)) => key.as_str(),
            None => "",
        }
    }

    /// The first eight bytes of the key at a place, or of the empty text where there is none.
    fn prefix_at(&self, place: usize) -> u64
        ensures { IsPrefixOf (key_in self.now.entries place) result }
    {
        match self.prefixes.get(place) {
            Some(prefix) => *prefix,
            None => 0,
        }
    }

    /// The key of a place goes last, with an empty slot that isn't listed. The index gets a place
    /// for it when a search asks. Of more than 4,294,967,295 slots there is no index, and that is
    /// [`Memory`] too.
    pub fn add(
        &mut self,
        alloc: Global,
        region: RegionId,
        keeps_marks: bool,
        key: &Text,
    ) -> Result<(), Memory>
        requires { list_any (λ (e : Entry). same_text e.0 key.now) self.old.entries ≡ false }
        ensures ok { OnOk result (IsAdded region keeps_marks key.now self.old.entries self.new.entries) }
        ensures err { OnErr result (self.new.entries ≡ self.old.entries) }
        ensures attributes { length self.new.index.orders ≡ length self.old.index.orders }
    {
        let count = self.slots.len();
        if count >= u32::MAX as usize {
            return Err(Memory);
        }
        make_room(&mut self.slots)?;
        self.prefixes.reserve(1)?;
        let held = key.copy(alloc)?;
        self.keys.insert(key.copy(alloc)?, false)?;
        let slot = Slot::new(alloc, region, held, keeps_marks);
        self.slots.push_reserved(slot);
        self.prefixes.push_reserved(prefix_of(key.as_str()));
        Ok(())
    }

    /// The slot at a place is listed.
    pub fn list_at(&mut self, place: usize)
        requires { place < length self.old.entries }
        ensures listed { IsListedAt place self.old.entries self.new.entries }
        ensures attributes { length self.new.index.orders ≡ length self.old.index.orders }
    {
        match self.keys.get_index_mut(place) {
            Some(listed) => *listed = true,
            // The place is below the number of keys.
            None => unreachable!(),
        }
    }

    /// A slot comes to a place in place of the one there.
    pub fn replace_at(&mut self, place: usize, slot: Slot)
        requires { place < length self.old.entries }
        ensures replaced { IsReplacedAt place slot self.old.entries self.new.entries }
        ensures attributes { length self.new.index.orders ≡ length self.old.index.orders }
    {
        self.indexed.mark_stale(place);
        self.slots[place] = slot;
    }

    /// Makes room for n more updates of the slot at a place.
    pub fn reserve_at(&mut self, alloc: Global, place: usize, n: u32) -> Result<(), Memory>
        requires { place < length self.old.entries }
        ensures moved { HasMoved place no_moves 0 self.old.entries self.new.entries }
        ensures room { OnOk result (IsSomeAnd (stored_at self.new.entries place) (λ (s : StoreSlot). n ≤ s.slot.spare)) }
        ensures attributes { length self.new.index.orders ≡ length self.old.index.orders }
    {
        self.slots[place].reserve(alloc, n)
    }

    /// The slot at a place is offered an update, whose place in the region has this number; then
    /// these versions are acknowledged, and what can be committed is.
    pub fn accept_at(&mut self, place: usize, update: Shared<Update>, number: u32, ends: &[Version])
        requires room { IsSomeAnd (stored_at self.old.entries place) (λ (s : StoreSlot). 0 < s.slot.spare) }
        requires offer { IsSomeAnd (stored_at self.old.entries place) (λ (s : StoreSlot). CanBeOffered s.slot.region update number) }
        requires pending { IsSomeAnd (stored_at self.old.entries place) (λ (s : StoreSlot). ArePending (moved_all (offered s.slot.region s.slot.state update) s.slot.state) ends.now) }
        ensures moved { HasMoved place (accepted_at update ends.now) 1 self.old.entries self.new.entries }
        ensures attributes { length self.new.index.orders ≡ length self.old.index.orders }
    {
        self.indexed.mark_stale(place);
        accept(&mut self.slots[place], update, number, ends);
    }

    /// A version is acknowledged at the slot at a place, and what can be committed is.
    pub fn acknowledge_at(&mut self, place: usize, version: Version)
        requires { place < length self.old.entries }
        ensures moved { HasMoved place (acknowledged_at version.0) 0 self.old.entries self.new.entries }
        ensures attributes { length self.new.index.orders ≡ length self.old.index.orders }
    {
        self.indexed.mark_stale(place);
        let _ = self.slots[place].ack(version);
    }

    /// The slot at a place forgets which pending updates are acknowledged, and all early updates.
    pub fn reset_at(&mut self, place: usize)
        requires { place < length self.old.entries }
        ensures moved { HasMoved place forgotten_at 0 self.old.entries self.new.entries }
        ensures attributes { length self.new.index.orders ≡ length self.old.index.orders }
    {
        self.slots[place].reset_acks();
    }

    /// A pending version is marked as acknowledged at the slot at a place.
    pub fn mark_at(&mut self, place: usize, version: Version)
        requires { IsSomeAnd (stored_at self.old.entries place) (λ (s : StoreSlot). is_pending version.0 s.slot.state ≡ true) }
        ensures moved { HasMoved place (marked_at version.0) 0 self.old.entries self.new.entries }
        ensures attributes { length self.new.index.orders ≡ length self.old.index.orders }
    {
        self.slots[place].acknowledge(version);
    }

    /// What can be committed of the slot at a place is.
    pub fn settle_at(&mut self, place: usize)
        requires { place < length self.old.entries }
        ensures moved { HasMoved place settled_at 0 self.old.entries self.new.entries }
        ensures attributes { length self.new.index.orders ≡ length self.old.index.orders }
    {
        self.indexed.mark_stale(place);
        let _ = self.slots[place].settle();
    }

    /// Brings the index up to date. The slots stay; after an error those that it has not reached
    /// are still marked.
    pub fn refresh(&mut self, alloc: Global) -> Result<(), Memory>
        ensures entries { self.new.entries ≡ self.old.entries }
        ensures fresh { OnOk result (IsFresh self.new) }
        ensures attributes { length self.new.index.orders ≡ length self.old.index.orders }
    {
        self.indexed.refresh(alloc, self.slots.as_slice())
    }

    /// The places of the slots at whose objects every term holds, in byte order of their keys. The
    /// index is up to date, and the order has the places of all slots that keep an object. Where
    /// many match they are put in order by one walk over that order, and else by sorting.
    pub fn find(
        &self,
        alloc: Global,
        terms: &Terms,
        looks: &mut u64,
        order: &[usize],
    ) -> Result<Ids, Memory>
        requires apart { KeysApart self.now.entries }
        requires fresh { IsFresh self.now }
        requires order { HasAll self.now.entries (λ i. is_some (rows_in self.now.entries i)) order.now }
        ensures matching { IfOk result (λ ids. (i : ℕ) → stands_in ids.items i ≡ matches_at (rows_in self.now.entries) terms.now i) }
        ensures ascend { IfOk result (λ ids. AscendAt self.now.entries ids.items) }
        ensures index { IsIndexOf (rows_in self.now.entries) self.now.index }
        ensures counted { looks.old ≤ looks.new }
        ensures looks { looks.new ≤ looks.old + most_looks self.now.index (rows_in self.now.entries) terms.now }
        ensures each { IfOk result (λ ids. HaveCounted (least_run self.now.index (rows_in self.now.entries) (count_of self.now.index) terms.now) looks.old looks.new) }
    {
        let mut ids = self.indexed.find(alloc, terms, looks)?;
        self.put_in_order(alloc, &mut ids, order)?;
        Ok(ids)
    }

    /// Puts places of slots into byte order of their keys. Each stands there once, and all stand in
    /// the order.
    fn put_in_order(&self, alloc: Global, ids: &mut Ids, order: &[usize]) -> Result<(), Memory>
        requires apart { KeysApart self.now.entries }
        requires order { HasAll self.now.entries (stands_in ids.old.items) order.now }
        requires once { IsDistinct nat_eq ids.old.items }
        ensures same { OnOk result ((i : ℕ) → stands_in ids.new.items i ≡ stands_in ids.old.items i) }
        ensures ascend { OnOk result (AscendAt self.now.entries ids.new.items) }
    {
        if ids.len() < FEWEST_TO_WALK || ids.len() < order.len() / FEWEST_TO_WALK {
            self.sort_by_keys(ids);
            return Ok(());
        }
        self.walk_by_keys(alloc, ids, order)
    }

    /// Puts places of slots into byte order of their keys, by a walk over the order: it marks them,
    /// which takes a byte a slot, and takes the marked ones as they come.
    fn walk_by_keys(&self, alloc: Global, ids: &mut Ids, order: &[usize]) -> Result<(), Memory>
        requires order { HasAll self.now.entries (stands_in ids.old.items) order.now }
        requires once { IsDistinct nat_eq ids.old.items }
        ensures same { OnOk result ((i : ℕ) → stands_in ids.new.items i ≡ stands_in ids.old.items i) }
        ensures ascend { OnOk result (AscendAt self.now.entries ids.new.items) }
    {
        let marks = marks_of(alloc, ids.as_slice(), self.slots.len())?;
        take_marked(ids, order, marks.as_slice());
        Ok(())
    }

    /// Copies of the committed objects of the slots at these places, one after another. The index
    /// is up to date.
    pub fn rows(&self, alloc: Global, places: &[u32]) -> Result<Rows, Memory>
        requires { IsFresh self.now }
        ensures { IfOk result (λ rows. rows ≡ flat_map (λ i. list_of (rows_in self.now.entries i)) places.now) }
    {
        self.indexed.rows(alloc, places)
    }

    /// Puts places of slots into byte order of their keys. Each stands there once.
    fn sort_by_keys(&self, ids: &mut Ids)
        requires apart { KeysApart self.now.entries }
        requires within { (i : ℕ) → stands_in ids.old.items i ≡ true → i < length self.now.entries }
        requires once { IsDistinct nat_eq ids.old.items }
        ensures same { (i : ℕ) → stands_in ids.new.items i ≡ stands_in ids.old.items i }
        ensures ascend { AscendAt self.now.entries ids.new.items }
    {
        ids.sort_unstable_by(|one, other| self.compare_keys(*one as usize, *other as usize));
    }

    /// Puts places of slots into byte order of their keys. Each stands there once.
    pub fn sort_places(&self, order: &mut Vec<usize>)
        requires apart { KeysApart self.now.entries }
        requires within { (i : ℕ) → stands_in order.old.items i ≡ true → i < length self.now.entries }
        requires once { (i : ℕ) → times i order.old.items ≤ 1 }
        ensures same { (i : ℕ) → times i order.new.items ≡ times i order.old.items }
        ensures ascend { AscendAt self.now.entries order.new.items }
        ensures capacity { vec_capacity order.new ≡ vec_capacity order.old }
    {
        order.sort_unstable_by(|one, other| self.compare_keys(*one, *other));
    }

    /// Puts places of slots into byte order of their keys, of which the first ones, so many, stand
    /// in it. Each stands there once, and each of the others goes where it belongs among those
    /// before it. It takes no memory.
    pub fn insert_places(&self, order: &mut Vec<usize>, sorted: usize)
        requires apart { KeysApart self.now.entries }
        requires within { (i : ℕ) → stands_in order.old.items i ≡ true → i < length self.now.entries }
        requires once { (i : ℕ) → times i order.old.items ≤ 1 }
        requires begun { sorted ≤ length order.old.items }
        requires ascend { AscendAt self.now.entries (take sorted order.old.items) }
        ensures same { (i : ℕ) → times i order.new.items ≡ times i order.old.items }
        ensures ascend { AscendAt self.now.entries order.new.items }
        ensures capacity { vec_capacity order.old ≤ vec_capacity order.new }
    {
        for at in sorted..order.len() {
            self.insert_place(order, at);
        }
    }

    /// The place at a point of the order goes to its key's point among those before it, which are
    /// in byte order of their keys.
    fn insert_place(&self, order: &mut Vec<usize>, at: usize)
        requires apart { KeysApart self.now.entries }
        requires within { (i : ℕ) → stands_in order.old.items i ≡ true → i < length self.now.entries }
        requires once { (i : ℕ) → times i order.old.items ≤ 1 }
        requires at { at < length order.old.items }
        requires ascend { AscendAt self.now.entries (take at order.old.items) }
        ensures same { (i : ℕ) → times i order.new.items ≡ times i order.old.items }
        ensures ascend { AscendAt self.now.entries (take (at + 1) order.new.items) }
        ensures capacity { vec_capacity order.old ≤ vec_capacity order.new }
    {
        let place = order.remove(at);
        let to = self.point_of(&order.as_slice()[..at], place);
        insert_within(order, to, place);
    }

    /// How many of places in byte order of their keys are of lower keys than another place.
    fn point_of(&self, order: &[usize], place: usize) -> usize
        requires { AscendAt self.now.entries order.now }
        ensures { IsSplit self.now.entries (key_in self.now.entries place) result order.now }
    {
        order.partition_point(|other| self.compare_keys(*other, place).is_lt())
    }

    /// The keys at two places, by their bytes.
    fn compare_keys(&self, one: usize, other: usize) -> Ordering
        ensures { result ≡ slice_cmp nat_cmp (key_in self.now.entries one) (key_in self.now.entries other) }
    {
        let first = self.prefix_at(one);
        let second = self.prefix_at(other);
        if first != second {
            return first.cmp(&second);
        }
        self.key_at(one).cmp(self.key_at(other))
    }
}

/// Whether each of so many places stands in a list.
fn marks_of(alloc: Global, places: &[u32], count: usize) -> Result<Vec<bool>, Memory>
    requires { All (λ i. i < count) places.now }
    ensures count { IfOk result (λ marks. length marks.items ≡ count) }
    ensures marks { IfOk result (λ marks. is_marked marks.items ≡ stands_in places.now) }
{
    let mut marks = Vec::new(alloc);
    marks.resize(count, false)?;
    for place in places {
        marks[*place as usize] = true;
    }
    Ok(marks)
}

/// A list becomes that of the marked places of an order, in this order. It has room for them, so
/// that takes no memory.
fn take_marked(ids: &mut Ids, order: &[usize], marks: &[bool])
    requires within { All (λ i. i < length marks.now) order.now }
    requires few { length marks.now < 2 ^ 32 }
    requires room { length (filter (is_marked marks.now) order.now) ≤ vec_capacity ids.old }
    ensures { ids.new.items ≡ filter (is_marked marks.now) order.now }
{
    ids.clear();
    for place in order {
        if marks[*place] {
            ids.push_reserved(*place as u32);
        }
    }
}

/// Makes room for one slot more. A full list gets room for four times as many: slots are large, so
/// they are to move seldom, and what lies unused at the end of a long list takes no memory of the
/// machine.
fn make_room(slots: &mut Vec<Slot>) -> Result<(), Memory>
    requires { vec_len slots.old < 2 ^ 32 }
    ensures items { slots.new.items ≡ slots.old.items }
    ensures len { vec_len slots.new ≡ vec_len slots.old }
    ensures room { OnOk result (vec_len slots.new < vec_capacity slots.new) }
{
    if slots.len() < slots.capacity() {
        return Ok(());
    }
    slots.reserve_exact(3 * slots.len() + FIRST_SLOTS)?;
    Ok(())
}
