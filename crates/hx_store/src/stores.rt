ghost use Rattle.std.specs.Prelude.{◌≡◌, ℕ, ◌+◌, ◌<◌, ◌≤◌, [], IfNone, IfOk, IfSome, OnErr, OnOk, Some, false, is_some, length, map, slice_get, true};
ghost use Rattle.std.specs.Borrow.{Bor};
ghost use Rattle.std.specs.List.{All, AllByRecursion};
ghost use Rattle.std.specs.Option.{option_map};
ghost use Rattle.hx_types.specs.declared.limits.TheConstants.{MOST_ATTRIBUTES};
ghost use Rattle.hx_law_folds.specs.Folding.{KeptsAscend, KeysAscend};
ghost use Rattle.hx_model.specs.ServerSteps.{state_from};
ghost use Rattle.hx_model.specs.Slots.{found_in, is_pending, moved_all, offered, pending_of_all, rows_of, snapshot_of, with_state};
ghost use Rattle.hx_index.specs.Looks.{HaveCounted};
ghost use Rattle.hx_store.specs.Looks.{least_looks_at, most_looks_at};
ghost use Rattle.hx_store.specs.Reading.{HasOwnRow, RowsAscend};
ghost use Rattle.hx_slot.specs.States.{IsOrderly, SlotState};
ghost use Rattle.hx_store.specs.Stores.{ArePending, CanBeOffered, IsPlace, IsReady, KeepsOtherRooms, KeepsRooms, KeepsRoomsBut, UsesRoom, accepted_at, acknowledged_at, after_step, forgotten_at, has_kept, has_room, has_slot, is_key_of, key_at, marked_at, no_moves, settled_at, spare_at, state_at, states_of};

use crate::copying::{add_kept, add_pending};
use crate::slots::Slots;
use hx_slot::Slot;
use hx_types::{
    Exact, Memory, RegionId, Rows, Shared, Snapshot, Space, Terms, Text, Update, Updates, Version,
};
use std::alloc::Global;
use std::collections::VecDeque;
use std::marker::Model;

/// Places that came since go one by one to where they belong among those in order where these are
/// so many times as many, and else the whole order is sorted. It is this project's choice.
const SORTED_FOR_EACH: usize = 4;

/// More new places than this are sorted with the whole order too: each that is put among the others
/// moves half of them, which many would pay for with the square of their number. It is this
/// project's choice.
const MOST_TO_INSERT: usize = 128;

/// The slots of a region. A key is looked up once: its place, the number of the key in the order of
/// coming, then names its slot. Contracts see the slots in byte order of keys, and by places for
/// how many updates of which keys there is room.
pub struct Store {
    region: RegionId,
    keeps_marks: bool,
    slots: Slots,
    /// The places of the slots that are part of the store: some of them, from the first on, in byte
    /// order of keys, and then those that came since.
    order: Vec<usize>,
    /// How many of these, from the first on, stand in order.
    sorted: usize,
}

/// The parts are let go here alone: who drops a store has nothing to prove of them.
impl Drop for Store {
    fn drop(self) {
        let Store {
            region: _,
            keeps_marks: _,
            slots: _,
            order: _,
            sorted: _,
        } = self;
    }
}

impl Model for Store {
    ghost use Rattle.std.specs.Prelude.{length, nat_eq, vec_capacity};
    ghost use Rattle.hx_store.specs.Stores.{StoreState};
    ghost use Rattle.hx_store.specs.Invariant.{IsLateStore, order_of, rooms_in, states_in};

    ghost Value = { StoreState };

    ghost view = { λ s. record { region = s.region; keeps_marks = s.keeps_marks; attributes = length s.slots.index.orders; states = states_in s.slots.entries (order_of s.slots.entries); rooms = rooms_in s.slots.entries; ordered = nat_eq s.sorted (length s.order.items) } };

    ghost invariant = { λ s. IsLateStore s.region s.keeps_marks s.slots.entries s.order.items s.sorted (vec_capacity s.order) };
}

impl Store {
    /// The store of a region of a space, of which nothing was heard. Its slots keep marks and
    /// touches where `keeps_marks` says so, as those of key regions do. It fails with [`Memory`]
    /// alone.
    pub fn new(
        alloc: Global,
        space: &Space,
        region: RegionId,
        keeps_marks: bool,
    ) -> Result<Store, Memory>
        requires { length space.now.attributes ≤ MOST_ATTRIBUTES }
        ensures { IfOk result (λ store. store ≡ record { region = region; keeps_marks = keeps_marks; attributes = length space.now.attributes + 1; states = []; rooms = []; ordered = true }) }
    {
        let slots = Slots::new(alloc, space.attributes.len() as u32)?;
        Ok(Store {
            region,
            keeps_marks,
            slots,
            order: Vec::new(alloc),
            sorted: 0,
        })
    }

    /// The place of a key, or `None` where the store has never heard of it.
    pub fn place_of(&self, key: &Text) -> Option<usize>
        ensures some { IfSome result (λ place. IsPlace self.now place key.now) }
        ensures none { IfNone result (has_room self.now key.now ≡ false) }
    {
        self.slots.place_of(key)
    }

    /// The slot at a place: where none is part of the store yet, an empty one.
    pub fn slot_at(&self, place: usize) -> &Slot
        requires { place < length self.now.rooms }
        ensures state { result.now.state ≡ state_at self.now (key_at self.now place) }
        ensures region { result.now.region ≡ self.now.region }
        ensures spare { result.now.spare ≡ spare_at self.now place }
    {
        self.slots.slot_at(place)
    }

    /// The slot of a key, or `None` where the key has none.
    pub fn slot(&self, key: &Text) -> Option<&Slot>
        ensures found { is_some result ≡ has_slot key.now self.now.states }
        ensures state { IfSome result (λ slot. slot.now.state ≡ state_at self.now key.now) }
        ensures region { IfSome result (λ slot. slot.now.region ≡ self.now.region) }
    {
        let Some(place) = self.slots.place_of(key) else {
            return None;
        };
        if self.slots.is_listed(place) {
            Some(self.slots.slot_at(place))
        } else {
            None
        }
    }

    /// How many slots there are.
    pub fn len(&self) -> usize
        ensures count { result ≡ length self.now.states }
        ensures ascend { KeysAscend self.now.states }
    {
        self.order.len()
    }

    /// The slot with this number from 0, in byte order of keys.
    pub fn nth(&self, i: usize) -> Option<&Slot>
        requires { self.now.ordered ≡ true }
        ensures state { option_map (λ (b : Bor SlotState). b.now.state) result ≡ slice_get self.now.states i }
        ensures region { IfSome result (λ slot. slot.now.region ≡ self.now.region) }
        ensures marks { IfSome result (λ slot. slot.now.state.marks ≡ self.now.keeps_marks) }
        ensures ascend { KeysAscend self.now.states }
    {
        match self.order.get(i) {
            Some(place) => Some(self.slots.slot_at(*place)),
            None => None,
        }
    }

    /// The committed objects of which every term holds, in byte order of their slots' keys: what a
    /// search finds in the region, as in HyperDex. Where each slot's object is of its key, as in
    /// every run, that is the order of the objects' own keys too. It goes through the objects that
    /// meet the term which fewest meet, looks at each once, and counts each look at an object. The
    /// store stays, whatever comes.
    ///
    /// Its index is brought up to date first, which is not counted: for each slot that came or was
    /// changed since the last search two binary searches in each order whose value is another one.
    /// What many slots match is put in order by a walk over the slots' order, which is not counted
    /// either.
    ///
    /// # Errors
    ///
    /// [`Memory`] alone.
    pub fn find(&mut self, alloc: Global, terms: &Terms, looks: &mut u64) -> Result<Rows, Memory>
        ensures rows { IfOk result (λ rows. rows ≡ found_in self.old.region terms.now self.old.states) }
        ensures ascend { KeysAscend self.old.states }
        ensures keys { AllByRecursion (HasOwnRow self.old.region) self.old.states → IfOk result RowsAscend }
        ensures counted { looks.old ≤ looks.new }
        ensures looks { looks.new ≤ looks.old + most_looks_at self.old.attributes (rows_of self.old.region self.old.states) terms.now }
        ensures each { IfOk result (λ rows. 0 < self.old.attributes → HaveCounted (least_looks_at self.old.attributes (rows_of self.old.region self.old.states) terms.now) looks.old looks.new) }
        ensures stays { self.new ≡ record self.old { ordered = true } }
    {
        self.sort_order();
        self.slots.refresh(alloc)?;
        let places = self.slots.find(alloc, terms, looks, self.order.as_slice())?;
        self.slots.rows(alloc, places.as_slice())
    }

    /// The committed state of each key of which something is committed, in byte order of keys. With
    /// the pending updates it is all that a joiner needs; that is this project's choice. It fails
    /// with [`Memory`] alone.
    pub fn snapshot(&self, alloc: Global) -> Result<Snapshot, Memory>
        requires { self.now.ordered ≡ true }
        ensures states { IfOk result (λ snapshot. snapshot ≡ snapshot_of self.now.region self.now.states) }
        ensures ascend { IfOk result KeptsAscend }
        ensures orderly { IfOk result (All IsOrderly) }
    {
        let mut snapshot = Snapshot::new(alloc);
        for i in 0..self.len() {
            match self.nth(i) {
                Some(slot) => add_kept(alloc, slot, &mut snapshot)?,
                // There are more than i slots.
                None => unreachable!(),
            }
        }
        Ok(snapshot)
    }

    /// The pending updates: those of each key in byte order of keys, the lowest version first. It
    /// fails with [`Memory`] alone.
    pub fn pending(&self, alloc: Global) -> Result<Updates, Memory>
        requires { self.now.ordered ≡ true }
        ensures { IfOk result (λ updates. updates ≡ pending_of_all self.now.states) }
    {
        let mut updates = Updates::new(alloc);
        for i in 0..self.len() {
            match self.nth(i) {
                Some(slot) => add_pending(alloc, slot, &mut updates)?,
                // There are more than i slots.
                None => unreachable!(),
            }
        }
        Ok(updates)
    }

    /// Gives a key a place, and makes room for n more updates there. The slots stay, whatever
    /// comes. It fails with [`Memory`] alone.
    pub fn reserve(&mut self, alloc: Global, key: &Text, n: u32) -> Result<usize, Memory>
        ensures region { self.new.region ≡ self.old.region }
        ensures marks { self.new.keeps_marks ≡ self.old.keeps_marks }
        ensures attributes { self.new.attributes ≡ self.old.attributes }
        ensures states { self.new.states ≡ self.old.states }
        ensures ordered { self.new.ordered ≡ self.old.ordered }
        ensures rooms { KeepsRooms self.old.rooms self.new.rooms }
        ensures place { IfOk result (λ place. IsPlace self.new place key.now) }
        ensures room { IfOk result (λ place. n ≤ spare_at self.new place) }
    {
        let place = self.give_place(alloc, key)?;
        self.widen(alloc, place, n)?;
        Ok(place)
    }

    /// Gives a key a slot, which is empty where it had none, and tells its place. It fails with
    /// [`Memory`] alone, and then the slots stay.
    pub fn ensure(&mut self, alloc: Global, key: &Text) -> Result<usize, Memory>
        ensures region { self.new.region ≡ self.old.region }
        ensures marks { self.new.keeps_marks ≡ self.old.keeps_marks }
        ensures attributes { self.new.attributes ≡ self.old.attributes }
        ensures states { OnOk result (self.new.states ≡ after_step self.old key.now no_moves) }
        ensures stays { OnErr result (self.new.states ≡ self.old.states) }
        ensures rooms { KeepsRooms self.old.rooms self.new.rooms }
        ensures place { IfOk result (λ place. IsPlace self.new place key.now) }
        ensures ordered { has_slot key.now self.old.states ≡ true → self.new.ordered ≡ self.old.ordered }
    {
        let place = self.give_place(alloc, key)?;
        self.ensure_slot(place);
        Ok(place)
    }

    /// Gives a key a place where it has none.
    fn give_place(&mut self, alloc: Global, key: &Text) -> Result<usize, Memory>
        ensures region { self.new.region ≡ self.old.region }
        ensures marks { self.new.keeps_marks ≡ self.old.keeps_marks }
        ensures attributes { self.new.attributes ≡ self.old.attributes }
        ensures states { self.new.states ≡ self.old.states }
        ensures ordered { self.new.ordered ≡ self.old.ordered }
        ensures rooms { KeepsRooms self.old.rooms self.new.rooms }
        ensures place { IfOk result (λ place. IsPlace self.new place key.now) }
    {
        if let Some(place) = self.slots.place_of(key) {
            return Ok(place);
        }
        let place = self.slots.len();
        self.order.reserve(place + 1 - self.order.len())?;
        self.slots.add(alloc, self.region, self.keeps_marks, key)?;
        Ok(place)
    }

    /// Makes room for n more updates at a place.
    fn widen(&mut self, alloc: Global, place: usize, n: u32) -> Result<(), Memory>
        requires { place < length self.old.rooms }
        ensures region { self.new.region ≡ self.old.region }
        ensures marks { self.new.keeps_marks ≡ self.old.keeps_marks }
        ensures attributes { self.new.attributes ≡ self.old.attributes }
        ensures states { self.new.states ≡ self.old.states }
        ensures ordered { self.new.ordered ≡ self.old.ordered }
        ensures rooms { KeepsRooms self.old.rooms self.new.rooms }
        ensures room { OnOk result (n ≤ spare_at self.new place) }
    {
        self.slots.reserve_at(alloc, place, n)
    }

    /// The key at a place has a slot from now on. A new slot goes to the end of the order, from
    /// where [`Store::sort_order`] puts it where it belongs. It takes no memory.
    pub fn ensure_slot(&mut self, place: usize)
        requires { place < length self.old.rooms }
        ensures region { self.new.region ≡ self.old.region }
        ensures marks { self.new.keeps_marks ≡ self.old.keeps_marks }
        ensures attributes { self.new.attributes ≡ self.old.attributes }
        ensures states { self.new.states ≡ after_step self.old (key_at self.old place) no_moves }
        ensures ordered { has_slot (key_at self.old place) self.old.states ≡ true → self.new.ordered ≡ self.old.ordered }
        ensures rooms { self.new.rooms ≡ self.old.rooms }
    {
        if self.slots.is_listed(place) {
            return;
        }
        self.order.push_reserved(place);
        self.slots.list_at(place);
    }

    /// Puts the places that came since into byte order of keys: few of them one by one among those
    /// that stand in it, or else all are sorted. It takes no memory.
    pub fn sort_order(&mut self)
        ensures region { self.new.region ≡ self.old.region }
        ensures marks { self.new.keeps_marks ≡ self.old.keeps_marks }
        ensures attributes { self.new.attributes ≡ self.old.attributes }
        ensures states { self.new.states ≡ self.old.states }
        ensures rooms { self.new.rooms ≡ self.old.rooms }
        ensures ordered { self.new.ordered ≡ true }
    {
        if self.sorted == self.order.len() {
            return;
        }
        let came = self.order.len() - self.sorted;
        if came <= MOST_TO_INSERT && came <= self.sorted / SORTED_FOR_EACH {
            self.slots.insert_places(&mut self.order, self.sorted);
        } else {
            self.slots.sort_places(&mut self.order);
        }
        self.sorted = self.order.len();
    }

    /// The slot at a place is offered an update of its key, which has its place in the region at
    /// this number; then these versions, whose chain ends here, are acknowledged, and what can be
    /// committed is. It takes no memory.
    pub fn accept(&mut self, place: usize, update: Shared<Update>, number: u32, ends: &[Version])
        requires place { IsPlace self.old place update.key }
        requires room { 0 < spare_at self.old place }
        requires offer { CanBeOffered self.old.region update number }
        requires pending { ArePending (moved_all (offered self.old.region (state_at self.old update.key) update) (state_at self.old update.key)) ends.now }
        ensures region { self.new.region ≡ self.old.region }
        ensures marks { self.new.keeps_marks ≡ self.old.keeps_marks }
        ensures attributes { self.new.attributes ≡ self.old.attributes }
        ensures states { self.new.states ≡ after_step self.old update.key (accepted_at update ends.now) }
        ensures ordered { has_slot update.key self.old.states ≡ true → self.new.ordered ≡ self.old.ordered }
        ensures rooms { UsesRoom place self.old.rooms self.new.rooms }
    {
        self.ensure_slot(place);
        self.slots.accept_at(place, update, number, ends);
    }

    /// A version is acknowledged at a place, and what can be committed is. It takes no memory.
    pub fn acknowledge(&mut self, place: usize, version: Version)
        requires { place < length self.old.rooms }
        ensures region { self.new.region ≡ self.old.region }
        ensures marks { self.new.keeps_marks ≡ self.old.keeps_marks }
        ensures attributes { self.new.attributes ≡ self.old.attributes }
        ensures states { self.new.states ≡ after_step self.old (key_at self.old place) (acknowledged_at version.0) }
        ensures ordered { has_slot (key_at self.old place) self.old.states ≡ true → self.new.ordered ≡ self.old.ordered }
        ensures rooms { KeepsRooms self.old.rooms self.new.rooms }
    {
        self.ensure_slot(place);
        self.slots.acknowledge_at(place, version);
    }

    /// The place of the slot with this number from 0, in byte order of keys.
    pub fn place_at(&self, i: usize) -> usize
        requires number { i < length self.now.states }
        requires ordered { self.now.ordered ≡ true }
        ensures within { result < length self.now.rooms }
        ensures ascend { KeysAscend self.now.states }
        ensures slot { slice_get self.now.states i ≡ Some (state_at self.now (key_at self.now result)) }
    {
        self.order[i]
    }

    /// The slot at a place forgets which pending updates are acknowledged, and all early updates.
    /// It takes no memory.
    pub fn reset_acks(&mut self, place: usize)
        requires { place < length self.old.rooms }
        ensures region { self.new.region ≡ self.old.region }
        ensures marks { self.new.keeps_marks ≡ self.old.keeps_marks }
        ensures attributes { self.new.attributes ≡ self.old.attributes }
        ensures states { self.new.states ≡ after_step self.old (key_at self.old place) forgotten_at }
        ensures ordered { has_slot (key_at self.old place) self.old.states ≡ true → self.new.ordered ≡ self.old.ordered }
        ensures rooms { KeepsRooms self.old.rooms self.new.rooms }
    {
        self.ensure_slot(place);
        self.slots.reset_at(place);
    }

    /// A pending version is marked as acknowledged at a place, and nothing is committed. It takes
    /// no memory.
    pub fn mark_acknowledged(&mut self, place: usize, version: Version)
        requires place { place < length self.old.rooms }
        requires pending { is_pending version.0 (state_at self.old (key_at self.old place)) ≡ true }
        ensures region { self.new.region ≡ self.old.region }
        ensures marks { self.new.keeps_marks ≡ self.old.keeps_marks }
        ensures attributes { self.new.attributes ≡ self.old.attributes }
        ensures states { self.new.states ≡ after_step self.old (key_at self.old place) (marked_at version.0) }
        ensures ordered { has_slot (key_at self.old place) self.old.states ≡ true → self.new.ordered ≡ self.old.ordered }
        ensures rooms { KeepsRooms self.old.rooms self.new.rooms }
    {
        self.ensure_slot(place);
        self.slots.mark_at(place, version);
    }

    /// What can be committed at a place is. It takes no memory.
    pub fn settle(&mut self, place: usize)
        requires { place < length self.old.rooms }
        ensures region { self.new.region ≡ self.old.region }
        ensures marks { self.new.keeps_marks ≡ self.old.keeps_marks }
        ensures attributes { self.new.attributes ≡ self.old.attributes }
        ensures states { self.new.states ≡ after_step self.old (key_at self.old place) settled_at }
        ensures ordered { has_slot (key_at self.old place) self.old.states ≡ true → self.new.ordered ≡ self.old.ordered }
        ensures rooms { KeepsRooms self.old.rooms self.new.rooms }
    {
        self.ensure_slot(place);
        self.slots.settle_at(place);
    }

    /// Puts a slot at its key, in place of the one that is there. It fails with [`Memory`] alone,
    /// and then the slots stay.
    pub fn put_slot(&mut self, alloc: Global, slot: Slot) -> Result<(), Memory>
        requires region { slot.region ≡ self.old.region }
        requires marks { slot.state.marks ≡ self.old.keeps_marks }
        ensures region { self.new.region ≡ self.old.region }
        ensures marks { self.new.keeps_marks ≡ self.old.keeps_marks }
        ensures attributes { self.new.attributes ≡ self.old.attributes }
        ensures states { OnOk result (self.new.states ≡ with_state slot.state self.old.states) }
        ensures stays { OnErr result (self.new.states ≡ self.old.states) }
        ensures others { KeepsOtherRooms slot.state.base.key self.old.rooms self.new.rooms }
    {
        let _ = self.give_place(alloc, slot.key())?;
        self.put_ready(slot);
        Ok(())
    }

    /// Puts a slot at its key, which has a place, in place of the one that is there. It takes no
    /// memory.
    fn put_ready(&mut self, slot: Slot)
        requires { IsReady self.old slot }
        ensures region { self.new.region ≡ self.old.region }
        ensures marks { self.new.keeps_marks ≡ self.old.keeps_marks }
        ensures attributes { self.new.attributes ≡ self.old.attributes }
        ensures states { self.new.states ≡ with_state slot.state self.old.states }
        ensures others { KeepsOtherRooms slot.state.base.key self.old.rooms self.new.rooms }
    {
        let Some(place) = self.place_of(slot.key()) else {
            // The slot's key has a place.
            unreachable!()
        };
        self.ensure_slot(place);
        self.slots.replace_at(place, slot);
    }

    /// Installs a snapshot in a store without slots: afterwards it has exactly those of the
    /// snapshot, with nothing pending, and marks and touches only where it keeps them. The room of
    /// their keys begins anew, and no other falls. Where there is no memory it stays without slots,
    /// and no room falls.
    pub fn install(&mut self, alloc: Global, snapshot: &Snapshot) -> Result<(), Memory>
        requires empty { self.old.states ≡ [] }
        requires ascend { KeptsAscend snapshot.now }
        requires orderly { All IsOrderly snapshot.now }
        ensures region { self.new.region ≡ self.old.region }
        ensures marks { self.new.keeps_marks ≡ self.old.keeps_marks }
        ensures attributes { self.new.attributes ≡ self.old.attributes }
        ensures states { OnOk result (self.new.states ≡ map (state_from self.old.keeps_marks) snapshot.now) }
        ensures stays { OnErr result (self.new.states ≡ self.old.states) }
        ensures rooms { OnErr result (KeepsRooms self.old.rooms self.new.rooms) }
        ensures others { KeepsRoomsBut (has_kept snapshot.now) self.old.rooms self.new.rooms }
    {
        let slots = self.slots_of(alloc, snapshot)?;
        self.put_all(slots);
        Ok(())
    }

    /// The slots of a snapshot, each of whose keys has a place then.
    fn slots_of(&mut self, alloc: Global, snapshot: &Snapshot) -> Result<VecDeque<Slot>, Memory>
        requires { All IsOrderly snapshot.now }
        ensures region { self.new.region ≡ self.old.region }
        ensures marks { self.new.keeps_marks ≡ self.old.keeps_marks }
        ensures attributes { self.new.attributes ≡ self.old.attributes }
        ensures states { self.new.states ≡ self.old.states }
        ensures rooms { KeepsRooms self.old.rooms self.new.rooms }
        ensures slots { IfOk result (λ slots. states_of slots.items ≡ map (state_from self.old.keeps_marks) snapshot.now) }
        ensures ready { IfOk result (λ slots. AllByRecursion (IsReady self.new) slots.items) }
    {
        let mut slots = VecDeque::new(alloc);
        for kept in snapshot.as_slice() {
            let _ = self.give_place(alloc, &kept.key)?;
            let slot = Slot::of_kept(alloc, self.region, kept.copy(alloc)?, self.keeps_marks);
            slots.push_back(slot)?;
        }
        Ok(slots)
    }

    /// Puts slots in byte order of keys, each of whose keys has a place, in a store without slots.
    fn put_all(&mut self, mut slots: VecDeque<Slot>)
        requires empty { self.old.states ≡ [] }
        requires ascend { KeysAscend (states_of slots.items) }
        requires ready { AllByRecursion (IsReady self.old) slots.items }
        ensures region { self.new.region ≡ self.old.region }
        ensures marks { self.new.keeps_marks ≡ self.old.keeps_marks }
        ensures attributes { self.new.attributes ≡ self.old.attributes }
        ensures states { self.new.states ≡ states_of slots.items }
        ensures others { KeepsRoomsBut (is_key_of slots.items) self.old.rooms self.new.rooms }
    {
        'places: while let Some(slot) = slots.pop_front() {
            self.put_ready(slot);
        }
    }
}
