ghost use Rattle.std.specs.Prelude.{◌≡◌, ℕ, ◌+◌, ◌^◌, ◌<◌, ◌≤◌, ◌==◌, [], IfErr, IfOk, IfSome, IsTrue, OnOk, is_some, length, nat_lt, true, slice_get, vec_capacity, vec_len};
ghost use Rattle.std.specs.List.{All, AllByRecursion, find, list_any};
ghost use Rattle.std.specs.Option.{option_copied};
ghost use Rattle.hx_law_folds.specs.Folding.{IsBare, IsSlotOf, StandsFor, folded};
ghost use Rattle.hx_model.specs.Places.{touched_in};
ghost use Rattle.hx_model.specs.Neighbours.{place_number};
ghost use Rattle.hx_model.specs.ServerSteps.{state_from};
ghost use Rattle.hx_model.specs.Slots.{Acknowledge, Forget, Hold, KeyState, Take, ack_answer, acknowledged, follows, is_pending, latest_of, mark_of, moved, moved_all, new_state, object_of, offer_answer, offered, pending_of, settled, state_of_kept, taken, top_of, touches_of, turns};
ghost use Rattle.hx_slot.specs.Updates.{IsHeld, row_seen};
ghost use Rattle.hx_slot.specs.Rooms.{IsGrown};
ghost use Rattle.hx_slot.specs.States.{HasFewPlaces, IsHeldUp, IsLater, IsOrderly, IsPlacedIn, IsSettledInto, accepted_count, call_at, call_seen, committed_count, committed_state, object_at, object_seen};
ghost use Rattle.hx_model.specs.Types.{Answer, Place, Touch as Touched, Update, Version};

use crate::ack_order::AckOrder;
use crate::acks::{
    acknowledged_front, acknowledged_with, forget_acks, has_update, is_acknowledged, place_of,
    waits_below,
};
use crate::bases::Base;
use crate::early::{drop_version, early_after, early_at};
use crate::line::{
    RowRef, copy_row, last_version, only_object, rest_of, row_over, update_at, version_and_object,
};
use crate::marks::{mark_of, marks_over, newer, newest_of};
use crate::renewing::{renewed_base, renewed_line};
use crate::rooms::grow;
use crate::touches::{last_touch, touches_over};
use crate::updates::{AcceptedUpdate, PlacedUpdate};
use hx_types::{
    Acked, Answer, Exact, Kept, Marks, Memory, Object, Offer, RegionId, SessionId, Shared, Text,
    Touches, Update, Version,
};
use std::alloc::Global;
use std::marker::Model;

/// The state of one key at one replica of a region.
pub struct Slot {
    region: RegionId,
    /// For how many offers there is room.
    spare: u32,
    keeps_marks: bool,
    key: Text,
    /// What the committed updates left.
    base: Base,
    /// The updates accepted since, the oldest first.
    accepted: Vec<AcceptedUpdate>,
    /// How many of them are committed: those for whose marks and touches the base has no room yet,
    /// and after one that found a count of owners full.
    committed: usize,
    /// The version of the last committed one, or that of the base.
    floor: Version,
    /// In which order the acknowledged pending versions were acknowledged.
    acked: AckOrder,
    /// The updates that came before their turn, in the order of their coming.
    early: Vec<PlacedUpdate>,
}

impl Drop for Slot {
    fn drop(self) {
        let Slot {
            region: _,
            spare: _,
            keeps_marks: _,
            key: _,
            base: _,
            accepted: _,
            committed: _,
            floor: _,
            acked: _,
            early: _,
        } = self;
    }
}

impl Model for Slot {
    ghost use Rattle.hx_slot.specs.Updates.{IsHeld};
    ghost use Rattle.hx_slot.specs.Rooms.{IsGrown};
    ghost use Rattle.hx_slot.specs.States.{SlotState};

    ghost Value = { SlotState };

    ghost use Rattle.hx_slot.specs.Invariant.{IsSlot, seen};

    ghost view = { seen };

    ghost invariant = { IsSlot };
}

impl Slot {
    /// A slot of the key with floor 0, no object and no room. At a key region it keeps marks and
    /// touches.
    pub fn new(alloc: Global, region: RegionId, key: Text, keeps_marks: bool) -> Slot
        ensures region { result.region ≡ region }
        ensures state { result.state ≡ new_state keeps_marks key }
        ensures held { result.held ≡ 0 }
    {
        let base = Kept {
            key,
            floor: Version(0),
            object: None,
            marks: Marks::new(alloc),
            touches: Touches::new(alloc),
        };
        Slot::over(alloc, region, base, keeps_marks)
    }

    /// A slot of a committed state, with nothing pending and no room. Where it keeps no marks,
    /// those of the state are left out with its touches.
    pub fn of_kept(alloc: Global, region: RegionId, kept: Kept, keeps_marks: bool) -> Slot
        requires { IsOrderly kept }
        ensures region { result.region ≡ region }
        ensures state { result.state ≡ state_from keeps_marks kept }
        ensures held { result.held ≡ 0 }
    {
        if keeps_marks {
            return Slot::over(alloc, region, kept, keeps_marks);
        }
        Slot::over(alloc, region, without_marks(alloc, kept), keeps_marks)
    }

    /// A slot over this base as it is, with nothing pending and no room.
    fn over(alloc: Global, region: RegionId, base: Kept, keeps_marks: bool) -> Slot
        requires orderly { IsOrderly base }
        requires bare { IsBare region (state_of_kept keeps_marks base) }
        ensures region { result.region ≡ region }
        ensures state { result.state ≡ state_of_kept keeps_marks base }
        ensures held { result.held ≡ 0 }
    {
        let floor = base.floor;
        Slot {
            region,
            spare: 0,
            keeps_marks,
            key: base.key,
            base: Base {
                floor,
                object: base.object,
                marks: base.marks.into_vec(),
                touches: base.touches.into_vec(),
            },
            accepted: Vec::new(alloc),
            committed: 0,
            floor,
            acked: AckOrder::new(),
            early: Vec::new(alloc),
        }
    }

    /// The region of the slot.
    pub fn region(&self) -> RegionId
        ensures { result ≡ self.now.region }
    {
        self.region
    }

    /// The key of the slot.
    pub fn key(&self) -> &Text
        ensures { result.now ≡ self.now.state.base.key }
    {
        &self.key
    }

    /// Whether the slot keeps marks and touches.
    pub fn keeps_marks(&self) -> bool
        ensures { result ≡ self.now.state.marks }
    {
        self.keeps_marks
    }

    /// For how many offers there is room.
    pub fn spare(&self) -> u32
        ensures { result ≡ self.now.spare }
    {
        self.spare
    }

    /// The highest committed version, or 0.
    pub fn floor(&self) -> Version
        ensures floor { result.0 ≡ self.now.state.floor }
        ensures below { result.0 ≤ top_of self.now.state }
    {
        self.floor
    }

    /// The highest accepted version, or the floor.
    pub fn top(&self) -> Version
        ensures top { result.0 ≡ top_of self.now.state }
        ensures above { self.now.state.floor ≤ result.0 }
        ensures touches { All (λ (t : Touched). t.version.0 ≤ result.0) (touches_of self.now.state) }
    {
        last_version(self.base.floor, self.accepted.as_slice())
    }

    /// The object after all committed updates, with the last of their versions that changed it.
    pub fn object(&self) -> Option<(Version, &Object)>
        ensures object { object_seen result ≡ object_at (object_of self.now.region self.now.state) }
    {
        version_and_object(row_over(self.base.object.as_ref(), &self.accepted[..self.committed]))
    }

    /// The object after all committed updates as a row: its key, the last of their versions that
    /// changed it, and its values.
    pub fn row(&self) -> Option<RowRef<'_>>
        ensures { row_seen result ≡ object_of self.now.region self.now.state }
    {
        row_over(self.base.object.as_ref(), &self.accepted[..self.committed])
    }

    /// A copy of the committed state, or `None` where nothing is committed. It fails with
    /// [`Memory`] alone.
    pub fn kept(&self, alloc: Global) -> Result<Option<Kept>, Memory>
        ensures kept { IfOk result (λ kept. kept ≡ committed_state self.now.region self.now.state) }
        ensures orderly { IfOk result (λ kept. IfSome kept IsOrderly) }
    {
        if self.floor.0 == 0 {
            return Ok(None);
        }
        let line = &self.accepted[..self.committed];
        let row = row_over(self.base.object.as_ref(), line);
        Ok(Some(Kept {
            key: self.key.copy(alloc)?,
            floor: self.floor,
            object: copy_row(alloc, row)?,
            marks: marks_over(alloc, self.keeps_marks, &self.base.marks, line)?,
            touches: touches_over(alloc, self.keeps_marks, &self.base.touches, line)?,
        }))
    }

    /// How many committed updates aren't in the base. There are some only where marks and touches
    /// are kept, until room was made for them, and where a count of owners was full when they were
    /// to go there.
    pub fn held_count(&self) -> u32
        ensures { result ≡ self.now.held }
    {
        self.committed as u32
    }

    /// The committed state, or `None` where nothing is committed; all else of the slot is dropped.
    /// The slot comes back exactly where a committed update still can't go into the base, since
    /// there is no memory for its mark and its touches or a count of owners is full; it is as it
    /// was.
    pub fn into_kept(mut self) -> Result<Option<Kept>, Slot>
        ensures kept { IfOk result (λ kept. kept ≡ committed_state self.region self.state) }
        ensures orderly { IfOk result (λ kept. IfSome kept IsOrderly) }
        ensures back { IfErr result (IsHeldUp self) }
    {
        self.fold_all();
        if self.committed > 0 {
            return Err(self);
        }
        if self.floor.0 == 0 {
            return Ok(None);
        }
        let Slot {
            region: _,
            spare: _,
            keeps_marks: _,
            key,
            base,
            accepted: _,
            committed: _,
            floor,
            acked: _,
            early: _,
        } = self;
        Ok(Some(Kept {
            key,
            floor,
            object: base.object,
            marks: Marks::from_vec(base.marks),
            touches: Touches::from_vec(base.touches),
        }))
    }

    /// A copy of the slot that has forgotten the acknowledgements of pending updates and all early
    /// updates. It has no room. It fails with [`Memory`] alone.
    pub fn renewed(&self, alloc: Global) -> Result<Slot, Memory>
        ensures state { IfOk result (λ slot. slot.state ≡ moved Forget self.now.state) }
        ensures region { IfOk result (λ slot. slot.region ≡ self.now.region) }
        ensures held { IfOk result (λ slot. slot.held ≡ self.now.held) }
    {
        let line = self.accepted.as_slice();
        let accepted = renewed_line(alloc, line)?;
        Ok(Slot {
            region: self.region,
            spare: 0,
            keeps_marks: self.keeps_marks,
            key: self.key.copy(alloc)?,
            base: renewed_base(alloc, &self.base)?,
            accepted,
            committed: self.committed,
            floor: self.floor,
            acked: AckOrder::new(),
            early: Vec::new(alloc),
        })
    }

    /// The object after all accepted updates.
    pub fn latest(&self) -> Option<&Object>
        ensures { option_copied result ≡ latest_of self.now.region self.now.state }
    {
        only_object(row_over(self.base.object.as_ref(), self.accepted.as_slice()))
    }

    /// Whether an update is pending. Versions of a slot's updates ascend, and the floor is one of
    /// them or that of the base.
    pub fn has_pending(&self) -> bool
        ensures pending { result ≡ nat_lt 0 (length (pending_of self.now.state)) }
        ensures slot { IsSlotOf self.now.region self.now.state }
    {
        self.committed < self.accepted.len()
    }

    /// How many updates are pending.
    pub fn pending_count(&self) -> u32
        ensures { result ≡ length (pending_of self.now.state) }
    {
        (self.accepted.len() - self.committed) as u32
    }

    /// The pending update with this number from 0, the lowest version first.
    pub fn pending(&self, i: u32) -> Option<&Shared<Update>>
        ensures pending { option_copied result ≡ slice_get (pending_of self.now.state) i }
        ensures version { IfSome (option_copied result)
            (λ (u : Update). (self.now.state.floor < u.version.0) × (u.version.0 ≤ top_of self.now.state)) }
        ensures place { IfSome (option_copied result) (IsPlacedIn self.now.region) }
        ensures few { IfSome (option_copied result) HasFewPlaces }
    {
        let pending = rest_of(self.accepted.as_slice(), self.committed);
        update_at(pending, i as usize)
    }

    /// The highest call number of the session among all accepted updates, with the version and
    /// the answer of that call.
    pub fn mark(&self, session: SessionId) -> Option<(u32, Version, &Answer)>
        requires { IsTrue self.now.state.marks }
        ensures mark { call_seen result ≡ call_at (mark_of session self.now.state) }
        ensures below { IfSome (call_seen result) (λ (c : ℕ × Version × Answer). c.1.0 ≤ top_of self.now.state) }
    {
        let newest = newest_of(self.accepted.as_slice(), session);
        newer(newest, mark_of(self.base.marks.as_slice(), session))
    }

    /// The last accepted version that has a place in the region, or 0.
    pub fn touched(&self, region: RegionId) -> Version
        requires { IsTrue self.now.state.marks }
        ensures touched { result.0 ≡ touched_in region (touches_of self.now.state) }
        ensures below { result.0 ≤ top_of self.now.state }
    {
        last_touch(
            self.accepted.as_slice(),
            self.base.touches.as_slice(),
            region,
        )
    }

    /// Makes room for n offers, none of which then takes memory, and in the base for what the
    /// updates that are here leave there. A slot holds fewer than 4,294,967,295 updates; where it
    /// would hold more, that is [`Memory`] too.
    pub fn reserve(&mut self, _alloc: Global, n: u32) -> Result<(), Memory>
        ensures region { self.new.region ≡ self.old.region }
        ensures state { self.new.state ≡ self.old.state }
        ensures room { OnOk result (n ≤ self.new.spare) }
        ensures spare { self.old.spare ≤ self.new.spare }
        ensures held { self.new.held ≡ self.old.held }
    {
        if n <= self.spare {
            return Ok(());
        }
        let coming = self.early.len() + n as usize;
        if self.accepted.len() + coming >= u32::MAX as usize {
            return Err(Memory);
        }
        let beside = self.room_beside();
        make_room(
            &mut self.accepted,
            coming + beside,
            &mut self.early,
            n as usize,
        )?;
        self.base
            .reserve(self.keeps_marks, self.accepted.as_slice())?;
        self.spare = n;
        Ok(())
    }

    /// How many updates came before their turn.
    pub fn early_count(&self) -> u32
        ensures { result ≡ length self.now.state.early }
    {
        self.early.len() as u32
    }

    /// The early update with this number from 0, in the order of their coming.
    pub fn early(&self, i: u32) -> Option<&Shared<Update>>
        ensures early { option_copied result ≡ slice_get self.now.state.early i }
        ensures place { IfSome (option_copied result) (IsPlacedIn self.now.region) }
        ensures few { IfSome (option_copied result) HasFewPlaces }
    {
        early_at(self.early.as_slice(), i as usize)
    }

    /// The early update whose turn comes after this version.
    pub fn next_early(&self, top: Version) -> Option<&Shared<Update>>
        ensures turn { option_copied result ≡ find (follows self.now.region top.0) self.now.state.early }
        ensures later { IfSome (option_copied result) (λ (u : Update). top.0 < u.version.0) }
        ensures place { IfSome (option_copied result) (IsPlacedIn self.now.region) }
        ensures few { IfSome (option_copied result) HasFewPlaces }
    {
        match early_after(self.early.as_slice(), top) {
            Some(place) => Some(&self.early[place].update),
            None => None,
        }
    }

    /// Takes an update in. It is `Known` up to the top, `Early` where its turn hasn't come, and is
    /// then held, once; else it is accepted, with the early updates whose turn has then come. It
    /// takes no memory.
    ///
    /// That an update is held until its predecessor has come is HyperDex's.
    pub fn offer(&mut self, update: Shared<Update>, place: u32) -> Offer
        requires spare { 0 < self.old.spare }
        requires place { place ≡ place_number self.old.region update.places }
        requires placed { IsPlacedIn self.old.region update }
        requires after { All (λ (p : Place). p.after.0 < update.version.0) update.places }
        requires few { HasFewPlaces update }
        ensures answer { result ≡ offer_answer self.old.region self.old.state update }
        ensures state { self.new.state ≡ moved_all (offered self.old.region self.old.state update) self.old.state }
        ensures region { self.new.region ≡ self.old.region }
        ensures spare { self.old.spare ≤ self.new.spare + 1 }
        ensures held { self.new.held ≡ self.old.held }
        ensures stands { (s : KeyState) → StandsFor self.old.region self.old.state s → StandsFor self.new.region self.new.state (moved_all (offered self.old.region s update) s) }
    {
        let top = self.top();
        if update.version.0 <= top.0 {
            return Offer::Known;
        }
        let place = update.places.as_slice()[place as usize];
        let placed = PlacedUpdate {
            update,
            after: place.after,
            keeps: place.keeps,
        };
        if placed.after.0 != top.0 {
            self.hold(placed);
            return Offer::Early;
        }
        let most = self.early.len() as u32;
        self.accept(placed);
        Offer::Accepted(1 + self.accept_early(most))
    }

    /// How many updates an offer would make pending: 0 where it is known or early.
    pub fn would_accept(&self, update: &Update, place: u32) -> u32
        requires place { place ≡ place_number self.now.region update.now.places }
        requires placed { IsPlacedIn self.now.region update.now }
        ensures { result ≡ accepted_count (offer_answer self.now.region self.now.state update.now) }
    {
        let top = self.top();
        if update.version.0 <= top.0 {
            return 0;
        }
        if update.places.as_slice()[place as usize].after.0 != top.0 {
            return 0;
        }
        1 + self.early_count_after(update.version)
    }

    /// Whether the version is pending.
    pub fn is_pending(&self, version: Version) -> bool
        ensures { result ≡ is_pending version.0 self.now.state }
    {
        let pending = rest_of(self.accepted.as_slice(), self.committed);
        has_update(pending, version)
    }

    /// Whether the version is pending and acknowledged.
    pub fn is_acknowledged(&self, version: Version) -> bool
        ensures { result ≡ list_any (λ v. v == version.0) self.now.state.acked }
    {
        let pending = rest_of(self.accepted.as_slice(), self.committed);
        is_acknowledged(pending, version)
    }

    /// Takes an acknowledgement in. It is `Unknown` where the version isn't pending, `Kept` where a
    /// lower pending version isn't acknowledged, and else commits the lowest pending updates, as
    /// far as they are acknowledged. It takes no memory.
    ///
    /// That a replica commits when the acknowledgement comes back is chain replication's.
    pub fn ack(&mut self, version: Version) -> Acked
        ensures answer { result ≡ ack_answer self.old.state version.0 }
        ensures state { self.new.state ≡ folded self.old.region (moved_all (acknowledged self.old.state version.0) self.old.state) }
        ensures region { self.new.region ≡ self.old.region }
        ensures spare { self.old.spare ≤ self.new.spare }
        ensures held { self.new.held ≤ self.old.held + committed_count result }
        ensures stands { (s : KeyState) → StandsFor self.old.region self.old.state s → StandsFor self.new.region self.new.state (moved_all (acknowledged s version.0) s) }
    {
        let pending = rest_of(self.accepted.as_slice(), self.committed);
        if !has_update(pending, version) {
            return Acked::Unknown;
        }
        let waits = waits_below(pending, version);
        self.acknowledge(version);
        if waits {
            return Acked::Kept;
        }
        Acked::Committed(self.settle())
    }

    /// How many updates an acknowledgement would commit: 0 where it is unknown or kept.
    pub fn would_commit(&self, version: Version) -> u32
        ensures { result ≡ committed_count (ack_answer self.now.state version.0) }
    {
        let pending = rest_of(self.accepted.as_slice(), self.committed);
        if !has_update(pending, version) {
            return 0;
        }
        if waits_below(pending, version) {
            return 0;
        }
        acknowledged_with(pending, version) as u32
    }

    /// Marks a pending version as acknowledged, and commits nothing. It takes no memory.
    pub fn acknowledge(&mut self, version: Version)
        requires pending { is_pending version.0 self.old.state ≡ true }
        ensures state { self.new.state ≡ moved (Acknowledge version.0) self.old.state }
        ensures region { self.new.region ≡ self.old.region }
        ensures spare { self.old.spare ≤ self.new.spare }
        ensures held { self.new.held ≡ self.old.held }
        ensures stands { (s : KeyState) → StandsFor self.old.region self.old.state s → StandsFor self.new.region self.new.state (moved (Acknowledge version.0) s) }
    {
        let pending = rest_of(self.accepted.as_slice(), self.committed);
        let Some(place) = place_of(pending, version) else {
            // The version is pending.
            unreachable!()
        };
        self.accepted[self.committed + place].acknowledged = true;
        self.acked = self.acked.with(&version);
    }

    /// Commits the lowest pending updates, as far as they are acknowledged, and gives how many. It
    /// takes no memory.
    #[inline]
    pub fn settle(&mut self) -> u32
        ensures count { result ≡ length (settled self.old.state) }
        ensures state { self.new.state ≡ folded self.old.region (moved_all (settled self.old.state) self.old.state) }
        ensures region { self.new.region ≡ self.old.region }
        ensures spare { self.old.spare ≤ self.new.spare }
        ensures held { self.new.held ≤ self.old.held + result }
        ensures stands { (s : KeyState) → StandsFor self.old.region self.old.state s → StandsFor self.new.region self.new.state (moved_all (settled s) s) }
    {
        let pending = rest_of(self.accepted.as_slice(), self.committed);
        let count = acknowledged_front(pending);
        if self.committed + count == 0 {
            return 0;
        }
        self.commit(count);
        count as u32
    }

    /// For how many accepted updates there is to be room beside those that may come: where marks
    /// are kept, a committed update stays in the list until the next one is committed.
    fn room_beside(&self) -> usize
        ensures { result ≤ 1 }
    {
        if self.keeps_marks && self.accepted.is_empty() {
            return 1;
        }
        0
    }

    /// Commits so many of the lowest pending updates: all those up to the first that isn't
    /// acknowledged. It takes no memory.
    #[inline(never)]
    fn commit(&mut self, count: usize)
        requires { count ≡ length (settled self.old.state) }
        ensures state { self.new.state ≡ folded self.old.region (moved_all (settled self.old.state) self.old.state) }
        ensures region { self.new.region ≡ self.old.region }
        ensures spare { self.old.spare ≤ self.new.spare }
        ensures held { self.new.held ≤ self.old.held + count }
    {
        let pending = rest_of(self.accepted.as_slice(), self.committed);
        self.floor = last_version(self.floor, &pending[..count]);
        self.committed += count;
        self.acked = self.acked.above(&self.floor);
        self.fold();
    }

    /// Forgets the acknowledgements of pending updates and all early updates, in place. It takes no
    /// memory.
    pub fn reset_acks(&mut self)
        ensures state { self.new.state ≡ moved Forget self.old.state }
        ensures region { self.new.region ≡ self.old.region }
        ensures spare { self.old.spare ≤ self.new.spare }
        ensures held { self.new.held ≡ self.old.held }
        ensures stands { (s : KeyState) → StandsFor self.old.region self.old.state s → StandsFor self.new.region self.new.state (moved Forget s) }
    {
        self.acked = AckOrder::new();
        self.early.clear();
        forget_acks(&mut self.accepted, self.committed);
    }

    /// The committed updates go into the base, which gets room for their marks and their touches
    /// first. Where there is no memory for it, those that find no room stay.
    fn fold_all(&mut self)
        ensures { IsSettledInto self.old self.new }
    {
        let _ = self.widen();
        self.fold();
    }

    /// Makes room in the base for the marks and the touches of all accepted updates.
    fn widen(&mut self) -> Result<(), Memory>
        ensures { IsSettledInto self.old self.new }
    {
        self.base
            .reserve(self.keeps_marks, self.accepted.as_slice())
    }

    /// The committed updates go into the base, the lowest first, as far as they can.
    fn fold(&mut self)
        ensures { IsSettledInto self.old self.new }
    {
        for _ in 0..self.committed {
            if !self.fold_lowest() {
                return;
            }
        }
    }

    /// The lowest committed update goes into the base, if there is one, there is room for what it
    /// leaves there, and no count of owners is full.
    fn fold_lowest(&mut self) -> bool
        ensures { IsSettledInto self.old self.new }
    {
        if self.committed == 0 {
            return false;
        }
        let alloc = *self.accepted.allocator();
        let Ok(()) = self.base.fold(alloc, self.keeps_marks, &self.accepted[0]) else {
            return false;
        };
        self.accepted.remove(0);
        self.committed -= 1;
        true
    }

    /// How many early updates have their turns one after another from this version on.
    fn early_count_after(&self, top: Version) -> u32
        ensures count { result ≡ length (taken (turns self.now.region (length self.now.state.early) top.0 self.now.state.early)) }
        ensures small { result + 1 < 2 ^ 32 }
    {
        let most = self.early.len() as u32;
        let mut top = top;
        for count in 0..most {
            match self.next_early(top) {
                Some(update) => top = update.version,
                None => return count,
            }
        }
        most
    }

    /// Accepts the early updates whose turns come one after another, up to so many.
    fn accept_early(&mut self, most: u32) -> u32
        ensures count { result ≡ length (taken (turns self.old.region most (top_of self.old.state) self.old.state.early)) }
        ensures within { result ≤ most }
        ensures state { self.new.state ≡ moved_all (turns self.old.region most (top_of self.old.state) self.old.state.early) self.old.state }
        ensures region { self.new.region ≡ self.old.region }
        ensures spare { self.new.spare ≡ self.old.spare }
        ensures held { self.new.held ≡ self.old.held }
    {
        for count in 0..most {
            if !self.accept_next_early() {
                return count;
            }
        }
        most
    }

    /// Accepts the early update whose turn has come, if there is one.
    fn accept_next_early(&mut self) -> bool
        ensures found { result ≡ is_some (find (follows self.old.region (top_of self.old.state)) self.old.state.early) }
        ensures state { self.new.state ≡ moved_all (turns self.old.region 1 (top_of self.old.state) self.old.state.early) self.old.state }
        ensures later { AllByRecursion (IsLater self.old.region) self.old.state.early }
        ensures region { self.new.region ≡ self.old.region }
        ensures spare { self.new.spare ≡ self.old.spare }
        ensures held { self.new.held ≡ self.old.held }
    {
        let top = self.top();
        let Some(place) = early_after(self.early.as_slice(), top) else {
            return false;
        };
        let placed = self.early.remove(place);
        self.spare += 1;
        self.accept(placed);
        true
    }

    /// Accepts an update, of which no copy is held any more. It uses the room of one offer.
    fn accept(&mut self, placed: PlacedUpdate)
        requires spare { 0 < self.old.spare }
        requires held { IsHeld self.old.region placed }
        requires above { top_of self.old.state < placed.update.version.0 }
        ensures state { self.new.state ≡ moved (Take placed.update) self.old.state }
        ensures region { self.new.region ≡ self.old.region }
        ensures spare { self.new.spare + 1 ≡ self.old.spare }
        ensures held { self.new.held ≡ self.old.held }
    {
        let PlacedUpdate {
            update,
            after: _,
            keeps,
        } = placed;
        drop_version(&mut self.early, update.version);
        self.accepted.push_reserved(AcceptedUpdate {
            update,
            keeps,
            acknowledged: false,
        });
        self.spare -= 1;
    }

    /// Holds an update that came before its turn, in place of a copy of it. It uses the room of
    /// one offer.
    fn hold(&mut self, placed: PlacedUpdate)
        requires spare { 0 < self.old.spare }
        requires held { IsHeld self.old.region placed }
        ensures state { self.new.state ≡ moved (Hold placed.update) self.old.state }
        ensures region { self.new.region ≡ self.old.region }
        ensures spare { self.new.spare + 1 ≡ self.old.spare }
        ensures held { self.new.held ≡ self.old.held }
    {
        drop_version(&mut self.early, placed.update.version);
        self.early.push_reserved(placed);
        self.spare -= 1;
    }
}

/// The state without its marks and touches.
fn without_marks(alloc: Global, kept: Kept) -> Kept
    requires { IsOrderly kept }
    ensures kept { result ≡ record kept { marks = []; touches = [] } }
    ensures orderly { IsOrderly result }
{
    Kept {
        key: kept.key,
        floor: kept.floor,
        object: kept.object,
        marks: Marks::new(alloc),
        touches: Touches::new(alloc),
    }
}

/// Makes room for more of each list.
fn make_room(
    accepted: &mut Vec<AcceptedUpdate>,
    more_accepted: usize,
    early: &mut Vec<PlacedUpdate>,
    more_early: usize,
) -> Result<(), Memory>
    ensures accepted { IsGrown accepted.old accepted.new }
    ensures early { IsGrown early.old early.new }
    ensures accepted_room { OnOk result (vec_len accepted.new + more_accepted ≤ vec_capacity accepted.new) }
    ensures early_room { OnOk result (vec_len early.new + more_early ≤ vec_capacity early.new) }
{
    grow(accepted, more_accepted)?;
    grow(early, more_early)?;
    Ok(())
}
