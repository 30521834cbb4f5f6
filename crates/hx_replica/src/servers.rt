ghost use Rattle.std.specs.Prelude.{◌≡◌, ℕ, ◌<◌, ◌≤◌, List, IfOk, IfNone, IfSome, IsSomeAnd, OnOk, Some, false, is_some, length, map, nat_lt, slice_get, ◌+◌, ◌++◌, [], ◌∷◌};
ghost use Rattle.std.specs.List.{All};
ghost use Rattle.std.specs.Option.{option_map};
ghost use Rattle.hx_model.specs.Types.{Deliver, Input as Taken, Place, PostId};
ghost use Rattle.hx_types.specs.Configs.{first_config};
ghost use Rattle.hx_types.specs.Posted.{NameOnly};
ghost use Rattle.hx_types.specs.Posts.{IsSoundPost};
ghost use Rattle.hx_types.specs.Spaces.{IsConfigOf, IsServerOf, IsSpace};
ghost use Rattle.hx_types.specs.Subspaces.{is_key_region};
ghost use Rattle.hx_types.specs.Words.{provided, when_some};
ghost use Rattle.hx_types.specs.declared.limits.TheConstants.{MOST_PLACES};
ghost use Rattle.hx_law_folds.specs.Folding.{folded_server};
ghost use Rattle.hx_model.specs.ServerSteps.{Replica as ReplicaState, ServerState, acked, asked, called_by, context_of, halting, if_installed, install_at, listed_regions, message_step, poll_post, replica_for, replica_of, server_at_start, server_step, snapped, state_in, tick_step, updated};
ghost use Rattle.hx_model.specs.Slots.{found_in, new_state};
ghost use Rattle.hx_slot.specs.States.{IsPlacedIn};
ghost use Rattle.hx_replica.specs.Hearing.{leading};
ghost use Rattle.hx_replica.specs.Installing.{IsSnapshot};
ghost use Rattle.hx_replica.specs.Adopting.{lean_with_config};
ghost use Rattle.hx_replica.specs.Outputs.{context_seen};
ghost use Rattle.hx_replica.specs.Named.{known_to};
ghost use Rattle.hx_replica.specs.Replicas.{KeepAllRooms, KeepRegionRooms, first_replica, new_replica};
ghost use Rattle.hx_replica.specs.Sound.{IsSoundInput, IsSoundServer};
ghost use Rattle.hx_store.specs.Stores.{has_slot};
ghost use Rattle.hx_replica.specs.Plans.{AreRoomsAfter, AtReplica, CanHear, CanMake, HasRoomAt, IsChange, IsPlanOn};
ghost use Rattle.hx_replica.specs.Servers.{CanTake, HasSmallVersions};

use crate::adopting::post_adoption;
use crate::contexts::{SlotContext, place_at};
use crate::installing::installed;
use crate::keeping::keep_all;
use crate::outputs::SlotChange;
use crate::prepared::{Change, Plan, ask_newest, post_to_coordinator};
use crate::replicas::{
    Replica, change_slot, first_replicas, joined_replica, new_replicas, place_of, put_replica,
    sort_orders,
};
use crate::slot_steps::{call, offer, settle};
use crate::ticking::{post_ready, post_tick};
use hx_chain::{hears_snap, hears_update};
use hx_region::RegionMap;
use hx_rules::first_shared_config;
use hx_slot::Slot;
use hx_types::{
    Actor, Caller, Config, Entry, Epoch, Exact, Input, Memory, Message, Notes, Op, Post, Posts,
    RegionId, Rows, ServerId, Shared, Snapshot, Space, Terms, Text, Update, Updates, Version,
};
use std::alloc::Global;
use std::marker::Model;

/// A server (fail-stop, as in chain replication), with a replica of each region in which its
/// configuration lists it. Contracts see its space, its state as the definitions fold it, and for
/// how many updates it has room.
pub struct Server {
    id: ServerId,
    space: Space,
    map: RegionMap,
    config: Shared<Config>,
    halted: bool,
    replicas: Vec<Replica>,
}

/// The parts are let go here alone: who drops a server has nothing to prove of them.
impl Drop for Server {
    fn drop(self) {
        let Server {
            id: _,
            space: _,
            map: _,
            config: _,
            halted: _,
            replicas: _,
        } = self;
    }
}

impl Model for Server {
    ghost use Rattle.hx_replica.specs.Servers.{ServerValue};

    ghost Value = { ServerValue };

    ghost use Rattle.hx_replica.specs.Invariant.{IsServer, value_of};

    ghost view = { value_of };

    ghost invariant = { IsServer };
}

impl Server {
    /// The server of a number at the start: in the configuration of epoch 1, with an empty replica
    /// of each of its regions. All that it holds is of the space and exists. It fails with
    /// [`Memory`] alone.
    pub fn start(alloc: Global, space: &Space, id: ServerId) -> Result<Server, Memory>
        requires space { IsSpace space.now }
        requires server { IsServerOf space.now id }
        ensures space { IfOk result (λ server. server.space ≡ space.now) }
        ensures state { IfOk result (λ server. server.state ≡ server_at_start space.now id) }
        ensures sound { IfOk result (λ server. (sessions : ℕ) → IsSoundServer server.space sessions 0 server.state) }
    {
        let Ok(map) = RegionMap::new(alloc, space) else {
            return Err(Memory);
        };
        let Ok(config) = first_shared_config(alloc, space) else {
            return Err(Memory);
        };
        let Ok(replicas) = first_replicas(alloc, space, &config, map.regions(), id) else {
            return Err(Memory);
        };
        Server::with_parts(alloc, space, id, map, config, replicas)
    }

    /// The server of a number at the start, with these parts.
    fn with_parts(
        alloc: Global,
        space: &Space,
        id: ServerId,
        regions: RegionMap,
        config: Shared<Config>,
        replicas: Vec<Replica>,
    ) -> Result<Server, Memory>
        requires space { IsSpace space.now }
        requires regions { regions ≡ space.now }
        requires config { config ≡ first_config space.now }
        requires replicas { replicas.items ≡ map (first_replica space.now) (listed_regions config id) }
        ensures space { IfOk result (λ server. server.space ≡ space.now) }
        ensures state { IfOk result (λ server. server.state ≡ server_at_start space.now id) }
    {
        let space = space.copy(alloc)?;
        Ok(Server {
            id,
            space,
            map: regions,
            config,
            halted: false,
            replicas,
        })
    }

    /// Computes the step that this input makes, and takes all memory that it needs. Nothing but the
    /// room for further updates changes, and none falls. What the server posts names only the
    /// coordinator and actors that its configuration, its slots or the input name. Where all that
    /// the server holds and the post that it gets are of the space, exist and have no epoch and no
    /// version above a bound, that is so of what it posts, and no epoch and no version of it is
    /// above the bound by more than 1. On an error, which is [`Memory`] alone, the input is
    /// dropped.
    pub fn prepare(&mut self, alloc: Global, input: Input) -> Result<Plan, Memory>
        requires { CanTake self.old.space self.old.state input }
        ensures plan { IfOk result (IsPlanOn self.new) }
        ensures input { IfOk result (λ plan. plan.entry.input ≡ input) }
        ensures named { IfOk result (λ plan. NameOnly (known_to self.old.state input) plan.entry.outputs) }
        ensures sound { IfOk result (λ plan. (sessions n : ℕ) → IsSoundServer self.old.space sessions n self.old.state → IsSoundInput self.old.space sessions n self.old.state.id input → All (IsSoundPost self.old.space sessions (n + 1)) plan.entry.outputs) }
        ensures rooms { KeepAllRooms self.old.rooms self.new.rooms }
        ensures space { self.new.space ≡ self.old.space }
        ensures state { self.new.state ≡ self.old.state }
    {
        let actor = Actor::Server(self.id);
        let mut posts = Posts::new(alloc);
        let mut notes = Notes::new(alloc);
        let Ok(change) = self.change_on(alloc, &input, &mut posts, &mut notes) else {
            return Err(Memory);
        };
        let entry = Entry {
            actor,
            input,
            outputs: posts,
            notes,
        };
        Ok(Plan { entry, change })
    }

    /// Posts and notes what the step on an input makes, and gives what it changes.
    #[inline]
    #[tactic(auto, using(crate::proofs::Roomy::all_same))]
    fn change_on(
        &mut self,
        alloc: Global,
        input: &Input,
        posts: &mut Posts,
        notes: &mut Notes,
    ) -> Result<Change, Memory>
        requires { CanTake self.old.space self.old.state input.now }
        ensures posts { OnOk result (posts.new ≡ posts.old ++ (server_step self.old.space self.old.state input.now).posts) }
        ensures notes { OnOk result (notes.new ≡ notes.old ++ (server_step self.old.space self.old.state input.now).notes) }
        ensures change { IfOk result (IsChange self.new (server_step self.old.space self.old.state input.now).state) }
        ensures rooms { KeepAllRooms self.old.rooms self.new.rooms }
        ensures space { self.new.space ≡ self.old.space }
        ensures state { self.new.state ≡ self.old.state }
    {
        let _ = &self.id;
        match input {
            Input::Tick => self.tick(alloc, posts),
            Input::Halt => self.halt(posts),
            Input::Deliver { from, message, .. } => self.hear(alloc, *from, message, posts, notes),
        }
    }

    /// Computes the step that a message makes which the server gets, and takes all memory that it
    /// needs: what the step posts and notes goes behind what the lists hold, and the result is what
    /// it changes, for [`Server::make`]. Nothing but the room for further updates changes, and none
    /// falls. What is posted names only the coordinator and actors that the server's configuration,
    /// its slots, the sender or the message name. Where all that the server holds and the post that
    /// it gets are of the space, exist and have no epoch and no version above a bound, that is so
    /// of what it posts, and no epoch and no version of it is above the bound by more than 1. On an
    /// error, which is [`Memory`] alone, the lists may hold anything.
    #[tactic(auto, using(crate::proofs::Roomy::all_same))]
    pub fn hear(
        &mut self,
        alloc: Global,
        from: Actor,
        message: &Message,
        posts: &mut Posts,
        notes: &mut Notes,
    ) -> Result<Change, Memory>
        requires { CanHear self.old.space self.old.state from message.now }
        ensures posts { OnOk result (posts.new ≡ posts.old ++ (message_step self.old.space self.old.state from message.now).posts) }
        ensures notes { OnOk result (notes.new ≡ notes.old ++ (message_step self.old.space self.old.state from message.now).notes) }
        ensures change { IfOk result (IsChange self.new (message_step self.old.space self.old.state from message.now).state) }
        ensures named { (id : PostId) → NameOnly (known_to self.old.state (Deliver id from message.now)) (message_step self.old.space self.old.state from message.now).posts }
        ensures sound { (id : PostId) (sessions n : ℕ) → IsSoundServer self.old.space sessions n self.old.state → IsSoundInput self.old.space sessions n self.old.state.id (Deliver id from message.now) → All (IsSoundPost self.old.space sessions (n + 1)) (message_step self.old.space self.old.state from message.now).posts }
        ensures rooms { KeepAllRooms self.old.rooms self.new.rooms }
        ensures space { self.new.space ≡ self.old.space }
        ensures state { self.new.state ≡ self.old.state }
    {
        let _ = &self.id;
        match message {
            Message::Call { epoch, number, op } => {
                self.meet(*epoch, posts)?;
                self.on_call(alloc, from, *number, op, posts, notes)
            }
            Message::Update {
                epoch,
                region,
                update,
            } => {
                self.meet(*epoch, posts)?;
                self.on_update(alloc, from, *region, update, posts)
            }
            Message::Ack {
                epoch,
                region,
                by,
                key,
                version,
            } => {
                self.meet(*epoch, posts)?;
                self.on_ack(alloc, from, *region, *by, key, *version, posts)
            }
            Message::Ask {
                epoch,
                number,
                region,
                terms,
            } => {
                self.meet(*epoch, posts)?;
                self.on_ask(alloc, from, *epoch, *number, *region, terms, posts)
            }
            Message::Snap {
                epoch,
                region,
                snapshot,
                pending,
            } => {
                self.meet(*epoch, posts)?;
                self.on_snapshot(alloc, from, *region, snapshot, pending, posts)
            }
            Message::Install { config } => self.on_install(alloc, config, posts),
            Message::Die => self.halt(posts),
            _ => Ok(Change::Nothing),
        }
    }

    /// Where an epoch is above the server's own, the coordinator is asked for the newest
    /// configuration.
    #[inline]
    fn meet(&self, epoch: Epoch, posts: &mut Posts) -> Result<(), Memory>
        ensures { OnOk result (posts.new ≡ posts.old ++ provided (nat_lt self.now.state.config.epoch.0 epoch.0) (poll_post self.now.state ∷ [])) }
    {
        if epoch.0 > self.config.epoch.0 {
            return ask_newest(self.id, &self.config, posts);
        }
        Ok(())
    }

    /// A call goes to the slot of its key, where this server leads the key's region.
    #[inline]
    #[tactic(auto, using(crate::proofs::Roomy::all_same))]
    fn on_call(
        &mut self,
        alloc: Global,
        from: Actor,
        number: u32,
        op: &Op,
        posts: &mut Posts,
        notes: &mut Notes,
    ) -> Result<Change, Memory>
        requires bare { folded_server self.old.state ≡ self.old.state }
        requires small { HasSmallVersions self.old.state }
        ensures posts { OnOk result (posts.new ≡ posts.old ++ (called_by self.old.space self.old.state from number op.now).posts) }
        ensures notes { OnOk result (notes.new ≡ notes.old ++ (called_by self.old.space self.old.state from number op.now).notes) }
        ensures change { IfOk result (IsChange self.new (called_by self.old.space self.old.state from number op.now).state) }
        ensures rooms { KeepAllRooms self.old.rooms self.new.rooms }
        ensures space { self.new.space ≡ self.old.space }
        ensures state { self.new.state ≡ self.old.state }
    {
        // What the invariant says of the slots is known from here on.
        let _ = &self.id;
        let Actor::Session(session) = from else {
            return Ok(Change::Nothing);
        };
        let Some(key) = op.key() else {
            return Ok(Change::Nothing);
        };
        let Some(replica) = self.leading(key) else {
            return Ok(Change::Nothing);
        };
        let place = self.reserve(alloc, replica, key, 1)?;
        let context = self.context_at(replica);
        let slot = self.slot_at(replica, place);
        let caller = Caller { session, number };
        let Ok(change) = call(alloc, &context, slot, caller, op, posts, notes) else {
            return Err(Memory);
        };
        Ok(Change::Slot {
            replica,
            place,
            change,
        })
    }

    /// An update goes to the slot of its key at the replica of its region. It is dropped where that
    /// isn't installed, and where it doesn't hear the update.
    #[inline]
    #[tactic(auto, using(crate::proofs::Roomy::all_same))]
    fn on_update(
        &mut self,
        alloc: Global,
        from: Actor,
        region: RegionId,
        update: &Shared<Update>,
        posts: &mut Posts,
    ) -> Result<Change, Memory>
        requires bare { folded_server self.old.state ≡ self.old.state }
        requires placed { IsPlacedIn region update.now }
        requires few { length update.now.places ≤ MOST_PLACES }
        requires after { All (λ (p : Place). p.after.0 < update.now.version.0) update.now.places }
        ensures posts { OnOk result (posts.new ≡ posts.old ++ (updated self.old.space self.old.state from update.now (if_installed (replica_for self.old.state region))).posts) }
        ensures change { IfOk result (IsChange self.new (updated self.old.space self.old.state from update.now (if_installed (replica_for self.old.state region))).state) }
        ensures rooms { KeepAllRooms self.old.rooms self.new.rooms }
        ensures space { self.new.space ≡ self.old.space }
        ensures state { self.new.state ≡ self.old.state }
    {
        let Some(replica) = self.installed_at(region) else {
            return Ok(Change::Nothing);
        };
        let place = self.reserve(alloc, replica, &update.key, 1)?;
        let context = self.context_at(replica);
        let slot = self.slot_at(replica, place);
        let number = place_at(&context, update);
        if !hears_update(context.config, update, number, context.server, from) {
            return Ok(Change::Nothing);
        }
        let Ok(change) = offer(alloc, &context, slot, update, number, posts) else {
            return Err(Memory);
        };
        Ok(Change::Slot {
            replica,
            place,
            change,
        })
    }

    /// An acknowledgement goes to the slot of its key at the replica of its region. It is dropped
    /// where that isn't installed, and where it doesn't hear the acknowledgement.
    #[inline]
    #[tactic(auto, using(crate::proofs::Roomy::all_same))]
    fn on_ack(
        &mut self,
        alloc: Global,
        from: Actor,
        region: RegionId,
        by: RegionId,
        key: &Text,
        version: Version,
        posts: &mut Posts,
    ) -> Result<Change, Memory>
        requires bare { folded_server self.old.state ≡ self.old.state }
        ensures posts { OnOk result (posts.new ≡ posts.old ++ (acked self.old.space self.old.state from key.now version.0 by (if_installed (replica_for self.old.state region))).posts) }
        ensures change { IfOk result (IsChange self.new (acked self.old.space self.old.state from key.now version.0 by (if_installed (replica_for self.old.state region))).state) }
        ensures rooms { KeepAllRooms self.old.rooms self.new.rooms }
        ensures space { self.new.space ≡ self.old.space }
        ensures state { self.new.state ≡ self.old.state }
    {
        let Some(replica) = self.installed_at(region) else {
            return Ok(Change::Nothing);
        };
        let place = self.reserve(alloc, replica, key, 0)?;
        let context = self.context_at(replica);
        let slot = self.slot_at(replica, place);
        if !settle(alloc, &context, slot, from, version, by, posts)? {
            return Ok(Change::Nothing);
        }
        Ok(Change::Slot {
            replica,
            place,
            change: SlotChange::Acknowledge { version },
        })
    }

    /// Makes a prepared step, and gives its entry. It takes no memory. Where all that the server
    /// holds and the post that it got are of the space, exist and have no epoch and no version
    /// above a bound, that is so of what it then holds, with a bound higher by 1. Room is used by
    /// the slot that accepts an update, and given up by a replica that joins or that the server has
    /// no more.
    pub fn apply(&mut self, plan: Plan) -> Entry
        requires { IsPlanOn self.old plan }
        ensures entry { result ≡ plan.entry }
        ensures space { self.new.space ≡ self.old.space }
        ensures state { self.new.state ≡ folded_server (server_step self.old.space self.old.state plan.entry.input).state }
        ensures sound { (sessions n : ℕ) → IsSoundServer self.old.space sessions n self.old.state → IsSoundInput self.old.space sessions n self.old.state.id plan.entry.input → IsSoundServer self.new.space sessions (n + 1) self.new.state }
        ensures rooms { AreRoomsAfter plan.change self.old self.new }
    {
        let Plan { entry, change } = plan;
        self.make(change);
        entry
    }

    /// Makes what a step changes, as it was computed of this server. It takes no memory. The server
    /// then is as each step leaves it that changes this. Where all that the server holds and the
    /// post that it got are of the space, exist and have no epoch and no version above a bound,
    /// that is so of what it then holds, with a bound higher by 1. Room is used by the slot that
    /// accepts an update, and given up by a replica that joins or that the server has no more.
    #[inline]
    pub fn make(&mut self, change: Change)
        requires { CanMake self.old change }
        ensures space { self.new.space ≡ self.old.space }
        ensures state { (after : ServerState) → IsChange self.old after change → self.new.state ≡ folded_server after }
        ensures sound { (input : Taken) (sessions n : ℕ) → IsChange self.old (server_step self.old.space self.old.state input).state change → IsSoundServer self.old.space sessions n self.old.state → IsSoundInput self.old.space sessions n self.old.state.id input → IsSoundServer self.new.space sessions (n + 1) self.new.state }
        ensures rooms { AreRoomsAfter change self.old self.new }
    {
        self.carry_out(change);
    }

    /// Makes what a step changes.
    #[inline]
    fn carry_out(&mut self, change: Change)
        requires { CanMake self.old change }
        ensures space { self.new.space ≡ self.old.space }
        ensures state { (after : ServerState) → IsChange self.old after change → self.new.state ≡ folded_server after }
        ensures rooms { AreRoomsAfter change self.old self.new }
    {
        match change {
            Change::Nothing => {}
            Change::Halt => self.halted = true,
            Change::Adopt { config, replicas } => self.adopt(config, replicas),
            Change::Join { number, replica } => put_replica(&mut self.replicas[number], replica),
            Change::Slot {
                replica,
                place,
                change,
            } => {
                let replica = &mut self.replicas[replica];
                change_slot(&mut replica.store, place, change);
            }
        }
    }

    /// The server adopts a configuration, in which these are new replicas of its regions.
    #[inline(never)]
    fn adopt(&mut self, config: Shared<Config>, replicas: Vec<Replica>)
        requires new { replicas.items ≡ map (new_replica self.old.space) (listed_regions config self.old.state.id) }
        requires bare { (s : ServerState) × (folded_server s ≡ lean_with_config self.old.space self.old.state config) }
        ensures space { self.new.space ≡ self.old.space }
        ensures state { self.new.state ≡ lean_with_config self.old.space self.old.state config }
        ensures rooms { KeepRegionRooms self.old.state.replicas self.old.rooms self.new.state.replicas self.new.rooms }
    {
        let old = std::mem::replace(&mut self.replicas, replicas);
        keep_all(
            &self.space,
            &self.map,
            &config,
            self.id,
            old,
            &mut self.replicas,
        );
        self.config = config;
    }

    /// Whether the server has halted.
    pub fn halted(&self) -> bool
        ensures { result ≡ self.now.state.halted }
    {
        self.halted
    }

    /// The slot of a key at the server's replica of a region. There is none exactly where there is
    /// no such replica, or where none of its slots is of the key: the slot is then as an empty one.
    pub fn slot(&self, region: RegionId, key: &Text) -> Option<&Slot>
        ensures state { IfSome result (λ slot. IsSomeAnd (replica_of region self.now.state.replicas) (λ (r : ReplicaState). slot.now.state ≡ state_in self.now.space r key.now)) }
        ensures region { IfSome result (λ slot. slot.now.region ≡ region) }
        ensures found { is_some result ≡ when_some (replica_of region self.now.state.replicas) false (λ (r : ReplicaState). has_slot key.now r.states) }
        ensures none { IfNone result (IfSome (replica_of region self.now.state.replicas) (λ (r : ReplicaState). state_in self.now.space r key.now ≡ new_state (is_key_region self.now.space region) key.now)) }
    {
        let replica = place_of(self.replicas.as_slice(), region)?;
        self.replicas[replica].store.slot(key)
    }

    /// What is pending is sent again.
    #[inline(never)]
    fn tick(&mut self, alloc: Global, posts: &mut Posts) -> Result<Change, Memory>
        requires { folded_server self.old.state ≡ self.old.state }
        ensures posts { OnOk result (posts.new ≡ posts.old ++ (tick_step self.old.space self.old.state).posts) }
        ensures change { IfOk result (IsChange self.old (tick_step self.old.space self.old.state).state) }
        ensures stays { self.new ≡ self.old }
    {
        self.send_again(alloc, posts)?;
        Ok(Change::Nothing)
    }

    /// Posts what a tick posts.
    fn send_again(&mut self, alloc: Global, posts: &mut Posts) -> Result<(), Memory>
        ensures posts { OnOk result (posts.new ≡ posts.old ++ (tick_step self.old.space self.old.state).posts) }
        ensures stays { self.new ≡ self.old }
    {
        sort_orders(&mut self.replicas);
        post_tick(
            alloc,
            &self.space,
            &self.map,
            &self.config,
            self.id,
            self.replicas.as_slice(),
            posts,
        )
    }

    /// The server stops for good, and says so.
    #[cold]
    #[inline(never)]
    fn halt(&self, posts: &mut Posts) -> Result<Change, Memory>
        requires { folded_server self.now.state ≡ self.now.state }
        ensures posts { OnOk result (posts.new ≡ posts.old ++ (halting self.now.state).posts) }
        ensures change { IfOk result (IsChange self.now (halting self.now.state).state) }
    {
        post_to_coordinator(self.id, Message::Gone, posts)?;
        Ok(Change::Halt)
    }

    /// The server adopts a configuration of a higher epoch than its own. An older one, or the same,
    /// is nothing to it.
    #[cold]
    #[inline(never)]
    fn on_install(
        &mut self,
        alloc: Global,
        config: &Shared<Config>,
        posts: &mut Posts,
    ) -> Result<Change, Memory>
        requires config { IsConfigOf self.old.space config.now }
        requires bare { folded_server self.old.state ≡ self.old.state }
        ensures posts { OnOk result (posts.new ≡ posts.old ++ (install_at self.old.space self.old.state config.now).posts) }
        ensures change { IfOk result (IsChange self.old (install_at self.old.space self.old.state config.now).state) }
        ensures stays { self.new ≡ self.old }
    {
        if config.epoch.0 <= self.config.epoch.0 {
            return Ok(Change::Nothing);
        }
        sort_orders(&mut self.replicas);
        post_adoption(
            alloc,
            &self.space,
            &self.map,
            config,
            self.id,
            self.replicas.as_slice(),
            posts,
        )?;
        let replicas = new_replicas(alloc, &self.space, config, self.map.regions(), self.id)?;
        let config = config.copy(alloc)?;
        Ok(Change::Adopt { config, replicas })
    }

    /// A replica that isn't installed and hears a snapshot installs it with its pending updates.
    /// The coordinator is told that the replica has joined, now or before, where it is listed as
    /// not ready. A snapshot that isn't heard is dropped.
    #[cold]
    #[inline(never)]
    fn on_snapshot(
        &self,
        alloc: Global,
        from: Actor,
        region: RegionId,
        snapshot: &Snapshot,
        pending: &Updates,
        posts: &mut Posts,
    ) -> Result<Change, Memory>
        requires bare { folded_server self.now.state ≡ self.now.state }
        requires snapshot { IsSnapshot region snapshot.now pending.now }
        ensures posts { OnOk result (posts.new ≡ posts.old ++ (snapped self.now.space self.now.state from snapshot.now pending.now (replica_for self.now.state region)).posts) }
        ensures change { IfOk result (IsChange self.now (snapped self.now.space self.now.state from snapshot.now pending.now (replica_for self.now.state region)).state) }
    {
        let Some(number) = self.replica_for(region) else {
            return Ok(Change::Nothing);
        };
        if !hears_snap(&self.config, region, self.id, from) {
            return Ok(Change::Nothing);
        }
        let context = SlotContext {
            space: &self.space,
            map: &self.map,
            config: &self.config,
            server: self.id,
            region,
        };
        if self.replicas[number].installed {
            post_ready(&context, posts)?;
            return Ok(Change::Nothing);
        }
        let Ok(store) = installed(alloc, &context, snapshot, pending, posts) else {
            return Err(Memory);
        };
        let Ok(replica) = joined_replica(alloc, region, store) else {
            return Err(Memory);
        };
        Ok(Change::Join { number, replica })
    }

    /// A search of a region is answered where this server is a ready member of it. All of the
    /// server stays: only the index of the region's store is brought up to date.
    #[inline(never)]
    fn on_ask(
        &mut self,
        alloc: Global,
        from: Actor,
        epoch: Epoch,
        number: u32,
        region: RegionId,
        terms: &Terms,
        posts: &mut Posts,
    ) -> Result<Change, Memory>
        requires bare { folded_server self.old.state ≡ self.old.state }
        ensures posts { OnOk result (posts.new ≡ posts.old ++ (asked self.old.state from epoch number terms.now (if_installed (replica_for self.old.state region))).posts) }
        ensures change { IfOk result (IsChange self.new (asked self.old.state from epoch number terms.now (if_installed (replica_for self.old.state region))).state) }
        ensures stays { self.new ≡ self.old }
    {
        self.post_found(alloc, from, epoch, number, region, terms, posts)?;
        Ok(Change::Nothing)
    }

    /// Posts what a search finds in a region, where this server is a ready member of it. All of the
    /// server stays, whatever comes: only the index of the region's store is brought up to date.
    fn post_found(
        &mut self,
        alloc: Global,
        from: Actor,
        epoch: Epoch,
        number: u32,
        region: RegionId,
        terms: &Terms,
        posts: &mut Posts,
    ) -> Result<(), Memory>
        ensures posts { OnOk result (posts.new ≡ posts.old ++ (asked self.old.state from epoch number terms.now (if_installed (replica_for self.old.state region))).posts) }
        ensures stays { self.new ≡ self.old }
    {
        let Some(place) = self.installed_at(region) else {
            return Ok(());
        };
        if !self.config.lists_ready(region, self.id) {
            return Ok(());
        }
        let from_here = Actor::Server(self.id);
        let rows = self.rows_of(alloc, place, terms)?;
        posts.push(Post {
            from: from_here,
            to: from,
            message: Message::Found {
                epoch,
                number,
                region,
                rows,
            },
        })
    }

    /// What a search finds in the replica at a place.
    fn rows_of(&mut self, alloc: Global, place: usize, terms: &Terms) -> Result<Rows, Memory>
        requires { place < length self.old.state.replicas }
        ensures rows { IfOk result (λ rows. IsSomeAnd (slice_get self.old.state.replicas place) (λ (r : ReplicaState). rows ≡ found_in r.region terms.now r.states)) }
        ensures stays { self.new ≡ self.old }
    {
        let mut looks = 0;
        let replica = &mut self.replicas[place];
        replica.store.find(alloc, terms, &mut looks)
    }

    /// The place of the replica of a key's region, where this server leads it.
    fn leading(&self, key: &Text) -> Option<usize>
        ensures { option_map (slice_get self.now.state.replicas) result ≡ option_map Some (leading self.now.space self.now.state key.now) }
    {
        let region = self.map.of_key(key);
        if !self.config.leads(&self.space, self.id, region) {
            return None;
        }
        self.replica_for(region)
    }

    /// The place of the replica of a region, where it is installed.
    #[inline]
    fn installed_at(&self, region: RegionId) -> Option<usize>
        ensures { option_map (slice_get self.now.state.replicas) result ≡ option_map Some (if_installed (replica_for self.now.state region)) }
    {
        let place = self.replica_for(region)?;
        if self.replicas[place].installed {
            Some(place)
        } else {
            None
        }
    }

    /// The place of the replica that takes messages for a region: none where the region is lost in
    /// the server's configuration.
    #[inline]
    fn replica_for(&self, region: RegionId) -> Option<usize>
        ensures { option_map (slice_get self.now.state.replicas) result ≡ option_map Some (replica_for self.now.state region) }
    {
        if self.config.is_lost(region) {
            return None;
        }
        place_of(self.replicas.as_slice(), region)
    }

    /// Makes room for n updates more at the slot of a key at a replica, and gives the place of the
    /// key in the replica's store.
    fn reserve(
        &mut self,
        alloc: Global,
        replica: usize,
        key: &Text,
        n: u32,
    ) -> Result<usize, Memory>
        requires { replica < length self.old.state.replicas }
        ensures room { IfOk result (HasRoomAt replica key.now n self.new) }
        ensures rooms { KeepAllRooms self.old.rooms self.new.rooms }
        ensures space { self.new.space ≡ self.old.space }
        ensures state { self.new.state ≡ self.old.state }
    {
        self.replicas[replica].store.reserve(alloc, key, n)
    }

    /// Where the slots of a replica stand.
    #[inline]
    fn context_at(&self, replica: usize) -> SlotContext<'_>
        requires { replica < length self.now.state.replicas }
        ensures map { result.map.now ≡ result.space.now }
        ensures space { IsSpace result.space.now }
        ensures seen { AtReplica self.now replica (λ (r : ReplicaState). context_seen result ≡ context_of self.now.space self.now.state r.region) }
    {
        SlotContext {
            space: &self.space,
            map: &self.map,
            config: &self.config,
            server: self.id,
            region: self.replicas[replica].region,
        }
    }

    /// The slot at a place of a replica.
    #[inline]
    fn slot_at(&self, replica: usize, place: usize) -> &Slot
        requires within { replica < length self.now.state.replicas }
        requires place { (key : List ℕ) × (n : ℕ) × HasRoomAt replica key n self.now place }
        ensures region { AtReplica self.now replica (λ (r : ReplicaState). result.now.region ≡ r.region) }
        ensures state { (key : List ℕ) (n : ℕ) → HasRoomAt replica key n self.now place → AtReplica self.now replica (λ (r : ReplicaState). result.now.state ≡ state_in self.now.space r key) }
    {
        self.replicas[replica].store.slot_at(place)
    }
}
