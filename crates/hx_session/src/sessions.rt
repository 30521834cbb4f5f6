ghost use Rattle.std.specs.Prelude.{◌≡◌, ℕ, ◌<◌, ◌≤◌, ◌+◌, ◌++◌, [], true, false, length, slice_get, IfOk, IsSomeAnd, None, OnErr, OnOk};
ghost use Rattle.std.specs.List.{All};
ghost use Rattle.std.specs.Option.{option_copied};
ghost use Rattle.hx_types.specs.Configs.{first_config};
ghost use Rattle.hx_types.specs.Fitting.{numbered};
ghost use Rattle.hx_model.specs.Types.{PostId};
ghost use Rattle.hx_types.specs.declared.limits.TheConstants.{MOST_CALLS};
ghost use Rattle.hx_types.specs.declared.traces.Input.TheVariants as an_input;
ghost use Rattle.hx_types.specs.Spaces.{Fits, IsSpace};
ghost use Rattle.hx_model.specs.Schedule.{is_idle};
ghost use Rattle.hx_model.specs.SessionSteps.{Part as PartSeen, awaits, begin, call_under_way, end_with_parts, found_step, session_at_start, session_install, session_message, session_step, session_tick};
ghost use Rattle.hx_session.specs.Changes.{IsChange, IsChangeOn, IsPlanOn, Makes, answer_step, in_config, sent_anew, with_parts};
ghost use Rattle.hx_session.specs.Lists.{Grows};
ghost use Rattle.hx_types.specs.Posted.{ArePostsOf, InputUpTo, MessageUpTo, NameOnly, PostsUpTo};
ghost use Rattle.hx_session.specs.Sessions.{CanTake, IsSoundDelivery, SessionUpTo, is_ended, known_to, with_call};
ghost use Rattle.hx_session.specs.Kinds.{kind_test};

use crate::kinds::{CallKind, is_of};
use crate::merging::merged;
use crate::parts::{Parts, SearchPart, all_found, lacking};
use crate::prepared::{
    Change, Plan, Progress, change_nothing, change_part, cut_back, end_call, poll,
};
use crate::sending::{Sender, send};
use hx_region::RegionMap;
use hx_rules::first_shared_config;
use hx_types::{
    Actor, Answer, Calls, Config, Entry, Epoch, Exact, Input, Memory, Message, Note, Notes, Op,
    Posts, RegionId, Rows, SessionId, Shared, Space, Version,
};
use std::alloc::Global;
use std::marker::Model;

/// A session: a client that makes its calls one after the other. It finds the servers that it
/// calls by itself, as HyperDex's clients do. Contracts see its space, and its state as the
/// definitions fold it.
pub struct Session {
    id: SessionId,
    space: Space,
    map: RegionMap,
    calls: Calls,
    config: Shared<Config>,
    progress: Progress,
    parts: Parts,
}

/// The parts are let go here alone: who drops a session has nothing to prove of them.
impl Drop for Session {
    fn drop(self) {
        let Session {
            id: _,
            space: _,
            map: _,
            calls: _,
            config: _,
            progress: _,
            parts: _,
        } = self;
    }
}

impl Model for Session {
    ghost use Rattle.hx_session.specs.Sessions.{SessionValue};

    ghost Value = { SessionValue };

    ghost use Rattle.hx_session.specs.Invariant.{IsSession, value_of};

    ghost view = { value_of };

    ghost invariant = { IsSession };
}

/// What all sessions of a space have in common at the start.
#[derive(Drop)]
struct Surroundings {
    space: Space,
    map: RegionMap,
    config: Shared<Config>,
}

/// A space, its regions, and its first configuration.
fn surroundings_of(alloc: Global, space: &Space) -> Result<Surroundings, Memory>
    requires { IsSpace space.now }
    ensures space { IfOk result (λ around. around.space ≡ space.now) }
    ensures map { IfOk result (λ around. around.map ≡ space.now) }
    ensures config { IfOk result (λ around. around.config ≡ first_config space.now) }
{
    let config = first_shared_config(alloc, space)?;
    let map = RegionMap::new(alloc, space)?;
    let space = space.copy(alloc)?;
    Ok(Surroundings { space, map, config })
}

impl Session {
    /// The session of a number at the start: in the configuration of epoch 1, with no call begun.
    /// It fails with [`Memory`] alone.
    pub fn start(
        alloc: Global,
        space: &Space,
        id: SessionId,
        calls: Calls,
    ) -> Result<Session, Memory>
        requires space { IsSpace space.now }
        requires calls { All (Fits space.now) calls }
        requires few_calls { length calls ≤ MOST_CALLS }
        ensures space { IfOk result (λ session. session.space ≡ space.now) }
        ensures state { IfOk result (λ session. session.state ≡ session_at_start space.now id calls) }
    {
        let Ok(around) = surroundings_of(alloc, space) else {
            return Err(Memory);
        };
        Ok(Session {
            id,
            space: around.space,
            map: around.map,
            calls,
            config: around.config,
            progress: Progress {
                begun: 0,
                under_way: false,
                sent: false,
            },
            parts: Parts::new(alloc),
        })
    }

    /// Appends a call to those that the session makes, and gives its number, from 1. Where there is
    /// no memory the session stays and the call is dropped.
    pub fn submit(&mut self, _alloc: Global, op: Op) -> Result<u32, Memory>
        requires fits { Fits self.old.space op }
        requires few { length self.old.state.calls < MOST_CALLS }
        ensures number { IfOk result (λ n. n ≡ length self.old.state.calls + 1) }
        ensures ok { OnOk result (self.new.state ≡ with_call op self.old.state) }
        ensures err { OnErr result (self.new.state ≡ self.old.state) }
        ensures space { self.new.space ≡ self.old.space }
    {
        self.calls.push(op)?;
        Ok(self.calls.len() as u32)
    }

    /// Computes the step that this input makes, and takes all memory that it needs. Nothing
    /// changes. The posts of its entry are of the space, name only the coordinator and actors that
    /// the session or the input names, and have no epoch above the greatest of theirs. On an error,
    /// which is [`Memory`] alone, the input is dropped.
    pub fn prepare(&mut self, alloc: Global, input: Input) -> Result<Plan, Memory>
        requires { CanTake self.old.space self.old.state input }
        ensures plan { IfOk result (IsPlanOn self.new) }
        ensures input { IfOk result (λ plan. plan.entry.input ≡ input) }
        ensures of_space { IfOk result (λ plan. ArePostsOf self.old.space plan.entry.outputs) }
        ensures named { IfOk result (λ plan. NameOnly (known_to self.old.state input) plan.entry.outputs) }
        ensures small { IfOk result (λ plan. (most : ℕ) → SessionUpTo most self.old.state → InputUpTo most input → PostsUpTo most plan.entry.outputs) }
        ensures space { self.new.space ≡ self.old.space }
        ensures state { self.new.state ≡ self.old.state }
    {
        let mut posts = Posts::new(alloc);
        let mut notes = Notes::new(alloc);
        let Ok(change) = self.change_on(alloc, &input, &mut posts, &mut notes) else {
            return Err(Memory);
        };
        let entry = Entry {
            actor: Actor::Session(self.id),
            input,
            outputs: posts,
            notes,
        };
        Ok(Plan { entry, change })
    }

    /// Makes a prepared step, and gives its entry. It takes no memory.
    pub fn apply(&mut self, plan: Plan) -> Entry
        requires { IsPlanOn self.old plan }
        ensures entry { result ≡ plan.entry }
        ensures space { self.new.space ≡ self.old.space }
        ensures state { self.new.state ≡ (session_step self.old.space self.old.state plan.entry.input).state }
    {
        let Plan { entry, change } = plan;
        self.make(change);
        entry
    }

    /// Computes the step that a message of a sender makes. What it posts and notes goes behind
    /// what the lists have, and what it changes is given, for [`Session::make`]. Nothing changes
    /// yet. The posts are of the space, name only the coordinator, the sender and actors that the
    /// session or the message names, and have no epoch above the greatest of theirs. On an error,
    /// which is [`Memory`] alone, the lists are as before.
    #[inline]
    pub fn hear(
        &self,
        alloc: Global,
        from: Actor,
        message: &Message,
        posts: &mut Posts,
        notes: &mut Notes,
    ) -> Result<Change, Memory>
        requires { IsSoundDelivery self.now.space self.now.state.id from message.now }
        ensures change { IfOk result (λ change. (id : PostId) → IsChangeOn self.now (an_input.Deliver id from message.now) change) }
        ensures posts { OnOk result (posts.new ≡ posts.old ++ (session_message self.now.space self.now.state message.now).posts) }
        ensures notes { OnOk result (notes.new ≡ notes.old ++ (session_message self.now.space self.now.state message.now).notes) }
        ensures of_space { ArePostsOf self.now.space (session_message self.now.space self.now.state message.now).posts }
        ensures named { (id : PostId) → NameOnly (known_to self.now.state (an_input.Deliver id from message.now)) (session_message self.now.space self.now.state message.now).posts }
        ensures small { (most : ℕ) → SessionUpTo most self.now.state → MessageUpTo most message.now → PostsUpTo most (session_message self.now.space self.now.state message.now).posts }
        ensures posts_stay { OnErr result (posts.new ≡ posts.old) }
        ensures notes_stay { OnErr result (notes.new ≡ notes.old) }
    {
        let _ = &self.id;
        let (post_count, note_count) = (posts.len(), notes.len());
        let Ok(change) = self.hear_message(alloc, message, posts, notes) else {
            cut_back(alloc, posts, post_count);
            cut_back(alloc, notes, note_count);
            return Err(Memory);
        };
        Ok(change)
    }

    /// Computes the step of the session's own turn, as [`Session::hear`] that of a message. It
    /// fails with [`Memory`] alone, and then the lists are as before.
    #[inline]
    pub fn tick(
        &self,
        alloc: Global,
        posts: &mut Posts,
        notes: &mut Notes,
    ) -> Result<Change, Memory>
        ensures change { IfOk result (IsChangeOn self.now an_input.Tick) }
        ensures posts { OnOk result (posts.new ≡ posts.old ++ (session_tick self.now.space self.now.state).posts) }
        ensures notes { OnOk result (notes.new ≡ notes.old ++ (session_tick self.now.space self.now.state).notes) }
        ensures of_space { ArePostsOf self.now.space (session_tick self.now.space self.now.state).posts }
        ensures named { NameOnly (known_to self.now.state an_input.Tick) (session_tick self.now.space self.now.state).posts }
        ensures small { (most : ℕ) → SessionUpTo most self.now.state → PostsUpTo most (session_tick self.now.space self.now.state).posts }
        ensures posts_stay { OnErr result (posts.new ≡ posts.old) }
        ensures notes_stay { OnErr result (notes.new ≡ notes.old) }
    {
        let _ = &self.id;
        let (post_count, note_count) = (posts.len(), notes.len());
        let Ok(change) = self.turned(alloc, posts, notes) else {
            cut_back(alloc, posts, post_count);
            cut_back(alloc, notes, note_count);
            return Err(Memory);
        };
        Ok(change)
    }

    /// Makes a change that was computed in this state. It takes no memory.
    #[inline]
    pub fn make(&mut self, change: Change)
        requires { IsChange self.old change }
        ensures space { self.new.space ≡ self.old.space }
        ensures state { (input : Input) → IsChangeOn self.old input change → self.new.state ≡ (session_step self.old.space self.old.state input).state }
    {
        self.progress = change.progress;
        change.apply(&mut self.config, &mut self.parts);
    }

    /// Whether a call is left and none is under way.
    pub fn idle(&self) -> bool
        ensures { result ≡ is_idle self.now.state }
    {
        !self.progress.under_way && (self.progress.begun as usize) < self.calls.len()
    }

    /// Whether no call is left and none is under way.
    pub fn ended(&self) -> bool
        ensures { result ≡ is_ended self.now.state }
    {
        !self.progress.under_way && (self.progress.begun as usize) >= self.calls.len()
    }

    /// Posts and notes what the step on an input makes, and gives what it changes.
    fn change_on(
        &self,
        alloc: Global,
        input: &Input,
        posts: &mut Posts,
        notes: &mut Notes,
    ) -> Result<Change, Memory>
        requires { CanTake self.now.space self.now.state input.now }
        ensures change { IfOk result (IsChangeOn self.now input.now) }
        ensures posts { OnOk result (posts.new ≡ posts.old ++ (session_step self.now.space self.now.state input.now).posts) }
        ensures notes { OnOk result (notes.new ≡ notes.old ++ (session_step self.now.space self.now.state input.now).notes) }
    {
        match input {
            Input::Tick => self.tick(alloc, posts, notes),
            Input::Deliver { from, message, .. } => self.hear(alloc, *from, message, posts, notes),
            // Servers alone halt.
            Input::Halt => unreachable!(),
        }
    }

    /// Its turn: the call under way is sent again, or the next one begins.
    fn turned(&self, alloc: Global, posts: &mut Posts, notes: &mut Notes) -> Result<Change, Memory>
        ensures change { IfOk result (Makes self.now.state (session_tick self.now.space self.now.state)) }
        ensures posts { OnOk result (posts.new ≡ posts.old ++ (session_tick self.now.space self.now.state).posts) }
        ensures notes { OnOk result (notes.new ≡ notes.old ++ (session_tick self.now.space self.now.state).notes) }
        ensures posts_grow { OnErr result (Grows posts.old posts.new) }
        ensures notes_grow { OnErr result (Grows notes.old notes.new) }
    {
        if self.progress.under_way {
            self.send_again(alloc, posts, notes)
        } else {
            self.begin_next(alloc, posts, notes)
        }
    }

    /// The call under way is sent again, and the newest configuration is asked for.
    #[cold]
    #[inline(never)]
    fn send_again(
        &self,
        alloc: Global,
        posts: &mut Posts,
        notes: &mut Notes,
    ) -> Result<Change, Memory>
        requires { self.now.state.under_way ≡ true }
        ensures change { IfOk result (Makes self.now.state (session_tick self.now.space self.now.state)) }
        ensures posts { OnOk result (posts.new ≡ posts.old ++ (session_tick self.now.space self.now.state).posts) }
        ensures notes { OnOk result (notes.new ≡ notes.old ++ (session_tick self.now.space self.now.state).notes) }
        ensures posts_grow { OnErr result (Grows posts.old posts.new) }
        ensures notes_grow { OnErr result (Grows notes.old notes.new) }
    {
        match self.call(self.progress.begun) {
            Some(op) => {
                let sender = self.sender(&self.config, self.progress);
                let change = send(alloc, &sender, op, posts, notes)?;
                poll(self.id, self.config.epoch, change.progress.under_way, posts)?;
                Ok(change)
            }
            None => Ok(change_nothing(self.progress)),
        }
    }

    /// The next call begins, where one is left.
    fn begin_next(
        &self,
        alloc: Global,
        posts: &mut Posts,
        notes: &mut Notes,
    ) -> Result<Change, Memory>
        requires { self.now.state.under_way ≡ false }
        ensures change { IfOk result (Makes self.now.state (session_tick self.now.space self.now.state)) }
        ensures posts { OnOk result (posts.new ≡ posts.old ++ (session_tick self.now.space self.now.state).posts) }
        ensures notes { OnOk result (notes.new ≡ notes.old ++ (session_tick self.now.space self.now.state).notes) }
        ensures posts_grow { OnErr result (Grows posts.old posts.new) }
        ensures notes_grow { OnErr result (Grows notes.old notes.new) }
    {
        let number = self.progress.begun + 1;
        match self.call(number) {
            Some(op) => self.begin(alloc, number, op, posts, notes),
            None => Ok(change_nothing(self.progress)),
        }
    }

    /// A call begins.
    fn begin(
        &self,
        alloc: Global,
        number: u32,
        op: &Op,
        posts: &mut Posts,
        notes: &mut Notes,
    ) -> Result<Change, Memory>
        requires { number ≡ self.now.state.begun + 1 }
        ensures change { IfOk result (Makes self.now.state (begin self.now.space self.now.state op.now)) }
        ensures posts { OnOk result (posts.new ≡ posts.old ++ (begin self.now.space self.now.state op.now).posts) }
        ensures notes { OnOk result (notes.new ≡ notes.old ++ (begin self.now.space self.now.state op.now).notes) }
        ensures posts_grow { OnErr result (Grows posts.old posts.new) }
        ensures notes_grow { OnErr result (Grows notes.old notes.new) }
    {
        let progress = Progress {
            begun: number,
            under_way: true,
            sent: false,
        };
        let sender = self.sender(&self.config, progress);
        notes.push(Note::Began { number })?;
        let change = send(alloc, &sender, op, posts, notes)?;
        Ok(change.afresh(alloc))
    }

    /// Takes an answer or a part found for the call under way, or a configuration; else nothing.
    fn hear_message(
        &self,
        alloc: Global,
        message: &Message,
        posts: &mut Posts,
        notes: &mut Notes,
    ) -> Result<Change, Memory>
        ensures change { IfOk result (Makes self.now.state (session_message self.now.space self.now.state message.now)) }
        ensures posts { OnOk result (posts.new ≡ posts.old ++ (session_message self.now.space self.now.state message.now).posts) }
        ensures notes { OnOk result (notes.new ≡ notes.old ++ (session_message self.now.space self.now.state message.now).notes) }
        ensures posts_grow { OnErr result (Grows posts.old posts.new) }
        ensures notes_stay { OnErr result (notes.new ≡ notes.old) }
    {
        match message {
            Message::Reply {
                number,
                version,
                answer,
            } => self.answered(alloc, *number, CallKind::OnKey, *version, answer, notes),
            Message::Outcome { number, answer } => {
                let kind = CallKind::Administrative;
                self.answered(alloc, *number, kind, Version(0), answer, notes)
            }
            Message::Found {
                epoch,
                number,
                region,
                rows,
            } => self.hear_found(alloc, *epoch, *number, *region, rows, notes),
            Message::Install { config } => self.install(alloc, config, posts, notes),
            _ => Ok(change_nothing(self.progress)),
        }
    }

    /// A part of the search under way is kept, where it is the first of its region.
    fn hear_found(
        &self,
        alloc: Global,
        epoch: Epoch,
        number: u32,
        region: RegionId,
        rows: &Rows,
        notes: &mut Notes,
    ) -> Result<Change, Memory>
        ensures change { IfOk result (Makes self.now.state (found_step self.now.state epoch number region rows.now)) }
        ensures notes { OnOk result (notes.new ≡ notes.old ++ (found_step self.now.state epoch number region rows.now).notes) }
        ensures notes_stay { OnErr result (notes.new ≡ notes.old) }
    {
        if !self.awaits(number, CallKind::Search) || epoch.0 != self.config.epoch.0 {
            return Ok(change_nothing(self.progress));
        }
        match lacking(self.parts.as_slice(), region) {
            Some(place) => self.keep_part(alloc, place, region, rows, notes),
            None => Ok(change_nothing(self.progress)),
        }
    }

    /// A part is kept; where it is the last, the search ends.
    #[inline(never)]
    fn keep_part(
        &self,
        alloc: Global,
        place: usize,
        region: RegionId,
        rows: &Rows,
        notes: &mut Notes,
    ) -> Result<Change, Memory>
        requires { IsSomeAnd (slice_get self.now.state.parts place) (λ (p : PartSeen). p.region ≡ region) }
        ensures change { IfOk result (Makes self.now.state (end_with_parts (with_parts self.now.state region rows.now))) }
        ensures notes { OnOk result (notes.new ≡ notes.old ++ (end_with_parts (with_parts self.now.state region rows.now)).notes) }
        ensures notes_stay { OnErr result (notes.new ≡ notes.old) }
    {
        let parts = self.parts.as_slice();
        if all_found(parts, region) {
            let rows = merged(alloc, parts, region, rows)?;
            let answer = Answer::Rows(rows);
            return end_call(alloc, self.progress, Version(0), answer, notes);
        }
        let rows = rows.copy(alloc)?;
        let part = SearchPart {
            region,
            rows: Some(rows),
        };
        Ok(change_part(self.progress, place, part))
    }

    /// A configuration of a higher epoch is adopted, and a call on a key or a search sent anew.
    #[cold]
    #[inline(never)]
    fn install(
        &self,
        alloc: Global,
        config: &Shared<Config>,
        posts: &mut Posts,
        notes: &mut Notes,
    ) -> Result<Change, Memory>
        ensures change { IfOk result (Makes self.now.state (session_install self.now.space self.now.state config.now)) }
        ensures posts { OnOk result (posts.new ≡ posts.old ++ (session_install self.now.space self.now.state config.now).posts) }
        ensures notes { OnOk result (notes.new ≡ notes.old ++ (session_install self.now.space self.now.state config.now).notes) }
        ensures posts_grow { OnErr result (Grows posts.old posts.new) }
        ensures notes_stay { OnErr result (notes.new ≡ notes.old) }
    {
        if config.epoch.0 <= self.config.epoch.0 {
            return Ok(change_nothing(self.progress));
        }
        let adopted = config.copy(alloc)?;
        let change = self.send_anew(alloc, config, posts, notes)?;
        Ok(change.adopting(adopted))
    }

    /// A call on a key or a search is sent in another configuration.
    fn send_anew(
        &self,
        alloc: Global,
        config: &Config,
        posts: &mut Posts,
        notes: &mut Notes,
    ) -> Result<Change, Memory>
        ensures change { IfOk result (Makes (in_config self.now.state config.now) (sent_anew self.now.space self.now.state config.now)) }
        ensures config { IfOk result (λ change. change.config ≡ None) }
        ensures posts { OnOk result (posts.new ≡ posts.old ++ (sent_anew self.now.space self.now.state config.now).posts) }
        ensures notes { OnOk result (notes.new ≡ notes.old ++ (sent_anew self.now.space self.now.state config.now).notes) }
        ensures posts_grow { OnErr result (Grows posts.old posts.new) }
        ensures notes_stay { OnErr result (notes.new ≡ notes.old) }
    {
        match self.call_under_way() {
            Some(op) if !is_of(CallKind::Administrative, op) => {
                let sender = self.sender(config, self.progress);
                send(alloc, &sender, op, posts, notes)
            }
            _ => Ok(change_nothing(self.progress)),
        }
    }

    /// The call under way ends with an answer, where it has this number and is of this kind.
    fn answered(
        &self,
        alloc: Global,
        number: u32,
        kind: CallKind,
        version: Version,
        answer: &Answer,
        notes: &mut Notes,
    ) -> Result<Change, Memory>
        ensures change { IfOk result (Makes self.now.state (answer_step self.now.state number kind version answer.now)) }
        ensures notes { OnOk result (notes.new ≡ notes.old ++ (answer_step self.now.state number kind version answer.now).notes) }
        ensures notes_stay { OnErr result (notes.new ≡ notes.old) }
    {
        if !self.awaits(number, kind) {
            return Ok(change_nothing(self.progress));
        }
        let answer = answer.copy(alloc)?;
        end_call(alloc, self.progress, version, answer, notes)
    }

    /// Whether the call under way has this number and is of this kind.
    fn awaits(&self, number: u32, kind: CallKind) -> bool
        ensures { result ≡ awaits self.now.state number (kind_test kind) }
    {
        if number != self.progress.begun {
            return false;
        }
        match self.call_under_way() {
            Some(op) => is_of(kind, op),
            None => false,
        }
    }

    /// The call under way.
    fn call_under_way(&self) -> Option<&Op>
        ensures { option_copied result ≡ call_under_way self.now.state }
    {
        if self.progress.under_way {
            self.call(self.progress.begun)
        } else {
            None
        }
    }

    /// The call of a number, from 1.
    fn call(&self, number: u32) -> Option<&Op>
        ensures { option_copied result ≡ numbered self.now.state.calls number }
    {
        let place = number.checked_sub(1)?;
        self.calls.get(place as usize)
    }

    /// The session as it sends a call, in a configuration and so far.
    fn sender<'a>(&'a self, config: &'a Config, progress: Progress) -> Sender<'a>
        ensures space { result.space.now ≡ self.now.space }
        ensures map { result.map.now ≡ self.now.space }
        ensures config { result.config.now ≡ config.now }
        ensures id { result.id ≡ self.now.state.id }
        ensures progress { result.progress ≡ progress }
    {
        Sender {
            space: &self.space,
            map: &self.map,
            config,
            id: self.id,
            progress,
        }
    }
}
