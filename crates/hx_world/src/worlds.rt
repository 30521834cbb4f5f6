ghost use Rattle.std.specs.Prelude.{◌≡◌, ◌+◌, ◌<◌, ◌≤◌, [], IfErr, IfOk, MatchOption, None, OnErr, OnOk, Some, is_some, length, reverse, true};
ghost use Rattle.hx_types.specs.declared.ids.Actor.TheVariants as an_actor;
ghost use Rattle.hx_types.specs.declared.limits.TheConstants.{MOST_CALLS};
ghost use Rattle.hx_types.specs.Fitting.{IsScript, calls_of};
ghost use Rattle.hx_types.specs.Spaces.{Fits};
ghost use Rattle.hx_model.specs.Runs.{IsRun, is_actor, session_of};
ghost use Rattle.hx_model.specs.Schedule.{is_idle, next_entry};
ghost use Rattle.hx_law_growing.specs.Growing.{calls_in, with_call_of};
ghost use Rattle.hx_world.specs.Idle.{IsPostedFirst};
ghost use Rattle.hx_world.specs.Nexts.{DeliversNext, FailsAt, Makes, delivery_in, tick_of};
ghost use Rattle.hx_world.specs.Worlds.{Advances, DrainFails, Drains, Fails, HasFewEntries, IsPartOf, IsStepOf, Refuses, Steps, most_entries};

use crate::actors::{is_busy, is_idle};
use crate::ends::{DrainError, Drained, StepError};
use crate::inside::Inside;
use crate::logs::empty;
use crate::schedule::{begin, deliver_first, first_waiting, has_next, make_next};
use crate::starting::start_actors;
use crate::steps::take_step;
use crate::submitting::submit_call;
use hx_trace::Trace;
use hx_types::{Exact, Memory, Op, PostId, Script, SessionId, Step};
use std::alloc::Global;
use std::marker::Model;
use std::mem::ManuallyDrop;

/// All actors of a script, and the trace of their steps so far. The world has the script for its
/// own, and further calls can be appended to it.
///
/// The actors are those of HyperDex and of chain replication; that they stand on one thread and
/// take their inputs by a fixed schedule is this project's choice.
pub struct World {
    inside: Inside,
}

impl Drop for World {
    fn drop(self) {
        let World { inside: _ } = self;
    }
}

impl Model for World {
    ghost use Rattle.hx_world.specs.Worlds.{WorldState};
    ghost use Rattle.hx_world.specs.Invariant.{IsWorld};

    ghost Value = { WorldState };

    ghost view = { λ w. record { script = w.inside.script; trace = w.inside.log.trace } };

    ghost invariant = { λ w. IsWorld w.inside };
}

impl World {
    /// The actors at their start, a copy of the script, and no entry. [`Memory`] where there is no
    /// room for them.
    pub fn start(alloc: Global, script: &Script) -> Result<World, Memory>
        requires { IsScript script.now }
        ensures { IfOk result (λ world. world ≡ record { script = script.now; trace = [] }) }
    {
        hx_law_posts::posts_of_runs_are_sound();
        let actors = start_actors(alloc, script)?;
        let script = script.copy(alloc)?;
        Ok(World {
            inside: Inside {
                script,
                actors,
                log: empty(alloc),
            },
        })
    }

    /// The script, with the calls that were appended.
    pub fn script(&self) -> &Script
        ensures { result.now ≡ self.now.script }
    {
        &self.inside.script
    }

    /// Appends a call to those of a session, and gives its number, from 1. The trace stays: it is a
    /// run of the script with the call as it was one of the script without. The session begins the
    /// call once those before it have ended.
    ///
    /// [`Memory`] where there is no room for the call, and then nothing has changed.
    pub fn submit(&mut self, alloc: Global, session: SessionId, op: Op) -> Result<u32, Memory>
        requires session { is_actor self.old.script (an_actor.Session session) ≡ true }
        requires fits { Fits self.old.script.space op }
        requires few { calls_in self.old.script < MOST_CALLS }
        ensures number { IfOk result (λ n. n ≡ length (calls_of self.old.script session) + 1) }
        ensures script { OnOk result (self.new.script ≡ with_call_of self.old.script session op) }
        ensures trace { self.new.trace ≡ self.old.trace }
        ensures err { OnErr result (self.new ≡ self.old) }
    {
        submit_call(alloc, &mut self.inside, session, op)
    }

    /// Whether a session has a call left and none under way.
    pub fn is_idle(&self, session: SessionId) -> bool
        requires { is_actor self.now.script (an_actor.Session session) ≡ true }
        ensures { result ≡ is_idle (session_of self.now.script session (reverse self.now.trace)) }
    {
        is_idle(&self.inside, session)
    }

    /// Whether a call of a session is under way.
    pub fn is_busy(&self, session: SessionId) -> bool
        requires { is_actor self.now.script (an_actor.Session session) ≡ true }
        ensures { result ≡ (session_of self.now.script session (reverse self.now.trace)).under_way }
    {
        is_busy(&self.inside, session)
    }

    /// What was done so far: a run of the script.
    pub fn trace(&self) -> &Trace
        ensures trace { result.now ≡ self.now.trace }
        ensures valid { IsScript self.now.script }
        ensures run { IsRun self.now.script (reverse self.now.trace) }
        ensures few { HasFewEntries (reverse self.now.trace) }
    {
        &self.inside.log.trace
    }

    /// The trace by itself.
    pub fn into_trace(self) -> Trace
        ensures trace { result ≡ self.trace }
        ensures valid { IsScript self.script }
        ensures run { IsRun self.script (reverse result) }
        ensures few { HasFewEntries (reverse result) }
    {
        let World { inside } = self;
        let log = inside.log;
        log.trace
    }

    /// The trace by itself, for a program that is about to end: the memory of the actors is not
    /// given back, which would take long, but left to the system. Elsewhere use
    /// [`World::into_trace`].
    pub fn leave(self) -> Trace
        ensures trace { result ≡ self.trace }
        ensures valid { IsScript self.script }
        ensures run { IsRun self.script (reverse result) }
        ensures few { HasFewEntries (reverse result) }
    {
        let World { inside } = self;
        let _left = ManuallyDrop::new(inside.actors);
        let log = inside.log;
        log.trace
    }

    /// Makes the one entry of a step: a delivery, or a tick or a halt of one of the script's
    /// actors. A post may be delivered any number of times; a drain delivers those that were never
    /// delivered. That steps may come before the schedule, so that a script can reorder and repeat
    /// posts and halt servers, is this project's choice.
    ///
    /// Where the step can't be taken nothing changes, and the error is that of the first reason
    /// that holds: [`StepError::Unsent`] for a post that wasn't sent, [`StepError::Halted`] for a
    /// server that has halted, [`StepError::NotServer`] for a halt of another actor,
    /// [`StepError::Idle`] for a tick that would make no post and no note, [`StepError::Worn`] for
    /// an actor that has made 1,048,576 entries. [`StepError::Memory`] may come before any of them.
    pub fn step(&mut self, alloc: Global, step: &Step) -> Result<(), StepError>
        requires actor { IsStepOf self.old.script step.now }
        ensures script { self.new.script ≡ self.old.script }
        ensures ok { OnOk result (Steps self.old.script (reverse self.old.trace) (reverse self.new.trace) step.now) }
        ensures refused { IfErr result (Refuses self.old.script (reverse self.old.trace) step.now) }
        ensures err { OnErr result (self.new.trace ≡ self.old.trace) }
        ensures few { HasFewEntries (reverse self.new.trace) }
        ensures most { length self.new.trace ≤ most_entries }
    {
        take_step(alloc, &mut self.inside, step)
    }

    /// Makes up to n entries by the schedule: always the delivery of the lowest post that wasn't
    /// delivered and whose receiver hasn't halted, else the begin of the next call of the lowest
    /// idle session.
    ///
    /// An actor makes at most 1,048,576 entries: [`DrainError::Worn`] comes exactly where the next
    /// of the n entries is one more of an actor that has made so many. [`DrainError::Memory`] may
    /// come before each of them.
    ///
    /// After an error the entries that were made stay, and the world can go on from there.
    #[tactic(auto, using(crate::proofs::Spending::scheduled_more))]
    pub fn drain(&mut self, alloc: Global, n: u64) -> Result<Drained, DrainError>
        ensures script { self.new.script ≡ self.old.script }
        ensures drained { IfOk result (Drains self.old.script n (reverse self.old.trace) (reverse self.new.trace)) }
        ensures fails { IfErr result (DrainFails self.old.script n (reverse self.old.trace) (reverse self.new.trace)) }
        ensures part { IsPartOf self.old.script n (reverse self.old.trace) (reverse self.new.trace) }
        ensures few { HasFewEntries (reverse self.new.trace) }
        ensures most { length self.new.trace ≤ most_entries }
    {
        for _made in 0..n {
            if !self.advance(alloc)? {
                return Ok(Drained::Quiet);
            }
        }
        if self.has_next() {
            Ok(Drained::Spent)
        } else {
            Ok(Drained::Quiet)
        }
    }

    /// Makes the one entry that delivers the lowest post that was never delivered and whose
    /// receiver hasn't halted, as a drain does first, and tells whether there was one. So several
    /// worlds can be run by one schedule.
    ///
    /// [`DrainError::Worn`] comes exactly where the receiver has made 1,048,576 entries;
    /// [`DrainError::Memory`] may come too. After an error nothing has changed.
    pub fn deliver_next(&mut self, alloc: Global) -> Result<bool, DrainError>
        ensures script { self.new.script ≡ self.old.script }
        ensures delivers { IfOk result (DeliversNext self.old.script (reverse self.old.trace) (reverse self.new.trace)) }
        ensures fails { IfErr result (FailsAt (reverse self.old.trace) (delivery_in self.old.script (reverse self.old.trace))) }
        ensures err { OnErr result (self.new.trace ≡ self.old.trace) }
        ensures few { HasFewEntries (reverse self.new.trace) }
        ensures most { length self.new.trace ≤ most_entries }
    {
        deliver_first(alloc, &mut self.inside)
    }

    /// The name of the post that [`World::deliver_next`] would deliver. The trace stays; the names
    /// of posts to halted servers are forgotten on the way.
    pub fn oldest(&mut self) -> Option<PostId>
        ensures first { MatchOption result (delivery_in self.old.script (reverse self.old.trace) ≡ None) (IsPostedFirst self.old.script (reverse self.old.trace)) }
        ensures state { self.new ≡ self.old }
    {
        first_waiting(&mut self.inside)
    }

    /// Makes the one entry with which an idle session begins its next call.
    ///
    /// [`DrainError::Worn`] comes exactly where the session has made 1,048,576 entries;
    /// [`DrainError::Memory`] may come too. After an error nothing has changed.
    pub fn begin(&mut self, alloc: Global, session: SessionId) -> Result<(), DrainError>
        requires session { is_actor self.old.script (an_actor.Session session) ≡ true }
        requires idle { is_idle (session_of self.old.script session (reverse self.old.trace)) ≡ true }
        ensures script { self.new.script ≡ self.old.script }
        ensures begins { OnOk result (Makes self.old.script (reverse self.old.trace) (reverse self.new.trace) (tick_of session)) }
        ensures fails { IfErr result (FailsAt (reverse self.old.trace) (Some (tick_of session))) }
        ensures err { OnErr result (self.new.trace ≡ self.old.trace) }
        ensures few { HasFewEntries (reverse self.new.trace) }
        ensures most { length self.new.trace ≤ most_entries }
    {
        begin(alloc, &mut self.inside, session)
    }

    fn advance(&mut self, alloc: Global) -> Result<bool, DrainError>
        ensures script { self.new.script ≡ self.old.script }
        ensures advances { IfOk result (Advances self.old.script (reverse self.old.trace) (reverse self.new.trace)) }
        ensures fails { IfErr result (Fails self.old.script (reverse self.old.trace)) }
        ensures err { OnErr result (self.new.trace ≡ self.old.trace) }
        ensures few { HasFewEntries (reverse self.new.trace) }
        ensures most { length self.new.trace ≤ most_entries }
    {
        make_next(alloc, &mut self.inside)
    }

    fn has_next(&mut self) -> bool
        ensures next { result ≡ is_some (next_entry self.old.script (reverse self.old.trace)) }
        ensures state { self.new ≡ self.old }
        ensures few { HasFewEntries (reverse self.new.trace) }
        ensures most { length self.new.trace ≤ most_entries }
    {
        has_next(&mut self.inside)
    }
}
