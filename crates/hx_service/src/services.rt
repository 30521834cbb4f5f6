ghost use Rattle.std.specs.Prelude.{◌≡◌, ◌↔◌, ℕ, [], IfErr, IfOk, IsTrue, OnOk, Err, false, length, reverse, true};
ghost use Rattle.hx_types.specs.declared.ids.Actor.TheVariants as an_actor;
ghost use Rattle.hx_types.specs.declared.limits.TheConstants.{MOST_CALLS};
ghost use Rattle.hx_types.specs.Fitting.{IsScript};
ghost use Rattle.hx_types.specs.Spaces.{Fits};
ghost use Rattle.hx_model.specs.Runs.{IsRun, is_actor};
ghost use Rattle.hx_model.specs.Schedule.{IsQuiet};
ghost use Rattle.hx_law_growing.specs.Growing.{calls_in};
ghost use Rattle.hx_law_growing.specs.Serving.{IsServed};
ghost use Rattle.hx_world.specs.Worlds.{HasFewEntries};
ghost use Rattle.hx_service.specs.Lawful.{IsLawful};
ghost use Rattle.hx_report.specs.Reporting.{IsReport};
ghost use Rattle.hx_service.specs.Laws.{IsBooked};
ghost use Rattle.hx_service.specs.Receipts.{IsFree, receipts_of};
ghost use Rattle.hx_service.specs.Services.{Calls, Grows, IsDrained, IsUnanswered, Stops, emptied, newest};

use crate::advancing::settle;
use crate::calling::make_call;
use crate::errors::ServiceError;
use crate::laws::runs_are_booked;
use crate::progress::{Progress, is_free};
use crate::receipts::{Booked, Receipt, Receipts};
use crate::starting::{empty_script, start_progress};
use hx_report::report;
use hx_trace::Trace;
use hx_types::{Memory, Op, Script, SessionId};
use hx_world::{DrainError, World};
use std::alloc::Global;
use std::marker::Model;

/// A store that one program calls: each call is submitted to a session that is free, and then
/// entries are made until nothing is left to do. Contracts see the script with the calls that were
/// submitted, and the trace.
///
/// Whoever holds a service knows that its trace is a run of its script that begins calls and
/// delivers each post at most once, and that everything holds of it that holds of every run.
///
/// A service takes 16,384 calls in its life, of up to 16 sessions, and an actor makes 1,048,576
/// entries.
pub struct Service {
    world: World,
    progress: Vec<Progress>,
    booked: Vec<Booked>,
}

impl Drop for Service {
    fn drop(self) {
        let Service {
            world: _,
            progress: _,
            booked: _,
        } = self;
    }
}

impl Model for Service {
    ghost use Rattle.std.specs.Prelude.{reverse};
    ghost use Rattle.hx_service.specs.Booking.{IsServing};
    ghost use Rattle.hx_service.specs.Services.{ServiceState};

    ghost Value = { ServiceState };

    ghost view = { λ s. s.world };

    ghost invariant = { λ s. IsServing s.world.script (reverse s.world.trace) s.progress.items s.booked.items };
}

impl Service {
    /// The script's space, and its sessions without calls. Its steps aren't taken.
    ///
    /// # Errors
    ///
    /// [`Memory`] alone.
    pub fn start(alloc: Global, script: &Script) -> Result<Service, Memory>
        requires { IsScript script.now }
        ensures { IfOk result (λ service. service ≡ record { script = emptied script.now; trace = [] }) }
    {
        let empty = empty_script(alloc, script)?;
        let world = World::start(alloc, &empty)?;
        let progress = start_progress(alloc, script.sessions.len())?;
        Ok(Service {
            world,
            progress,
            booked: Vec::new(alloc),
        })
    }

    /// The script, with the calls that were submitted.
    pub fn script(&self) -> &Script
        ensures script { result.now ≡ self.now.script }
        ensures valid { IsScript self.now.script }
    {
        let _trace = self.world.trace();
        self.world.script()
    }

    /// What was done so far: a run of the script in which each entry begins a call or delivers a
    /// post for the first time. Histories are linear, searches whole and true, and every answer has
    /// its cause.
    pub fn trace(&self) -> &Trace
        ensures trace { result.now ≡ self.now.trace }
        ensures valid { IsScript self.now.script }
        ensures run { IsRun self.now.script (newest self.now) }
        ensures few { HasFewEntries (newest self.now) }
        ensures served { IsServed (newest self.now) }
        ensures lawful { IsLawful self.now.script (newest self.now) }
    {
        hx_law_searches::histories_are_linear();
        hx_law_order::runs_have_one_order();
        hx_law_searches::searches_are_true_and_whole();
        hx_law_causes::answers_have_causes();
        hx_law_epochs::lost_regions_have_lost_their_replicas();
        let _ = &self.booked;
        self.world.trace()
    }

    /// The receipts of the calls that have ended, in the order in which they did: of each exactly
    /// one.
    pub fn receipts(&self) -> Receipts<'_>
        ensures exact { result ≡ receipts_of (newest self.now) }
        ensures booked { IsBooked self.now.script (newest self.now) }
    {
        runs_are_booked();
        Receipts {
            booked: self.booked.as_slice(),
            trace: self.world.trace(),
        }
    }

    /// The report of what was done so far: its space, its calls, histories and configurations.
    ///
    /// # Errors
    ///
    /// [`Memory`] alone.
    pub fn report(&self, alloc: Global) -> Result<Vec<u8>, Memory>
        ensures { IfOk result (λ bytes. IsReport self.now.script (newest self.now) [] bytes.items false) }
    {
        let trace = self.trace();
        report(alloc, self.script(), trace, &[], false)
    }

    /// The trace by itself.
    pub fn into_trace(self) -> Trace
        ensures trace { result ≡ self.trace }
        ensures valid { IsScript self.script }
        ensures run { IsRun self.script (reverse result) }
        ensures few { HasFewEntries (reverse result) }
        ensures served { IsServed (reverse result) }
    {
        let Service {
            world,
            progress: _,
            booked: _,
        } = self;
        world.into_trace()
    }

    /// Whether each call that was submitted to the session has ended.
    pub fn free(&self, session: SessionId) -> bool
        requires { is_actor self.now.script (an_actor.Session session) ≡ true }
        ensures { IsTrue result ↔ IsFree self.now.script (newest self.now) session }
    {
        is_free(&self.world, self.progress.as_slice(), session)
    }

    /// Submits a call of a session that is free, makes entries until nothing is left to do, and
    /// gives the call's receipt.
    ///
    /// # Errors
    ///
    /// [`ServiceError::Full`] exactly where 16,384 calls were submitted before, and then nothing
    /// changes. [`ServiceError::Unanswered`] exactly where nothing is left to do and the call
    /// hasn't ended. [`ServiceError::Worn`] where the next entry is one more of an actor that has
    /// made 1,048,576. After [`ServiceError::Memory`] the call may be submitted or not. What was
    /// made stays in each case.
    pub fn call(
        &mut self,
        alloc: Global,
        session: SessionId,
        op: Op,
    ) -> Result<Receipt, ServiceError>
        requires session { is_actor self.old.script (an_actor.Session session) ≡ true }
        requires fits { Fits self.old.script.space op }
        requires free { IsFree self.old.script (newest self.old) session }
        ensures calls { Calls self.old session op self.new result }
        ensures full { (result ≡ Err ServiceError.Full) ↔ (calls_in self.old.script ≡ MOST_CALLS) }
        ensures unanswered { (number : ℕ) → (result ≡ Err (ServiceError.Unanswered number)) ↔ IsUnanswered self.old session op self.new number }
        ensures drained { IsDrained self.new.script (newest self.old) (newest self.new) }
        ensures grows { Grows self.old self.new }
    {
        make_call(
            alloc,
            &mut self.world,
            &mut self.progress,
            &mut self.booked,
            session,
            op,
        )
    }

    /// Makes entries until nothing is left to do, and books the receipts of the calls that end.
    ///
    /// # Errors
    ///
    /// Where an entry is left, and there is no memory for it, or it is one more of an actor that
    /// has made 1,048,576. What was made stays.
    pub fn settle(&mut self, alloc: Global) -> Result<(), DrainError>
        ensures script { self.new.script ≡ self.old.script }
        ensures quiet { OnOk result (IsQuiet self.new.script (newest self.new)) }
        ensures stops { IfErr result (Stops self.new.script (newest self.new)) }
        ensures drained { IsDrained self.old.script (newest self.old) (newest self.new) }
        ensures grows { Grows self.old self.new }
    {
        settle(alloc, &mut self.world, &mut self.progress, &mut self.booked)
    }
}
