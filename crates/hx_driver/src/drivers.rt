ghost use Rattle.std.specs.Prelude.{ℕ, ◌≡◌};
ghost use Rattle.hx_types.specs.Fitting.{IsScript};
ghost use Rattle.hx_outbox.specs.Places.{AreBoxes};
ghost use Rattle.hx_driver.specs.Crews.{IsCrew, IsPosted};
ghost use Rattle.hx_driver.specs.Slices.{HaveNoRetry, HaveRetried, IsLaterCrew};

use crate::crews::Crew;
use crate::faults::Fault;
use crate::gates::Gate;
use crate::lulls::AtWork;
use crate::retrying::retry_each;
use crate::turning::rounds;
use hx_clock::Clock;
use hx_fate::Fate;
use hx_mail::Mailbox;
use hx_outbox::Floor;
use hx_types::Script;
use std::alloc::Global;
use std::sync::Wait;

/// Some actors, moved by one thread at a time, and what becomes of their posts.
#[derive(Drop)]
pub struct Driver {
    pub crew: Crew,
    pub fate: Box<dyn Fate + Send>,
}

impl Driver {
    /// The first want of memory or worn actor that a turn or a retry of this driver met.
    pub fn fault(&self) -> Option<Fault>
        ensures { result ≡ self.now.crew.fault }
    {
        self.crew.fault
    }

    /// The actors have turns, in rounds, in each of which every actor has a few in order, until no
    /// driver that shares `at_work` finds anything to do. After a fault nothing more is done.
    pub fn slice<R: Wait, G: Gate>(
        &mut self,
        rt: &R,
        alloc: Global,
        script: &Script,
        clock: &Clock,
        boxes: &[Mailbox<'_>],
        gate: &G,
        at_work: &AtWork,
    )
        requires script { IsScript script.now }
        requires boxes { AreBoxes script.now clock.now boxes.now }
        requires crew { (w : ℕ) × IsCrew script.now clock.now boxes.now w self.old.crew }
        ensures crew { (w : ℕ) → IsCrew script.now clock.now boxes.now w self.old.crew → IsCrew script.now clock.now boxes.now w self.new.crew }
        ensures later { IsLaterCrew self.old.crew self.new.crew }
        ensures posted { IsPosted self.old.crew self.new.crew (state self.old.fate) (state self.new.fate) }
        ensures retries { HaveNoRetry script.now self.old.crew self.new.crew }
    {
        let floor = Floor {
            rt,
            alloc,
            script,
            clock,
            boxes,
            gate,
        };
        rounds(&floor, &mut self.crew, &mut self.fate, at_work);
    }

    /// Ticks once, in their order, each of its actors that waits: one that hasn't halted, is no
    /// session that can begin its next call, and whose tick makes something. A fault ends it.
    pub fn retry<R: Wait, G: Gate>(
        &mut self,
        rt: &R,
        alloc: Global,
        script: &Script,
        clock: &Clock,
        boxes: &[Mailbox<'_>],
        gate: &G,
    )
        requires script { IsScript script.now }
        requires boxes { AreBoxes script.now clock.now boxes.now }
        requires crew { (w : ℕ) × IsCrew script.now clock.now boxes.now w self.old.crew }
        ensures crew { (w : ℕ) → IsCrew script.now clock.now boxes.now w self.old.crew → IsCrew script.now clock.now boxes.now w self.new.crew }
        ensures later { IsLaterCrew self.old.crew self.new.crew }
        ensures posted { IsPosted self.old.crew self.new.crew (state self.old.fate) (state self.new.fate) }
        ensures retried { HaveRetried script.now self.old.crew self.new.crew }
    {
        let floor = Floor {
            rt,
            alloc,
            script,
            clock,
            boxes,
            gate,
        };
        retry_each(&floor, &mut self.crew, &mut self.fate);
    }
}
