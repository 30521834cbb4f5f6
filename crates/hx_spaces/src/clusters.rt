ghost use Rattle.std.specs.Prelude.{◌≡◌, ◌<◌, ◌≤◌, IfErr, IfOk, IsSomeAnd, OnErr, OnOk, is_some, length, reverse, slice_get};
ghost use Rattle.std.specs.List.{All};
ghost use Rattle.hx_bundle.specs.Bundles.{IsBundle};
ghost use Rattle.hx_spaces.specs.Clusters.{IsCourse, IsRunOfSpace, ShowsRun, traces_of};
ghost use Rattle.hx_spaces.specs.Courses.{at_start, first_begin, first_delivery_from, next_turn};
ghost use Rattle.hx_spaces.specs.Draining.{DrainFails, Drains, FailsIn, IsPartOf, Takes, most_in_all};
ghost use Rattle.hx_spaces.specs.Stepping.{IsStepAt, Refuses, Steps};

use crate::beginning::{Begin, begin_at, count_begin, first_begin};
use crate::delivering::{deliver_first, has_delivery, look_from};
use crate::opening::{leave_worlds, start_worlds};
use crate::stepping::{beginner, is_in_turn, step_at};
use hx_bundle::Bundle;
use hx_trace::Trace;
use hx_types::{Memory, Sequence, Step};
use hx_world::{DrainError, Drained, StepError, World};
use std::alloc::Global;
use std::marker::Model;

/// The trace of each space, in the order in which the spaces were declared.
pub type Traces = Sequence<Trace>;

/// A world for each space of a bundle, and the order in which all of them made their entries. The
/// bundle is borrowed.
///
/// HyperDex has a cluster of servers for many spaces, whose configuration all spaces share; that
/// each space has a coordinator and nodes of its own is this project's choice.
pub struct Cluster<'a> {
    bundle: &'a Bundle,
    worlds: Vec<World>,
    /// The space of each entry.
    order: Vec<u32>,
    /// How many calls each session began in all spaces.
    begun: Vec<usize>,
    /// No space before this one has a delivery to make.
    first: usize,
}

impl Drop for Cluster<'_> {
    fn drop(self) {
        let Cluster {
            bundle: _,
            worlds: _,
            order: _,
            begun: _,
            first: _,
        } = self;
    }
}

impl<'a> Model for Cluster<'a> {
    ghost use Rattle.hx_spaces.specs.Courses.{Course};
    ghost use Rattle.hx_spaces.specs.Keeping.{course_of, IsKeptFrom};

    ghost Value = { Course };

    ghost view = { λ c. course_of c.bundle.now c.worlds.items c.order.items };

    ghost invariant = { λ c. IsKeptFrom (course_of c.bundle.now c.worlds.items c.order.items) c.begun.items c.first };
}

impl<'a> Cluster<'a> {
    /// The actors of all spaces at their start, and no entry. [`Memory`] where there is no room for
    /// them.
    pub fn start(alloc: Global, bundle: &'a Bundle) -> Result<Cluster<'a>, Memory>
        requires { IsBundle bundle.now }
        ensures { IfOk result (λ cluster. cluster ≡ at_start bundle.now) }
    {
        let worlds = start_worlds(alloc, bundle.spaces.as_slice())?;
        let begun = vec![in alloc; 0; bundle.turns.len()]?;
        Ok(Cluster {
            bundle,
            worlds,
            order: Vec::new(alloc),
            begun,
            first: 0,
        })
    }

    /// The trace of a space so far: a run of its script.
    pub fn trace(&self, space: u32) -> &Trace
        requires { space < length self.now.bundle.spaces }
        ensures { IsSomeAnd (slice_get self.now.runs space) (ShowsRun result.now) }
    {
        self.worlds[space as usize].trace()
    }

    /// The space of each entry, in the order in which the entries were made. Each session makes its
    /// calls in that order, one after another, whatever their spaces.
    pub fn order(&self) -> &[u32]
        ensures order { result.now ≡ reverse self.now.order }
        ensures course { IsCourse self.now }
    {
        self.order.as_slice()
    }

    /// The traces by themselves, for a program that is about to end: the memory of the actors is
    /// left to the system, as [`World::leave`] does. [`Memory`] where there is no room for their
    /// list.
    pub fn leave(self, alloc: Global) -> Result<Traces, Memory>
        ensures course { IsCourse self.entry }
        ensures runs { OnOk result (All IsRunOfSpace self.entry.runs) }
        ensures traces { IfOk result (λ traces. traces ≡ traces_of self.entry) }
    {
        let Cluster {
            bundle: _,
            worlds,
            order: _,
            begun: _,
            first: _,
        } = self;
        leave_worlds(alloc, worlds)
    }

    /// Makes the one entry of a step in its space, as [`World::step`] does, under its condition.
    ///
    /// A tick that would begin a call is [`StepError::Idle`] also where a call of the session is
    /// under way in another space, or its next call is to another space. The other errors are those
    /// of [`World::step`], [`StepError::Memory`] among them. After an error nothing has changed.
    pub fn step(&mut self, alloc: Global, space: u32, step: &Step) -> Result<(), StepError>
        requires { IsStepAt self.old.bundle space step.now }
        ensures bundle { self.new.bundle ≡ self.old.bundle }
        ensures ok { OnOk result (Steps self.old self.new space step.now) }
        ensures refused { IfErr result (Refuses self.old space step.now) }
        ensures err { OnErr result (self.new ≡ self.old) }
    {
        let beginner = beginner(&self.worlds[space as usize], step);
        if !is_in_turn(
            self.bundle,
            self.worlds.as_slice(),
            self.begun.as_slice(),
            space,
            beginner,
        ) {
            return Err(StepError::Idle);
        }
        if self.order.reserve(1).is_err() {
            return Err(StepError::Memory);
        }
        step_at(alloc, &mut self.worlds, space as usize, step)?;
        look_from(&mut self.first, space as usize);
        self.order.push_reserved(space);
        count_begin(&mut self.begun, beginner);
        Ok(())
    }

    /// Makes up to n entries by the schedule: always the first delivery of the first space that has
    /// one, of a post that was never delivered to an actor that hasn't halted; else the begin of
    /// the next call of the lowest session that has one left and none under way in any space.
    ///
    /// An actor makes at most 1,048,576 entries in each space: [`DrainError::Worn`] comes exactly
    /// where the next of the n entries is one more of an actor that has made so many in its space.
    /// [`DrainError::Memory`] may come before each of them.
    ///
    /// After an error the entries that were made stay, and the cluster can go on from there. All
    /// spaces together have at most 276,824,064 entries, so a drain of more is never
    /// [`Drained::Spent`]. That deliveries come before begins and lower spaces before higher ones
    /// is this project's choice.
    pub fn drain(&mut self, alloc: Global, n: u64) -> Result<Drained, DrainError>
        ensures bundle { self.new.bundle ≡ self.old.bundle }
        ensures drained { IfOk result (Drains n self.old self.new) }
        ensures fails { IfErr result (DrainFails n self.old self.new) }
        ensures part { IsPartOf n self.old self.new }
        ensures most { length self.new.order ≤ most_in_all }
    {
        let drained = self.make_entries(alloc, n);
        let _ = &self.order;
        drained
    }

    /// Makes up to n entries by the schedule.
    #[tactic(auto, using(crate::proofs::Spending::scheduled_more))]
    fn make_entries(&mut self, alloc: Global, n: u64) -> Result<Drained, DrainError>
        ensures bundle { self.new.bundle ≡ self.old.bundle }
        ensures drained { IfOk result (Drains n self.old self.new) }
        ensures fails { IfErr result (DrainFails n self.old self.new) }
        ensures part { IsPartOf n self.old self.new }
    {
        for _made in 0..n {
            if !self.advance(alloc)? {
                return Ok(Drained::Quiet);
            }
        }
        if self.has_next() {
            Ok(Drained::Spent)
        } else {
            Ok(Drained::Quiet)
        }
    }

    /// Makes the next entry of the schedule, if there is one.
    fn advance(&mut self, alloc: Global) -> Result<bool, DrainError>
        ensures takes { IfOk result (Takes (next_turn self.old) self.old self.new) }
        ensures fails { IfErr result (FailsIn self.old.runs (next_turn self.old)) }
        ensures same { OnErr result (self.new ≡ self.old) }
    {
        if self.deliver_next(alloc)? {
            return Ok(true);
        }
        self.begin_next(alloc)
    }

    /// Makes the first delivery of the first space that has one.
    fn deliver_next(&mut self, alloc: Global) -> Result<bool, DrainError>
        ensures takes { IfOk result (Takes (first_delivery_from 0 self.old.runs) self.old self.new) }
        ensures fails { IfErr result (FailsIn self.old.runs (first_delivery_from 0 self.old.runs)) }
        ensures same { OnErr result (self.new ≡ self.old) }
    {
        if self.order.reserve(1).is_err() {
            return Err(DrainError::Memory);
        }
        match deliver_first(alloc, &mut self.worlds, self.first) {
            Ok(Some(space)) => {
                self.first = space;
                self.order.push_reserved(space as u32);
                Ok(true)
            }
            Ok(None) => {
                self.first = self.worlds.len();
                Ok(false)
            }
            Err(error) => Err(error),
        }
    }

    /// The lowest session that can begin its next call begins it.
    fn begin_next(&mut self, alloc: Global) -> Result<bool, DrainError>
        ensures takes { IfOk result (Takes (first_begin self.old.bundle self.old.runs) self.old self.new) }
        ensures fails { IfErr result (FailsIn self.old.runs (first_begin self.old.bundle self.old.runs)) }
        ensures same { OnErr result (self.new ≡ self.old) }
    {
        let first = first_begin(self.bundle, self.worlds.as_slice(), self.begun.as_slice());
        let Some(Begin { place, space }) = first else {
            return Ok(false);
        };
        if self.order.reserve(1).is_err() {
            return Err(DrainError::Memory);
        }
        begin_at(alloc, &mut self.worlds, space as usize, place)?;
        look_from(&mut self.first, space as usize);
        self.order.push_reserved(space);
        count_begin(&mut self.begun, Some(place));
        Ok(true)
    }

    /// Whether the schedule has a next entry.
    fn has_next(&mut self) -> bool
        ensures next { result ≡ is_some (next_turn self.old) }
        ensures same { self.new ≡ self.old }
    {
        has_delivery(&mut self.worlds, self.first)
            || first_begin(self.bundle, self.worlds.as_slice(), self.begun.as_slice()).is_some()
    }
}
