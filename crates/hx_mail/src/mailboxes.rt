ghost use Rattle.std.specs.Prelude.{ℕ, ◌≡◌, ◌<◌, true, Some, IfOk, OnErr, MatchResult, MatchOption, ⊤};
ghost use Rattle.hx_mail.specs.declared.views.BoxNames.{BoxNames};
ghost use Rattle.hx_mail.specs.Boxes.{IsAddressed, IsPortOf};
ghost use Rattle.hx_mail.specs.Ports.{after_put, after_take, first_port, joined_port, mailed_of, sent_of, splitting, split_off, CarriesName, IsInOrder, IsOnce};
ghost use Rattle.hx_mail.specs.Rule.{HasHeld};

use crate::envelopes::{Envelope, Letter};
use crate::ports::Port;
use crate::rule::{Name, Naming, OneOrder, Order, Put, SplitOff, Take, TakeIn};
use crate::views::PortView;
use crossbeam_queue::RuledArrayQueue;
use hx_clock::Clock;
use hx_types::{Actor, Memory, Space};
use std::alloc::Global;
use std::marker::{Brand, Model};
use std::sync::Wait;

/// A box for the posts to one actor. Contracts see it as a name, which no other box has, its
/// capacity and its [`BoxNames`](crate::BoxNames).
pub struct Mailbox<'a> {
    queue: RuledArrayQueue<Letter, PortView, OneOrder>,
    clock: &'a Clock,
    owner: Actor,
    space: &'a Space,
    sessions: u32,
}

/// The parts are let go here alone: who drops a mailbox has nothing to prove of them.
impl Drop for Mailbox<'_> {
    fn drop(self) {
        let Mailbox {
            queue: _,
            clock: _,
            owner: _,
            space: _,
            sessions: _,
        } = self;
    }
}

impl<'a> Model for Mailbox<'a> {
    ghost use Rattle.crossbeam_queue.specs.Passes.{ruled_capacity};
    ghost use Rattle.hx_mail.specs.Boxes.{Boxed};

    ghost Value = { Boxed };

    ghost view = { λ b. record { queue = b.queue.table.shared.table_id; capacity = ruled_capacity b.queue; names = record { clock = b.clock.now; owner = b.owner; space = b.space.now; sessions = b.sessions } } };
}

/// The box was full. The envelope comes back.
#[derive(Drop)]
pub struct Full(pub Envelope);

impl<'a> Mailbox<'a> {
    /// An empty box of as many places, and its first port. All memory that the box ever needs is
    /// taken here. It fails with [`Memory`] alone.
    pub fn new(
        alloc: Global,
        clock: &'a Clock,
        owner: Actor,
        space: &'a Space,
        sessions: u32,
        capacity: usize,
    ) -> Result<(Mailbox<'a>, Port), Memory>
        requires { 0 < capacity }
        ensures names { IfOk result (λ made. made.0.names ≡ record { clock = clock.now; owner = owner; space = space.now; sessions = sessions }) }
        ensures capacity { IfOk result (λ made. made.0.capacity ≡ capacity) }
        ensures port { IfOk result (λ made. IsPortOf made.0 made.1 × (made.1.view ≡ first_port (Some made.0.names))) }
    {
        Mailbox::named::<Brand>(alloc, clock, owner, space, sessions, capacity)
    }

    fn named<N: Naming>(
        alloc: Global,
        clock: &'a Clock,
        owner: Actor,
        space: &'a Space,
        sessions: u32,
        capacity: usize,
    ) -> Result<(Mailbox<'a>, Port), Memory>
        requires names { N.names ≡ Some (record { clock = clock.now; owner = owner; space = space.now; sessions = sessions }) }
        requires capacity { 0 < capacity }
        ensures names { IfOk result (λ made. made.0.names ≡ record { clock = clock.now; owner = owner; space = space.now; sessions = sessions }) }
        ensures capacity { IfOk result (λ made. made.0.capacity ≡ capacity) }
        ensures port { IfOk result (λ made. IsPortOf made.0 made.1 × (made.1.view ≡ first_port (Some made.0.names))) }
    {
        let (queue, mut pass) = RuledArrayQueue::<Letter, PortView, OneOrder>::ruled(
            alloc, capacity,
        )?;
        let _spent = queue.another::<Name<N>>(&mut pass);
        let made = Mailbox {
            queue,
            clock,
            owner,
            space,
            sessions,
        };
        let port = Port {
            name: 0,
            splits: 0,
            pass,
        };
        Ok((made, port))
    }

    /// Puts an envelope under the port's name. It comes back only where the box was full at a
    /// moment of the call.
    #[inline(always)]
    pub fn put<R: Wait>(&self, rt: &R, envelope: Envelope, port: &mut Port) -> Result<(), Full>
        requires port { IsPortOf self.now port.old }
        requires addressed { IsAddressed self.now.names envelope }
        ensures port { IsPortOf self.now port.new }
        ensures put { MatchResult result (λ _. port.new.view ≡ after_put (mailed_of envelope) port.old.view) (λ full. (full.0 ≡ envelope) × (port.new.view ≡ port.old.view) × HasHeld port.old.view self.now.capacity) }
    {
        let letter = Letter {
            port: port.name,
            envelope,
        };
        match self.queue.try_push_as::<Put>(&mut port.pass, letter) {
            Ok(()) => Ok(()),
            Err(letter) => self.put_at_last(rt, letter.envelope, port),
        }
    }

    /// Puts an envelope that one attempt didn't put: the box was full, or another thread was in the
    /// way. It is rare, and the loop of attempts is large, so it has a function of its own.
    #[cold]
    #[inline(never)]
    fn put_at_last<R: Wait>(&self, rt: &R, envelope: Envelope, port: &mut Port) -> Result<(), Full>
        requires port { IsPortOf self.now port.old }
        requires addressed { IsAddressed self.now.names envelope }
        ensures port { IsPortOf self.now port.new }
        ensures put { MatchResult result (λ _. port.new.view ≡ after_put (mailed_of envelope) port.old.view) (λ full. (full.0 ≡ envelope) × (port.new.view ≡ port.old.view) × HasHeld port.old.view self.now.capacity) }
    {
        let name = port.name;
        let letter = Letter {
            port: name,
            envelope,
        };
        match self.queue.push_as::<Put, R>(rt, &mut port.pass, letter) {
            Ok(()) => Ok(()),
            Err(letter) => Err(Full(letter.envelope)),
        }
    }

    /// Takes the oldest envelope under the port's name, with the name under which it was put.
    /// `None` comes only where the box was empty at a moment of the call.
    #[inline(always)]
    pub fn take<R: Wait>(&self, rt: &R, port: &mut Port) -> Option<Letter>
        requires port { IsPortOf self.now port.old }
        ensures port { IsPortOf self.now port.new }
        ensures taken { MatchOption result ((port.new.view ≡ port.old.view) × HasHeld port.old.view 0) (λ letter. port.new.view ≡ after_take (sent_of letter) port.old.view) }
        ensures addressed { MatchOption result ⊤ (λ letter. IsAddressed self.now.names letter.envelope) }
    {
        match self.queue.try_pop_as::<Take>(&mut port.pass) {
            Some(letter) => Some(letter),
            None => self.take_at_last(rt, port),
        }
    }

    /// Takes an envelope that one attempt didn't take: the box was empty, or another thread was in
    /// the way. As [`Mailbox::put`], it has the loop of attempts in a function of its own.
    #[cold]
    #[inline(never)]
    fn take_at_last<R: Wait>(&self, rt: &R, port: &mut Port) -> Option<Letter>
        requires port { IsPortOf self.now port.old }
        ensures port { IsPortOf self.now port.new }
        ensures taken { MatchOption result ((port.new.view ≡ port.old.view) × HasHeld port.old.view 0) (λ letter. port.new.view ≡ after_take (sent_of letter) port.old.view) }
        ensures addressed { MatchOption result ⊤ (λ letter. IsAddressed self.now.names letter.envelope) }
    {
        self.queue.pop_as::<Take, R>(rt, &mut port.pass)
    }

    /// Whether the box is empty, by two loads. `true` comes only where it was empty at a moment of
    /// the call; `false` says nothing.
    #[inline]
    pub fn is_empty(&self, port: &mut Port) -> bool
        requires port { IsPortOf self.now port.old }
        ensures port { port.new ≡ port.old }
        ensures empty { result ≡ true → HasHeld port.old.view 0 }
    {
        self.queue.is_empty_as::<Take>(&mut port.pass)
    }

    /// A port with a new name, of the first port: the number of ports that were split off it
    /// before, and 1 more. Where it fails, with [`Memory`] alone, the first port is as it was.
    pub fn split<R: Wait>(&self, rt: &R, port: &mut Port) -> Result<Port, Memory>
        requires port { IsPortOf self.now port.old }
        requires first { (n : ℕ) × (port.old.view.splits ≡ Some n) × (n < 4294967295) }
        ensures port { IsPortOf self.now port.new }
        ensures made { MatchResult result (λ made. IsPortOf self.now made × (made.view ≡ split_off port.old.view) × (port.new.view ≡ splitting port.old.view)) (λ _. port.new.view ≡ port.old.view) }
    {
        // Taken as in `put` and `take`, which may wait: a split waits for nobody.
        let _ = rt;
        let pass = self.queue.another::<SplitOff>(&mut port.pass);
        port.splits += 1;
        Ok(Port {
            name: port.splits,
            splits: 0,
            pass,
        })
    }

    /// The port takes in another one, with its names and their lists. A port that carries the names
    /// of all ports of its box knows what was taken of what was put.
    pub fn join<R: Wait>(&self, rt: &R, port: &mut Port, other: Port)
        requires port { IsPortOf self.now port.old }
        requires other { IsPortOf self.now other }
        requires later { ¬ (CarriesName 0 other.view) }
        ensures port { IsPortOf self.now port.new }
        ensures joined { port.new.view ≡ joined_port port.old.view other.view }
        ensures order { IsInOrder port.new.view }
        ensures once { IsOnce port.new.view }
    {
        // Taken as in `put` and `take`, which may wait: a join waits for nobody.
        let _ = rt;
        let pass = other.into_pass();
        self.queue.absorb::<TakeIn>(&mut port.pass, pass);
        self.queue.learn_as::<Order>(&mut port.pass);
    }
}
