ghost use Rattle.std.specs.Prelude.{◌≡◌};

use crate::lent::Lent;
use hx_clock::{GrowingPart, Seat};
use hx_machine::Machine;
use hx_mail::{Envelope, Port};
use hx_types::Actor;
use std::collections::VecDeque;
use std::mem::ManuallyDrop;

/// An actor with its state, its entries and its seat, the first port of its box, the envelopes that
/// its driver keeps for it until there is room, how many envelopes of each port's name it took, and
/// the lists that it lends for each step.
pub struct Desk {
    pub actor: Actor,
    pub machine: Machine,
    pub part: GrowingPart,
    pub seat: Seat,
    pub inbox: Port,
    pub kept: VecDeque<Envelope>,
    pub heard: Vec<u64>,
    pub lent: Lent,
}

impl Drop for Desk {
    fn drop(self) {
        let Desk {
            actor: _,
            machine: _,
            part: _,
            seat: _,
            inbox: _,
            kept: _,
            heard: _,
            lent: _,
        } = self;
    }
}

impl Desk {
    /// What is left of an actor that takes no more turns: the actor, its entries, its seat and the
    /// first port of its box. The memory of its state is left to the system: to give it back piece
    /// by piece takes longer than to end.
    pub fn leave(self) -> (Actor, GrowingPart, Seat, Port)
        ensures { (result.0 ≡ self.actor) × (result.1 ≡ self.part) × (result.2 ≡ self.seat) × (result.3 ≡ self.inbox) }
    {
        let Desk {
            actor,
            machine,
            part,
            seat,
            inbox,
            kept: _,
            heard: _,
            lent: _,
        } = self;
        let _left = ManuallyDrop::new(machine);
        (actor, part, seat, inbox)
    }
}
