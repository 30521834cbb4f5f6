//! The rule that a box keeps, and the kinds of atomic steps.
use crate::envelopes::Letter;
use crate::views::PortView;
use crossbeam_queue::protocol::{Join, Lesson, Outcome, Protocol, Split};
use std::marker::{Brand, PhantomData};

/// What is taken was put, once and in order, and each port knows its part.
pub struct OneOrder;

impl Protocol<Letter, PortView> for OneOrder {
    ghost use Rattle.std.specs.Prelude.{None};
    ghost use Rattle.hx_mail.specs.Ports.{first_port};
    ghost use Rattle.hx_mail.specs.Rule.{IsKept};

    ghost holds = { IsKept };

    ghost first = { first_port None };
}

/// The names that a box is given, which the proof alone sees.
pub(crate) trait Naming {
    ghost use Rattle.std.specs.Prelude.{Option};
    ghost use Rattle.hx_mail.specs.declared.views.BoxNames.{BoxNames};

    ghost names: { Option BoxNames };
}

impl Naming for Brand {
    ghost use Rattle.std.specs.Prelude.{None};

    ghost names = { None };
}

/// The first port learns the names of its box.
pub(crate) struct Name<N>(PhantomData<N>);

impl<N: Naming> Split<PortView> for Name<N> {
    ghost use Rattle.hx_mail.specs.Ports.{port, spent_port};

    ghost left = { λ v. port v.own N.names v.lists v.splits };

    ghost right = { λ _. spent_port };
}

/// A letter is put.
pub(crate) struct Put;

impl Outcome<Letter, PortView> for Put {
    ghost use Rattle.std.specs.Prelude.{◌≡◌};
    ghost use Rattle.hx_mail.specs.Ports.{after_put, mailed_of};

    ghost then = { λ v x w. w ≡ after_put (mailed_of x.envelope) v };
}

impl Lesson<Letter, PortView> for Put {
    ghost use Rattle.hx_mail.specs.Rule.{CanHold};

    ghost fact = { CanHold };
}

/// A letter is taken.
pub(crate) struct Take;

impl Outcome<Letter, PortView> for Take {
    ghost use Rattle.std.specs.Prelude.{◌≡◌, Some};
    ghost use Rattle.hx_mail.specs.declared.views.BoxNames.{BoxNames};
    ghost use Rattle.hx_mail.specs.Boxes.{IsFor};
    ghost use Rattle.hx_mail.specs.Ports.{after_take, sent_of};

    ghost then = { λ v x w. (w ≡ after_take (sent_of x) v) × ((n : BoxNames) → v.of_box ≡ Some n → IsFor n x) };
}

impl Lesson<Letter, PortView> for Take {
    ghost use Rattle.hx_mail.specs.Rule.{CanHold};

    ghost fact = { CanHold };
}

/// A port with a new name comes of the first one.
pub(crate) struct SplitOff;

impl Split<PortView> for SplitOff {
    ghost use Rattle.hx_mail.specs.Ports.{splitting, split_off};

    ghost left = { splitting };

    ghost right = { split_off };
}

/// A port takes in another, which is spent.
pub(crate) struct TakeIn;

impl Join<PortView> for TakeIn {
    ghost use Rattle.hx_mail.specs.Ports.{joined_port, spent_port};

    ghost both = { joined_port };

    ghost spent = { spent_port };
}

/// What a port that carries all names knows of order.
pub(crate) struct Order;

impl Lesson<Letter, PortView> for Order {
    ghost use Rattle.hx_mail.specs.Ports.{IsInOrder, IsOnce};

    ghost fact = { λ v _. IsInOrder v × IsOnce v };
}
