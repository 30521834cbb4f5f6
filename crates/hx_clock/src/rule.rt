//! The rule that the clock keeps, and the kinds of atomic steps.
use crate::view::View;
use atomic_table::{Join, Play, Split, TableRule};
use std::marker::{Brand, PhantomData};

/// There is one history, of which each seat has a view.
pub(crate) struct OneHistory;

impl TableRule<(), View, ()> for OneHistory {
    ghost use Rattle.std.specs.Prelude.{[], Some};
    ghost use Rattle.hx_clock.specs.Rule.{IsKept};
    ghost use Rattle.hx_clock.specs.Views.{counting};

    ghost holds = { λ _. IsKept };

    ghost first = { λ _. counting };
}

/// The entry that an act makes, which the proof alone sees.
pub(crate) trait Making {
    ghost use Rattle.hx_types.specs.declared.traces.Entry.{Entry};

    ghost entry: { Entry };
}

impl Making for Brand {
    ghost use Rattle.std.specs.Prelude.{[]};
    ghost use Rattle.hx_types.specs.declared.ids.Actor.TheVariants.{Coordinator};
    ghost use Rattle.hx_types.specs.declared.traces.Input.TheVariants.{Tick};

    ghost entry = { record { actor = Coordinator; input = Tick; outputs = []; notes = [] } };
}

/// An addition to the number of stamps: the acting seat's part has the entry added.
pub(crate) struct Act<M>(PhantomData<M>);

impl<M: Making> Play<(), View> for Act<M> {
    ghost use Rattle.hx_clock.specs.Rule.{Acts};

    ghost then = { λ _. Acts M.entry };
}

/// An addition to the number of actors: the counting seat carries the number drawn.
pub(crate) struct Enrol;

impl Play<(), View> for Enrol {
    ghost use Rattle.hx_clock.specs.Rule.{Enrols};

    ghost then = { λ _. Enrols };
}

/// A load of the number of stamps: no view changes.
pub(crate) struct Load;

impl Play<(), View> for Load {
    ghost use Rattle.hx_clock.specs.Rule.{Loads};

    ghost then = { λ _. Loads };
}

/// The number drawn last goes from the counting seat to a new one.
pub(crate) struct Hand;

impl Split<View> for Hand {
    ghost use Rattle.hx_clock.specs.Views.{handing, handed};

    ghost left = { handing };

    ghost right = { handed };
}

/// A new seat knows what another carries or knows.
pub(crate) struct Tell;

impl Split<View> for Tell {
    ghost use Rattle.hx_clock.specs.Views.{told};

    ghost left = { λ v. v };

    ghost right = { told };
}

/// A seat takes in another, which is spent.
pub(crate) struct Learn;

impl Join<View> for Learn {
    ghost use Rattle.hx_clock.specs.Views.{joined, nothing};

    ghost both = { joined };

    ghost spent = { nothing };
}
