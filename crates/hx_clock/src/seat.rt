use crate::view::View;
use std::marker::Model;

/// What one actor carries and knows of a clock's history. It has no bytes. Contracts see it as the
/// name of its clock and its [`View`].
#[derive(Drop)]
pub struct Seat {
    pub(crate) token: atomic_table::Seat<(), View>,
}

/// What goes with a post: a seat that carries no number.
pub type Pass = Seat;

impl Model for Seat {
    ghost use Rattle.std.specs.Prelude.{◌≡◌, []};
    ghost use Rattle.hx_clock.specs.Seats.{Seated};

    ghost Value = { Seated };

    ghost view = { λ s. record { clock = s.token.table_id; view = s.token.me.0 } };

    ghost invariant = { λ s. s.token.me.1 ≡ [] };
}
