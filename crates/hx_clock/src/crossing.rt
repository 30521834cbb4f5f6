//! What threads share or hand on: that each type may is proved here.
use crate::clock::Clock;
use crate::growing::GrowingPart;
use crate::parts::{Part, Stamped};
use crate::seat::Seat;

fn may_share<T: Sync>(_: &T) {}

fn may_hand_on<T: Send>(_: &T) {}

fn share_clock(clock: &Clock) {
    may_share(clock);
}

fn hand_on_clock(clock: &Clock) {
    may_hand_on(clock);
}

fn hand_on_seat(seat: &Seat) {
    may_hand_on(seat);
}

fn hand_on_entry(stamped: &Stamped) {
    may_hand_on(stamped);
}

fn hand_on_part(part: &Part) {
    may_hand_on(part);
}

fn hand_on_growing_part(part: &GrowingPart) {
    may_hand_on(part);
}
