//! The boxes, actors and drivers of a script before the first turn: each actor has its number at
//! the clock, its box and its desk, and each driver has a port of its own at every box. The first
//! port of a box only takes; ports of driver j, from 0, have the name j + 1. That actor i belongs
//! to driver i modulo the number of drivers is this project's choice.
//!
//! No contract says that there is memory for them. A test deals three actors to two drivers.
#![tactic(auto)]

mod actors;
mod dealing;
mod enrolling;
mod opening;
mod outboxes;
mod seating;
mod setups;

pub use dealing::deal;
pub use enrolling::enrol_all;
pub use opening::{BoxPorts, open_boxes};
