//! Several spaces on one thread: a world for each, and one order of all their entries.
//!
//! Each space is a store of its own, with a coordinator, a node of every server and session, epochs
//! and a trace of its own; its run is one of its script. What the spaces share is the order in
//! which each session makes its calls: it begins a call when the one before has ended, in whatever
//! space. A [`Cluster`] takes the steps of a bundle and goes on by its schedule.
//!
//! `specs/Courses.antt` has the schedule, `specs/Stepping.antt` the steps, and `specs/Begins.antt`
//! what is meant by one call after another; `specs/Following.antt` says the same by notes.
//!
//! That a store has several spaces is HyperDex's; the order over all of them is this project's
//! choice.
#![tactic(auto)]

mod beginning;
mod clusters;
mod delivering;
mod laws;
mod opening;
mod stepping;

pub use clusters::{Cluster, Traces};
pub use laws::{begins_follow_ends, entries_have_one_order};
