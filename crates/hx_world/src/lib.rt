//! All actors of a script on one thread: each entry of the trace is the next step of one actor,
//! and the whole trace is a run of the script. Calls can be appended to the script while it runs.
//!
//! One process that runs all actors by a fixed schedule is this project's choice.
#![tactic(auto)]

mod actors;
mod admission;
mod coordinators;
mod ends;
mod hearing;
mod inside;
mod lending;
mod logs;
mod schedule;
mod servers;
mod sessions;
mod starting;
mod steps;
mod submitting;
mod waiting;
mod worlds;

pub use ends::{DrainError, Drained, StepError};
pub use worlds::World;
