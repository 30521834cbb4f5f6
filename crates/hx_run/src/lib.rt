//! Drivers run to their end: rounds of slices and retries, the joining of ports, and `run`, which
//! makes a trace of a script on several threads.
//!
//! While an envelope is kept or wasn't taken, or a session can begin its next call, all drivers
//! have a slice, side by side; only where none of that is left, and a call is under way, does each
//! actor that waits retry. So retries come together, and only for what was lost. At the end all
//! ports of a box are joined into its first one, which then knows what was put and what was taken
//! of it. That retries come in rounds of their own is this project's choice.
//!
//! No contract says that there is memory for a run, or that a run comes to its end.
#![tactic(auto)]

mod closing;
mod joining;
mod resting;
mod rounds;
mod running;

pub use joining::{join_all, sort_by_place};
pub use resting::{all_ended, at_rest};
pub use rounds::run_rounds;
pub use running::{Ran, run};
