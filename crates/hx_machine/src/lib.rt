//! One actor of a script, of any role, as a state machine: it starts, computes its step on an
//! input, and makes what the step changes. So a driver moves the coordinator, a server and a
//! session by the same calls. What a step posts and notes goes into lists that the driver lends.
//!
//! What is proved speaks of an actor and the entries that it made on its own, the newest first:
//! after them it has the state that the definitions fold from them, and what it makes of its next
//! input is theirs. That a driver knows no more of a run than this is this project's choice.
//!
//! No contract says that there is memory for a step.
#![tactic(auto)]

mod changes;
mod machines;
mod steps;

pub use changes::Change;
pub use machines::Machine;
