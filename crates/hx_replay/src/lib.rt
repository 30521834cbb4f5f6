//! What `replay` and `plan` make of a script's text, of one space or several: the replay of the
//! script's steps and its schedule, the plans of its searches, the bytes of the answer, and how the
//! call ends. And what `audit` says of a report's text.
//!
//! `hyperstore_alone` is the top call without threads. No contract says that there is memory, so a
//! call that always ended for want of it would be proved: the gate runs the program on scripts
//! whose reports are known.
//!
//! The schedule and the texts are this project's choice.
#![tactic(auto)]

mod alone;
mod answering;
mod auditing;
mod bundle_replaying;
mod bundle_steps;
mod commanded;
mod outcomes;
mod plans;
mod replaying;
mod steps;
mod texts;

pub use alone::hyperstore_alone;
pub use outcomes::{Done, Outcome, fault_text, status};
pub use replaying::one_trace;
pub use texts::{Scripted, read_scripted};
