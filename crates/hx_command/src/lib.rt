//! The commands of `hx`: the top call `hyperstore`, which takes the words, a source and a sink,
//! runs scripts on one thread or several and judges reports, and `run`, which makes that call for a
//! process and tells its outcome.
//!
//! The contract of [`hyperstore`] is the theorem. No contract says that there is memory, so a
//! program that always ended for want of it would be proved: the gate runs it on scripts whose
//! reports are known.
//!
//! The words and how a call ends are this project's choice.
#![tactic(auto)]

mod commands;
mod endings;
mod finished;
mod program;
mod reading;
mod reporting;
mod shared;
mod soaking;
mod space_parts;
mod space_reports;
mod space_runs;
mod threads;
mod top;
mod writing;

pub use finished::Finished;
pub use program::run;
pub use top::hyperstore;
