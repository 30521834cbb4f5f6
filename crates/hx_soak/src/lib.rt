//! What a soak needs: a workload drawn from a number, and the summary of what came of it.
//!
//! [`script_of`] draws calls of every kind of four sessions with the generator SplitMix64. Each
//! session writes keys of its own, so what each key holds in the end doesn't depend on how the
//! sessions overlap, and neither does [`summary`]: how many calls ended and how, how many objects
//! there are in the end, and a hash of these, wherever no region is lost.
//!
//! The workload and the summary's format are this project's own. The functions fail for want of
//! memory alone; no contract says that there is memory, so tests show scripts and whole summaries
//! being made.
#![tactic(auto)]

mod calls;
mod counting;
mod drawing;
mod objects;
mod scripts;
mod summing;
mod texts;

pub use scripts::script_of;
pub use summing::summary;
