//! The actors on several threads. What they made is merged into one trace.
//!
//! To merge sorted stretches is the usual merge of many lists (`itertools`); that entries stay
//! where their threads put them is this project's choice.
//!
//! No contract says that there is memory for a trace. Tests merge and gather the parts of actors.
#![tactic(auto)]

mod gathering;
mod merging;
mod stretches;

pub use gathering::{Gathered, SeatedPart, gather};
pub use hx_clock::{Part, Parts, Stamped};
pub use merging::merge;
