//! A trace: the steps of all actors in order, as it lies in memory.
//!
//! Contracts see a [`Trace`] as the list of its entries. In memory it is a short head for each
//! entry and the posts and the notes of all entries, one after another. An entry that delivers a
//! post of the trace names that post, and doesn't hold its message once more. An entry that is
//! pushed is kept whole, as it is. The parts that a trace is made of are adopted: their entries
//! stay where they lie, and a place of eight bytes says where. That form is this project's choice:
//! memory that is touched for the first time is the dearest part of a run.
//!
//! No contract says that there is memory, so a function that always answered
//! [`Memory`](hx_types::Memory) would be proved. Runs of the program and the crates of tests make
//! traces and read them.
#![tactic(auto)]

mod entries;
mod filing;
mod growing;
mod heads;
mod lists;
mod places;
mod traces;

pub use entries::Entries;
pub use growing::GrowingTrace;
pub use hx_clock::{EntryRef, InputRef, Part, Parts, Room, Stamped};
pub use places::EntryPlace;
pub use traces::Trace;
