//! Records, histories and finished searches of a trace.
//!
//! Calls with a begin and an end, and histories of one object, are Herlihy's and Wing's; that gets
//! and searches are told by the versions that they name is this project's choice.
//!
//! No contract says that there is memory, so a function that always answered `Memory` would be
//! proved. The tests show each succeed.
#![tactic(auto)]

mod call_notes;
mod events;
mod items;
mod key_histories;
mod lines;
mod placing;
mod recorded;
mod searched;
mod walking;

pub use items::ItemRef;
pub use key_histories::{Histories, KeyHistory, KeyItems, histories, history};
pub use recorded::records;
pub use searched::searches;
pub use walking::{RecordsAndHistories, RecordsAndItems, records_and_histories, records_and_items};
