//! A store that one program calls.
//!
//! A [`Service`] owns a world. Each call makes its entries at once, by the schedule, and answers
//! with a receipt; its trace is a run of the script with the calls that were made. Behind a lock,
//! threads share it: a [`Roster`] hands out the calls of a plan.
//!
//! Receipts, and conditional puts over the rows of a search, are this project's choice.
#![tactic(auto)]

mod advancing;
mod booking;
mod calling;
mod counting;
mod errors;
mod groups;
mod laws;
mod planned;
mod progress;
mod putting;
mod receipts;
mod rosters;
mod services;
mod starting;
mod trying;

pub use errors::ServiceError;
pub use laws::{free_sessions_are_at_rest, runs_are_booked, runs_show_progress};
pub use putting::Grouped;
pub use receipts::{Receipt, ReceiptRef, Receipts};
pub use rosters::{Charter, Roster};
pub use services::Service;
pub use trying::{CallError, TextError};
