//! A session: a client that makes its calls one after the other, and its step for each input.
//!
//! A [`Session`] finds the leader of a key and plans its searches by itself, as HyperDex's clients
//! do. That memory suffices no contract says: a test shows it.
#![tactic(auto)]

mod kinds;
mod merging;
mod parts;
mod prepared;
mod sending;
mod sessions;

pub use prepared::{Change, Plan};
pub use sessions::Session;
