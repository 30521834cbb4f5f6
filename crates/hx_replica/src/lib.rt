//! A server: its replicas of the regions that it holds, and its step for each input.
//!
//! Replicas, chains and the turn of an update are those of chain replication, and chains that
//! depend on values HyperDex's; whom a server hears while configurations overlap is this project's
//! choice.
#![tactic(auto)]

mod accepting;
mod adopting;
mod contexts;
mod doubting;
mod installing;
mod keeping;
mod keys;
mod members;
mod outputs;
mod prepared;
mod replicas;
mod resuming;
mod servers;
mod settling;
mod slot_steps;
mod ticking;

pub use prepared::{Change, Plan};
pub use servers::Server;
