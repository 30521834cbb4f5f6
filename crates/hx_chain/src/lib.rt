//! Where an update goes, whom a replica hears, and what a leader decides: an update's places, the
//! neighbours of a replica in its chain, and whether a write gets a version.
//!
//! An update goes through the key region and, in each declared subspace, through the region of the
//! old object and then that of the new one (HyperDex's value-dependent chaining). In each of these
//! places it goes from member to member in list order (chain replication). The first member of the
//! key's region leads the key: it gives each write its version, or its answer.
//!
//! Servers of different configurations work side by side. What protects a replica is whom it hears,
//! by its own server's configuration: an update only from the position before it in the update's
//! chain and an acknowledgement only from the position after it, as in chain replication, and a
//! snapshot only from the member before it. That no configuration is closed before the next one is
//! issued is this project's choice.
#![tactic(auto)]

mod deciding;
mod hearing;
mod neighbours;
mod placing;
mod stuck_updates;

pub use deciding::decide;
pub use hearing::{hears_ack, hears_snap, hears_update};
pub use neighbours::{next, place_number, prev, region_at};
pub use placing::places;
pub use stuck_updates::{stuck, stuck_from};
