//! Actors at their desks, and drivers: each driver moves some actors on one thread at a time, and
//! asks its fate what becomes of their posts.
//!
//! An actor at its desk has its entries, its seat, the port that takes for it, and the envelopes
//! that are kept for it. In a turn it takes one envelope and makes one entry of it. All memory of a
//! turn is taken before its entry has a stamp, so a stamped entry is always carried out. A step
//! puts its posts and notes into lists that the desk lends, from which they move to those of the
//! actor's part. What a desk knows is its own: the entries that its actor made, what was taken for
//! it, and what was put or is kept for them.
//!
//! A slice gives actors turns until no driver finds anything to do, as they tell one another. A
//! retry ticks the actors that wait for what may have been lost. What a driver posted, and of which
//! of its actors' entries, is counted by weights.
//!
//! That actors are dealt out to drivers, the order in a turn, that a slice ends where nobody is at
//! work, and that actors retry only when nothing else is left, are this project's choice. No
//! contract says that there is memory for a turn. The tests of whole runs give turns to actors of
//! each role.
#![tactic(auto)]

mod crews;
mod desk_retries;
mod desk_turns;
mod desks;
mod drivers;
mod entering;
mod faults;
mod gates;
mod lent;
mod lulls;
mod moves;
mod preparing;
mod receiving;
mod retrying;
mod turning;

pub use crews::Crew;
pub use desks::Desk;
pub use drivers::Driver;
pub use faults::Fault;
pub use gates::{Gate, Open};
pub use lent::Lent;
pub use lulls::AtWork;
