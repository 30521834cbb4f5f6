//! The state of one key at one replica of a region: the last committed update, the pending updates
//! in the order of their versions, and those that came before their turn.
//!
//! An update that comes before its predecessor waits for it, as in HyperDex's value-dependent
//! chains. An accepted update is pending until its acknowledgement has come back through the
//! chain, and then committed, as in chain replication.
//!
//! This project's choices are the representation and the room. A [`Slot`] has no past: a committed
//! update goes into its base, which has the row, and at a key region the newest call of each
//! session and the last version at each region. The pending and the early updates are held whole;
//! [`Slot::mark`] and [`Slot::touched`] read the pending ones and then the base. [`Slot::reserve`]
//! makes room ahead; offers, acknowledgements and commits then take no memory, so that none of them
//! can fail. [`Slot::kept`], [`Slot::renewed`] and [`Slot::reserve`] alone take memory: that they
//! can succeed no contract says, but the tests show it.
//!
//! An update is held, committed, until it can go into the base. At a key region that is where the
//! base has room for its mark and its touches, which is made with that for the next offer: so a key
//! that is written once takes no memory for them. Elsewhere it goes there at once, but where a
//! count of owners is full: what a base holds it shares with the update, and a shared value has at
//! most 2^63 owners.
#![tactic(auto)]

mod ack_order;
mod acks;
mod bases;
mod early;
mod line;
mod marks;
mod renewing;
mod rooms;
mod slots;
mod touches;
mod updates;

pub use line::RowRef;
pub use slots::Slot;
