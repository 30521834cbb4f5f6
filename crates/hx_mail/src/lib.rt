//! Bounded mailboxes, one for each actor, whose ports know what was put and what was taken.
//!
//! A post goes from one driver's thread to another's in an [`Envelope`], whose pass knows the entry
//! that made the post. So whoever takes it can show that its own entry stands later. A [`Port`] is
//! the right to put and take under a name; the lists of what was done under each name are for
//! contracts alone and have no bytes. An envelope is handed over, never copied, and a box takes no
//! memory but for its places, all of it when it is made.
//! The form is this project's choice: a bounded queue for many producers, with lists of what passed
//! through it in the proof alone.
//!
//! No contract says that there is memory for a box. A test makes one, and puts and takes.
#![tactic(auto)]

mod crossing;
mod envelopes;
mod mailboxes;
mod ports;
mod rule;
mod views;

pub use envelopes::{Envelope, Letter};
pub use mailboxes::{Full, Mailbox};
pub use ports::Port;
pub use views::{BoxNames, Mailed, PortLists, PortView, Sent};
