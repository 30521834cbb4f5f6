//! The clock: one history of all actors, whichever threads they run on.
//!
//! An entry's place in the history is its [`Stamp`](hx_types::Stamp), which [`Clock::act`] draws by
//! one atomic addition and waits for nobody. What an actor has seen it carries in its [`Seat`],
//! which has no bytes: so whoever takes a post knows that the entry that made it stands before its
//! own. The form is this project's choice: a ticket counter for a history, and vector clocks in the
//! proof alone.
//!
//! What an actor has made lies in a [`GrowingPart`]: a short head for each entry, and the posts,
//! the notes and the delivered messages of all entries in a list for each kind, so that an entry
//! takes no memory of its own.
//!
//! No contract says that there is memory for a clock. A test makes one and draws stamps by it.
#![tactic(auto)]

mod clock;
mod crossing;
mod filing;
mod growing;
mod heads;
mod laws;
mod lent;
mod limits;
mod part_lists;
mod parts;
mod rooms;
mod rule;
mod seat;
mod view;

pub use clock::Clock;
pub use growing::GrowingPart;
pub use laws::parts_stay_causal;
pub use lent::{EntryRef, InputRef};
pub use limits::MOST_ENROLLED;
pub use parts::{Part, Parts, Stamped};
pub use rooms::{Room, fits, is_few, make_room, run_of};
pub use seat::{Pass, Seat};
pub use view::{NumberedPart, View};
