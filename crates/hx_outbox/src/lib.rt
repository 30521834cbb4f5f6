//! What a driver posts: each post of an entry is offered to the driver's fate, and put as often as
//! it says, or kept where a box is full.
//!
//! Where an envelope waits for room nothing is lost: it is kept and put again at the actor's next
//! turn. All memory for the copies of a post and for keeping its envelopes is taken before the
//! entry that makes it has a stamp: here `Copies::fill` alone takes memory. Each post is copied
//! once, and once more where the fate may repeat. What is proved counts by weights: of any measure
//! of posts, what was put or is kept measures as much as what was offered, each post as often as
//! its choice says. That such sums stand in for multisets of posts is this project's choice.
#![tactic(auto)]

mod copies;
mod floors;
mod offers;
mod outboxes;

pub use copies::Copies;
pub use floors::Floor;
pub use offers::{offer_all, offer_one};
pub use outboxes::{Outbox, place_of, put_kept, put_or_keep};
