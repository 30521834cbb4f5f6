//! Callers on threads of their own make the calls of a script, one at a time behind one lock.
//!
//! What stands under the lock is a roster, whose type names the script: whoever takes the lock has
//! a run of it, with the histories of one thread. How the callers take turns, and that each makes
//! the calls of its sessions one session after the other, is this project's choice.
//!
//! No contract says that a caller makes any call: what the callers leave is made by [`share`]
//! itself, after them. A test holds two of them until both have begun.
#![tactic(auto)]

mod callers;
mod rest;
mod sharing;

pub use sharing::{Shared, share};
