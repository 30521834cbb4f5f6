//! Legal histories of one object.
//!
//! A history is legal where its first item is the effect of its operation on the absent object, and
//! each further one that on the object after the item before it. [`legal`] tells whether a history
//! is, [`first_fault`] where it first isn't. Neither takes memory: the object after an operation is
//! compared in place, and never made.
//!
//! Legal histories of one object are Herlihy's and Wing's.
#![tactic(auto)]

mod edits;
mod effects;
mod faults;
mod writes;

pub use faults::{first_fault, legal};
