//! Bundles: the scripts of several spaces that share servers and sessions.
//!
//! Each space is a store of its own, with a coordinator, a node of every server and session, epochs
//! and a trace of its own. What the spaces of a bundle share is said once: how many servers there
//! are and how many failures are tolerated, how many sessions, and in which order a session makes
//! its calls. So each space has a script with the calls to it alone, and the bundle adds for each
//! session the spaces of its calls in order, its turns. A script alone is a bundle of one space.
//!
//! `specs/Bundles.antt` says when a bundle is within the limits ([`MOST_SPACES`], and those of a
//! script for all spaces together).
//!
//! That a store has several spaces is HyperDex's; that each has servers' nodes and epochs of its
//! own is this project's choice.
#![tactic(auto)]

mod bundles;
mod limits;

pub use bundles::{Bundle, BundleStep, BundleSteps, Scripts, Turns};
pub use limits::MOST_SPACES;
