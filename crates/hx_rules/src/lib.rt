//! The rules of a space: which operations belong to it, what they do to an object, and which
//! configuration comes first.
//!
//! [`effect`] is the table of HyperDex's operations: the object that an operation on a key leaves,
//! and its answer. [`tests_hold`] tells whether an object has the values that a conditional put
//! asks for, and [`fits`] whether an operation belongs to a space: whether what it names is
//! declared, of the kind that was declared, and within the limits. [`first_config`] is the
//! configuration that every actor knows at the start, and [`count_regions`] tells how many regions
//! it has. Defaults, limits, the first layout, and what becomes of an edit without a result, are
//! this project's choice.
//!
//! What they mean is defined in `hx_types`, beside the types, since scripts, traces and laws speak
//! of it without these functions.
//!
//! [`effect`], [`first_config`] and [`first_shared_config`] take memory. That they can succeed no
//! contract says: each run shows it.
#![tactic(auto)]

mod edits;
mod effects;
mod fitting;
mod starting;

pub use effects::{effect, tests_hold};
pub use fitting::fits;
pub use starting::{count_regions, first_config, first_shared_config, size};
