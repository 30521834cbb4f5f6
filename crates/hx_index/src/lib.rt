//! An index over attributes: which of the rows that a caller keeps meet a term.
//!
//! An [`Index`] keeps one order for each attribute: the numbers of the rows, by the value of that
//! attribute and then by the key. It copies no value; a search looks at the rows through a
//! [`Look`], which counts how often.
//!
//! That a search by an attribute goes to its objects without going through all is HyperDex's;
//! orders of numbers, and counted looks, are this project's choice.
#![tactic(auto)]

mod comparing;
mod indexes;
mod looking;
mod orders;
mod searching;
mod staying;
mod views;

pub use indexes::Index;
pub use looking::{Ids, Look, Side};
pub use views::View;
