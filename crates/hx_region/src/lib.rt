//! Cells, regions, matches and plans: which region a key or an object lies in, and which a search
//! asks.
//!
//! HyperDex spreads objects over subspaces, each cut along its axes into regions of equal shape. An
//! axis is cut into 1 to 256 parts; each value of its attribute lies in one of them, its cell,
//! numbered from 0: a text by its hash, a whole number by where it stands in the range of its
//! attribute ([`cell`]).
//!
//! [`RegionMap`] numbers the regions: first those of the key subspace (subspace 0), then those of
//! the declared subspaces in order. Within a subspace a region is the row of its cells read as a
//! number of mixed radix, the first axis slowest. The numbering is this project's choice.
//!
//! In each subspace an object that [`matches`] the terms of a search lies in a region that meets
//! them, so a search may ask the regions of any one subspace: [`plan`] chooses the one with the
//! fewest regions to ask, as HyperDex does, among those that have no lost region to ask.
//!
//! Only [`RegionMap::new`], [`RegionMap::meeting`] and [`plan`] take memory. That they can succeed
//! no contract says: tests show it.
#![tactic(auto)]

mod candidates;
mod cells;
mod hashing;
mod laws;
mod map;
mod matching;
mod meeting;
mod planning;
mod rows;

pub use hashing::{cell, fnv, int_cell, text_cell};
pub use laws::{plans_miss_nothing, regions_are_shared_out};
pub use map::RegionMap;
pub use matching::matches;
pub use planning::plan;
