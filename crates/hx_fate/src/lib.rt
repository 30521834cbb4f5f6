//! Fates: what becomes of a post between two actors.
//!
//! A driver asks its fate for each post that may be lost, and delivers it, loses it or delivers it
//! twice as the fate answers. Every run is proved legal whatever is lost and repeated. What is
//! proved of every fate is that it counts its answers, keeps how it was tuned and, where it is told
//! to repeat nothing, delivers nothing twice, and of each of those here what it answers. Fates
//! stand for the network of a test that drops and repeats messages on purpose, as fault injection
//! does; that the fate is a value with a state of its own is this project's choice. The generator
//! is SplitMix64 of the kit's `rand_xoshiro`.
//!
//! No function here takes memory.
#![tactic(auto)]

mod choices;
mod drawn;
mod every_nth;
mod faithful;
mod fates;
mod losing;

pub use drawn::Drawn;
pub use every_nth::EveryNth;
pub use faithful::Faithful;
pub use fates::{Choice, Fate, FateState, Tuning};
pub use losing::Losing;
