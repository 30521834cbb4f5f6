//! Tests of what the program doesn't reach: that it succeeds where there is memory, and that what
//! runs on several threads overlaps.
//!
//! Sizes, lists and traces; bytes in memory and texts that the program doesn't print; slots and
//! stores; the histories of a trace; of services a report and a group; gates of runs and shares.
//! All else is seen by the cases and checks that the gate gives to the program.
//!
//! Its proofs are of worked runs, of which the laws on chains are computed. The form of the tests is
//! this project's choice.
#![tactic(auto)]

#[cfg(test)]
mod gates;
#[cfg(test)]
mod history;
#[cfg(test)]
mod io;
#[cfg(test)]
mod meeting;
#[cfg(test)]
mod overlapping;
#[cfg(test)]
mod parts;
#[cfg(test)]
mod print;
#[cfg(test)]
mod running;
#[cfg(test)]
mod scripts;
#[cfg(test)]
mod services;
#[cfg(test)]
mod slot;
#[cfg(test)]
mod store;
#[cfg(test)]
mod trace;
#[cfg(test)]
mod types;
