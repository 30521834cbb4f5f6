//! The audit of a report: which clause of the promise on histories and searches it breaks, and at
//! which line.
//!
//! A report tells calls, histories and rows. [`audit`] judges these alone, whoever made the report:
//! six clauses, one after another over the whole report. An item finds its call where that stands
//! if sessions make as many calls each, or else by halving, and a row its history by halving. The
//! items mark the calls that stand in a history, so that no call is looked for in one. And a search
//! finds the change of each key that it has to show by halving, among those that began before all
//! later changes of the key.
//!
//! To judge a history by its calls and their intervals alone is Herlihy's and Wing's; the clauses,
//! their order and the ways to look things up are this project's choice.
//!
//! No contract says that there is memory, so an audit that always answered `Memory` would be
//! proved.
#![tactic(auto)]

mod foreign;
mod histories;
mod judging;
mod latest;
mod legal;
mod lines;
mod lookups;
mod missing;
mod notes;
mod rows;
mod searches;
mod standing;
mod times;
mod verdicts;
mod whole;

pub use judging::audit;
pub use verdicts::{Clause, Verdict, clause_text};
