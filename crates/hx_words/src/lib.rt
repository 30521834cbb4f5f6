//! The one grammar of words: what the words of a call ask for.
//!
//! - `replay [--trace]`
//! - `plan`
//! - `audit`
//! - `run [--workers W] [--lose N] [--repeat N] [--seed S] [--trace]`
//! - `soak SEED CALLS [--workers W]`
//! - `share [--workers W]`
//! - `--help`
//! - `--version`
//!
//! Options stand after the name of the request and its numbers, in any order and each at most once,
//! and a value stands in a word of its own. A number is decimal digits without a leading zero, but
//! for `0` itself. W is from 1 to 16, and 2 where it isn't said; N is from 0 to 1,000,000, and 0
//! where it isn't said, which stands for never. S and SEED are any `u64`; where S isn't said, posts
//! are counted and not drawn. CALLS is from 1 to 16,384. Any other words ask for nothing. All this
//! is this project's choice.
//!
//! `specs/Saying.antt` says the same in one definition, which [`request_of`] meets in both
//! directions. No function here takes memory.
#![tactic(auto)]

mod choosing;
mod commands;
mod numbers;
mod options;
mod requests;

pub use commands::{Command, Question, Request, Run, Share, Soak};
pub use requests::{request_of, words_say_one_request};
