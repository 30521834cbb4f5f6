//! The tokens of one line of a script.
//!
//! The language is this project's own. It has four kinds of token, each as long as it can be.
//!
//! - A word is a letter from `a` to `z`, and then such letters, digits and `_`.
//! - A number is digits, with `-` directly before them if negative, in the range of `i64`.
//! - A text stands between two `"`. In it `\"`, `\\`, `\n` and `\t` stand for the quote, the
//!   backslash, newline and tab; it has no other control character below U+0020 and no other
//!   escape.
//! - The signs are `=`, `,`, `.` and `..`.
//!
//! Spaces, tabs, and a carriage return that is the last character of the line, stand between
//! tokens. A `#` outside a text begins a comment, which goes to the end of the line and may have
//! any characters. The whole line is UTF-8.
//!
//! [`tokens`] gives the tokens exactly as the definitions in `specs/` do, or the first fault of
//! the line at its place. [`tokens_are_spelled`] says of each token what its slice of the line
//! is, and [`word_is_utf8`] that a word is a text.
//!
//! No contract says that there is memory, so a `tokens` that always answered `Memory` would be
//! proved. The tests show it succeed.
#![tactic(auto)]

mod errors;
mod laws;
mod numbers;
mod pieces;
mod quotes;
mod scan;
mod token;

pub use errors::LexError;
pub use laws::{tokens_are_spelled, word_is_utf8};
pub use numbers::magnitude;
pub use scan::tokens;
pub use token::{Piece, Token, TokenKind, Tokens};
