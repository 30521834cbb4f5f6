//! Scripts as text: a space, what each session calls, and the first steps.
//!
//! The language is this project's own, a line for each thing that is said. Words, numbers, texts
//! and signs are those of `hx_lex`. In the tables N stands for a name (a word other than `if` and
//! `set`, of at most 32 bytes), I for a number, T for a text of at most 1,024 bytes, V for a number
//! or a text, A for an actor (`c`, or `s` or `u` with its number, as `s1`).
//!
//! | line | how often | rules |
//! |---|---|---|
//! | `hx 1` | once | |
//! | `space N` | once | |
//! | `key N I` | once | the key's name, and 1 to 256 parts |
//! | `string N`, `int N I I` | 0 to 16 in all | names differ from each other and the key's; the first number is at most the second |
//! | `subspace N I, N I, ..` | 0 to 8 | 1 to 4 declared attributes, each once, with 1 to 256 parts; 4,096 regions in all |
//! | `servers I` | once | 1 to 16 |
//! | `tolerate I` | once | 0 to 4, below the servers |
//! | `session I` | 0 to 16 | numbers 1, 2, 3 in order; each is followed by its calls, 16,384 in all |
//! | `steps` | 0 or 1 | followed by its steps, at most 65,536 |
//!
//! | call or step | |
//! |---|---|
//! | `put T` and then `N=V` .. | |
//! | `get T`, `del T` | |
//! | `cput T if N=V .. set N=V ..` | one test and one assignment at least |
//! | `search` and then `N=V` or `N=I..I` .. | here the key's name is known too |
//! | `stop I`, `add I I` | a server; a server and a region |
//! | `atomic T` and then `add N=V`, `append N=V`, `min N=V` or `max N=V` .. | one edit at least; texts are appended, numbers added and compared |
//! | `deliver I.I` | the entry and place of a post |
//! | `tick A`, `halt A` | |
//!
//! Each attribute stands at most once in each group of assignments, tests, terms, edits or axes.
//! Lines end with a newline, the last may lack it. A line without tokens is skipped, but counted.
//!
//! The first faulty line is refused. In it a fault of the tokens comes first; then the tokens are
//! taken from left to right, and at each the first [`Reason`] in the order Order, Unknown, Twice,
//! TypeOf, Bounds, Limit counts. A count that is full already is Limit at the line's first word.
//! `specs/Grammar.antt` and the files below it say the same, a definition for each line, and
//! [`read`] gives exactly that. [`scripts_are_valid`] says that each such script is within the
//! limits, and that each of its calls fits its space.
//!
//! A script of several spaces begins with `hx 2`, and its lines come in another order: `servers I`,
//! `tolerate I`, then 1 to 8 spaces, each with its lines `space N`, `key N I`, attributes and
//! subspaces, and then sessions and steps. In each call and step the name of a space stands behind
//! the first word, as in `put books "a" year=1999` or `deliver books 1.0`. Names of spaces differ.
//! The limits of sessions, calls and steps hold of all spaces together, those of attributes and
//! regions of each. [`read_bundle`] reads both versions, as `specs/BundleTexts.antt` and
//! `specs/BundleGrammar.antt` define, and [`bundles_are_valid`] says that each such bundle is
//! within the limits; [`read`] reads the first version alone, and the number 2 is Bounds to it.
//!
//! [`read_op`] reads one line as a call of a session of a space, by the same definitions
//! (`specs/LoneCalls.antt`); [`calls_are_read_as_in_sessions`] says what a session makes of that
//! line. No calls stand before it, so no count is full.
//!
//! No contract says that there is memory, so a `read` that always answered `Memory` would be
//! proved. The tests show it succeed.
#![tactic(auto)]

// Where the definitions of `specs/` speak of a type of these modules it is `pub`, so that proofs of
// other crates can name it. None of them is handed out but those below.
mod actors;
mod axes;
mod bundle_draft;
mod bundle_reading;
mod draft;
mod drafts;
mod edits;
mod errors;
mod heading;
mod keyword;
mod laws;
mod line;
mod lone_calls;
mod ops;
mod reading;
mod values;
mod words;

pub use bundle_reading::{is_of_version_2, read_bundle};
pub use errors::{Reason, ScriptError};
pub use laws::{
    bundles_are_not_refused_by_steps, bundles_are_valid, calls_are_read_as_in_sessions,
    calls_fit_their_space, scripts_are_valid, texts_are_not_refused_by_steps,
};
pub use lone_calls::read_op;
pub use reading::read;
