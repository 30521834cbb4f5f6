//! The options of the commands.

ghost use Rattle.std.specs.Prelude.{◌≡◌, ◌∷◌, [], ◌↔◌};
ghost use Rattle.hx_words.specs.Options.{words_of, IsWithin};

use crate::numbers::{number_of, number_within};
use hx_types::MOST_DRIVERS;

/// The longest period at which posts can be lost or repeated.
const LONGEST_PERIOD: u32 = 1_000_000;

/// An option of a command.
#[derive(Clone, Copy)]
pub enum CommandOption {
    /// So many threads drive the actors, from 1 to 16.
    Workers(u32),
    /// One post in so many is lost, from 0, which stands for never, to 1,000,000.
    Lose(u32),
    /// One post in so many is repeated, from 0, which stands for never, to 1,000,000.
    Repeat(u32),
    /// What is lost and repeated is drawn, from this number.
    Seed(u64),
    /// The trace is written too.
    Trace,
}

/// The option of this name and value.
pub(crate) fn option_of(name: &str, value: &str) -> Option<CommandOption>
    ensures { (option : CommandOption) → (result ≡ Some option) ↔ ((words_of option ≡ name.now ∷ value.now ∷ []) × IsWithin option) }
{
    if name == "--workers" {
        Some(CommandOption::Workers(number_within(value, 1, MOST_DRIVERS)?))
    } else if name == "--lose" {
        Some(CommandOption::Lose(number_within(value, 0, LONGEST_PERIOD)?))
    } else if name == "--repeat" {
        Some(CommandOption::Repeat(number_within(value, 0, LONGEST_PERIOD)?))
    } else if name == "--seed" {
        Some(CommandOption::Seed(number_of(value)?))
    } else {
        None
    }
}
