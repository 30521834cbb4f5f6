//! Why a text is refused.

ghost use Rattle.std.specs.Prelude.{◌≡◌};
ghost use Rattle.hx_script.specs.declared.errors.Stop.TheVariants as stops;

use std::alloc::{AllocError, AllocFailed};

/// What is wrong with a line.
#[derive(Clone, Copy, Debug, PartialEq, Eq)]
pub enum Reason {
    /// It has no tokens, or isn't UTF-8.
    Token,
    /// A token isn't of a kind that may stand there, the line may not come there, or it ends too
    /// early.
    Order,
    /// No such name is declared.
    Unknown,
    /// The name stands already.
    Twice,
    /// The value isn't of the attribute's kind.
    TypeOf,
    /// A number is outside its range.
    Bounds,
    /// A count or size passes its limit.
    Limit,
    /// A step can't be done. [`read`](crate::read) never says so: only a run can tell.
    Step,
}

/// Why there is no script.
#[derive(Clone, Copy, Debug, PartialEq, Eq)]
pub enum ScriptError {
    /// Memory was wanting.
    Memory,
    /// The first faulty line, from 1, and what is wrong with it. A text that ends before the line
    /// `tolerate` is faulty at the line after the last.
    Refused { line: u64, reason: Reason },
}

/// Why a line isn't read.
#[derive(Clone, Copy)]
pub(crate) enum Stop {
    Memory,
    Fault(Reason),
}

impl From<hx_types::Memory> for Stop {
    ghost from_gives = { λ _ e. e ≡ stops.Memory };

    fn from(_: hx_types::Memory) -> Stop {
        Stop::Memory
    }
}

impl From<AllocError> for Stop {
    ghost from_gives = { λ _ e. e ≡ stops.Memory };

    fn from(_: AllocError) -> Stop {
        Stop::Memory
    }
}

impl<T: Drop> From<AllocFailed<T>> for Stop {
    ghost from_gives = { λ _ e. e ≡ stops.Memory };

    fn from(_: AllocFailed<T>) -> Stop {
        Stop::Memory
    }
}
