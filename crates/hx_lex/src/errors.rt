ghost use Rattle.std.specs.Prelude.{◌≡◌};
ghost use Rattle.hx_lex.specs.declared.errors.LexError.TheVariants as errors;

use std::alloc::AllocFailed;

/// Why a line has no tokens. A place is the number of bytes of the line before it.
#[derive(Clone, Copy, Debug)]
pub enum LexError {
    /// Memory for the tokens was wanting.
    Memory,
    /// A character that may not stand there, an unknown escape, or a byte that isn't UTF-8.
    BadChar { place: usize },
    /// The text whose first quote stands there is never closed.
    OpenText { place: usize },
    /// The number that begins there is outside the range of `i64`.
    BadNumber { place: usize },
}

impl From<hx_types::Memory> for LexError {
    ghost from_gives = { λ _ e. e ≡ errors.Memory };

    fn from(_: hx_types::Memory) -> LexError {
        LexError::Memory
    }
}

impl<T: Drop> From<AllocFailed<T>> for LexError {
    ghost from_gives = { λ _ e. e ≡ errors.Memory };

    fn from(_: AllocFailed<T>) -> LexError {
        LexError::Memory
    }
}
