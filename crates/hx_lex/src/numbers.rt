//! Whole numbers of 64 bits.

ghost use Rattle.std.specs.Prelude.{◌≡◌, ◌<◌, ◌+◌, ◌^◌, length, SomeIff};
ghost use Rattle.hx_lex.specs.Answers.{Gives};
ghost use Rattle.hx_lex.specs.Numbers.{digits_len, value, signed, number_at};

use crate::errors::LexError;
use crate::token::{Piece, TokenKind};

/// How many digits stand at the front.
fn digits_len(bytes: &[u8]) -> usize
    ensures { result ≡ digits_len bytes.now }
{
    bytes.iter().take_while(|b| b.is_ascii_digit()).count()
}

/// The number that decimal digits spell, the highest first, or `None` where it has more than 64
/// bits. No digits spell 0.
#[tactic(auto, using(crate::proofs::Digits::value_grows, crate::proofs::Digits::value_from_drop, crate::proofs::Digits::value_from_end))]
pub fn magnitude(digits: &[u8]) -> Option<u64>
    ensures { SomeIff result (value digits.now < 2 ^ 64) (value digits.now) }
{
    let mut sum = 0u64;
    for b in digits {
        let digit = u64::from(b.saturating_sub(b'0'));
        sum = sum.checked_mul(10)?.checked_add(digit)?;
    }
    Some(sum)
}

/// The number of that sign and magnitude, where it is in the range of `i64`.
fn signed(negative: bool, magnitude: u64) -> Option<i64>
    ensures { result ≡ signed negative magnitude }
{
    if !negative {
        return i64::try_from(magnitude).ok();
    }
    match magnitude.checked_sub(1) {
        Some(less) => Some(-1 - i64::try_from(less).ok()?),
        None => Some(0),
    }
}

/// The number at that place whose digits stand at the front of the bytes, behind its sign.
#[tactic(auto, using(crate::proofs::Digits::digits_len_le, crate::proofs::Digits::signed_large), unfolding(crate::specs::Numbers::number_at))]
pub(crate) fn number(at: usize, negative: bool, bytes: &[u8]) -> Result<Piece, LexError>
    requires { length bytes.now + 1 < 2 ^ 64 }
    ensures { Gives (λ p. p) result (number_at at negative bytes.now) }
{
    let len = digits_len(bytes);
    let Some(magnitude) = magnitude(&bytes[..len]) else {
        return Err(LexError::BadNumber { place: at });
    };
    let Some(number) = signed(negative, magnitude) else {
        return Err(LexError::BadNumber { place: at });
    };
    Ok(Piece {
        kind: Some(TokenKind::Number(number)),
        len: if negative { len + 1 } else { len },
    })
}
