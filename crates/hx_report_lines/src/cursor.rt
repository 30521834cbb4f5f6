//! The bytes of a line that are left, taken from the front.

ghost use Rattle.std.specs.Prelude.{◌≡◌, ◌≤◌, ◌==◌, not, length, Some};
ghost use Rattle.std.specs.List.{prefix_len};
ghost use Rattle.hx_lex.specs.Numbers.{digits_len};
ghost use Rattle.hx_report_lines.specs.declared.cursor.Place.TheVariants.{Outside};
ghost use Rattle.hx_report_lines.specs.Readers.{Reads, is_outside, next_place, number, outside_from, piece, short_number, up_to, word};

use crate::errors::Stop;
use hx_lex::magnitude;
use std::marker::Model;

/// Whether a byte stands between quotes.
#[derive(Clone, Copy)]
pub enum Place {
    Outside,
    Inside,
    /// Between quotes and after a backslash.
    Escaped,
}

impl Place {
    /// Where the next byte stands.
    fn next(self, byte: u8) -> Place
        ensures { result ≡ next_place self byte }
    {
        match (self, byte) {
            (Place::Outside, b'"') => Place::Inside,
            (Place::Outside, _) => Place::Outside,
            (Place::Inside, b'"') => Place::Outside,
            (Place::Inside, b'\\') => Place::Escaped,
            (Place::Inside, _) => Place::Inside,
            (Place::Escaped, _) => Place::Inside,
        }
    }

    fn is_outside(self) -> bool
        ensures { result ≡ is_outside self }
    {
        matches!(self, Place::Outside)
    }
}

/// How many bytes stand before the first byte `stop` that isn't between quotes.
fn outside_len(bytes: &[u8], stop: u8) -> usize
    ensures value { result ≡ outside_from stop Outside bytes.now }
    ensures within { result ≤ length bytes.now }
{
    let mut place = Place::Outside;
    let mut len = 0;
    let mut left = bytes;
    'bytes: while let Some((byte, rest)) = left.split_first() {
        if *byte == stop && place.is_outside() {
            return len;
        }
        place = place.next(*byte);
        len += 1;
        left = rest;
    }
    len
}

/// How many digits stand at the front.
#[tactic(auto, using(crate::proofs::Lengths::prefix_le))]
fn digits_len(bytes: &[u8]) -> usize
    ensures value { result ≡ digits_len bytes.now }
    ensures within { result ≤ length bytes.now }
{
    bytes.iter().take_while(|b| b.is_ascii_digit()).count()
}

/// How many bytes stand before the first blank.
#[tactic(auto, using(crate::proofs::Lengths::prefix_le))]
fn piece_len(bytes: &[u8]) -> usize
    ensures value { result ≡ prefix_len (λ b. not (b == 32)) bytes.now }
    ensures within { result ≤ length bytes.now }
{
    bytes.iter().take_while(|b| **b != b' ').count()
}

/// The bytes that weren't taken yet.
#[derive(Drop)]
pub(crate) struct Cursor<'a> {
    rest: &'a [u8],
}

impl<'a> Model for Cursor<'a> {
    ghost use Rattle.std.specs.Prelude.{List, ℕ};

    ghost Value = { List ℕ };

    ghost view = { λ c. c.rest.now };
}

impl<'a> Cursor<'a> {
    pub(crate) fn new(bytes: &'a [u8]) -> Cursor<'a>
        ensures { result ≡ bytes.now }
    {
        Cursor { rest: bytes }
    }

    /// The bytes that are left.
    pub(crate) fn rest(&self) -> &'a [u8]
        ensures { result.now ≡ self.now }
    {
        self.rest
    }

    /// Takes that very word.
    pub(crate) fn word(&mut self, wanted: &[u8]) -> Result<(), Stop>
        ensures { Reads (λ u. u) result self.new (word wanted.now self.old) }
    {
        if !self.rest.starts_with(wanted) {
            return Err(Stop::Unread);
        }
        self.rest = &self.rest[wanted.len()..];
        Ok(())
    }

    /// Takes digits that spell a number of 64 bits.
    pub(crate) fn number(&mut self) -> Result<u64, Stop>
        ensures { Reads (λ n. n) result self.new (number self.old) }
    {
        let (digits, rest) = self.rest.split_at(digits_len(self.rest));
        match magnitude(digits) {
            Some(number) => {
                self.rest = rest;
                Ok(number)
            }
            None => Err(Stop::Unread),
        }
    }

    /// Takes digits that spell a number of 32 bits.
    #[tactic(auto, unfolding(crate::specs::Readers::short_number))]
    pub(crate) fn short_number(&mut self) -> Result<u32, Stop>
        ensures { Reads (λ n. n) result self.new (short_number self.old) }
    {
        let number = self.number()?;
        if number > u64::from(u32::MAX) {
            return Err(Stop::Unread);
        }
        Ok(number as u32)
    }

    /// Takes the bytes up to a blank.
    pub(crate) fn piece(&mut self) -> &'a [u8]
        ensures { piece self.old ≡ Some (result.now, self.new) }
    {
        let (piece, rest) = self.rest.split_at(piece_len(self.rest));
        self.rest = rest;
        piece
    }

    /// Takes the bytes up to the first byte `stop` that isn't between quotes.
    pub(crate) fn up_to(&mut self, stop: u8) -> &'a [u8]
        ensures { up_to stop self.old ≡ Some (result.now, self.new) }
    {
        let (piece, rest) = self.rest.split_at(outside_len(self.rest, stop));
        self.rest = rest;
        piece
    }
}
