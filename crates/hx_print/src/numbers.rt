//! Numbers in decimal, and lists of them.

ghost use Rattle.std.specs.Prelude.{◌≡◌, ◌++◌, ℕ, map, OnErr, OnOk};
ghost use Rattle.std.specs.Fmt.{decimal, signed_decimal};
ghost use Rattle.std.specs.List.{flat_map};
ghost use Rattle.hx_print.specs.Prefixes.{IsPrefix};
ghost use Rattle.hx_print.specs.Printing.{next_number_text, numbers_text};

use crate::digits::push_number;
use crate::texts::put_bytes;
use hx_types::{Memory, RegionId, ServerId};
use itoa::Buffer;

/// Appends a number of more than eight digits, which are made on the stack first. It stands apart,
/// so that a short one doesn't pay for it.
#[cold]
#[inline(never)]
#[tactic(auto, using(crate::proofs::Prefixes::same, crate::proofs::Prefixes::further))]
fn put_long(out: &mut Vec<u8>, number: u64) -> Result<(), Memory>
    ensures appends { OnOk result (out.new.items ≡ out.old.items ++ decimal number) }
    ensures prefix { OnErr result (IsPrefix out.old.items out.new.items) }
{
    put_bytes(out, Buffer::new().format(number).as_bytes())
}

/// Appends a number in decimal. Most have few digits, which are pushed into room that is made
/// first. It fails for want of memory alone, and then what was there stays in front.
#[tactic(auto, using(crate::proofs::Prefixes::same, crate::proofs::Prefixes::further))]
pub fn put_number(out: &mut Vec<u8>, number: u64) -> Result<(), Memory>
    ensures appends { OnOk result (out.new.items ≡ out.old.items ++ decimal number) }
    ensures prefix { OnErr result (IsPrefix out.old.items out.new.items) }
{
    if number >= 100_000_000 {
        return put_long(out, number);
    }
    out.reserve(8)?;
    push_number(out, number as u32);
    Ok(())
}

/// Appends a number in decimal, with `-` before it if it is negative.
#[tactic(auto, using(crate::proofs::Prefixes::same, crate::proofs::Prefixes::further, crate::proofs::Decimals::below_zero, crate::proofs::Decimals::from_zero))]
pub fn put_signed(out: &mut Vec<u8>, number: i64) -> Result<(), Memory>
    ensures appends { OnOk result (out.new.items ≡ out.old.items ++ signed_decimal number) }
    ensures prefix { OnErr result (IsPrefix out.old.items out.new.items) }
{
    if number < 0 {
        put_bytes(out, b"-")?;
    }
    put_number(out, number.unsigned_abs())
}

/// What is printed as a number, as a server or a region.
pub trait Numbered {
    /// The number that is printed.
    ghost number: { Self → ℕ };

    /// The number that is printed.
    fn number(&self) -> u64
        ensures { result ≡ number self.now };
}

impl Numbered for u64 {
    ghost number = { λ n. n };

    fn number(&self) -> u64 {
        *self
    }
}

impl Numbered for ServerId {
    ghost number = { λ s. s.0 };

    fn number(&self) -> u64 {
        u64::from(self.0)
    }
}

impl Numbered for RegionId {
    ghost number = { λ g. g.0 };

    fn number(&self) -> u64 {
        u64::from(self.0)
    }
}

#[tactic(auto, unfolding(crate::specs::Printing::next_number_text), using(crate::proofs::Prefixes::same, crate::proofs::Prefixes::further))]
fn put_next_numbers<T: Numbered>(out: &mut Vec<u8>, items: &[T]) -> Result<(), Memory>
    ensures appends { OnOk result
        (out.new.items ≡ out.old.items ++ flat_map next_number_text (map T.number items.now)) }
    ensures prefix { OnErr result (IsPrefix out.old.items out.new.items) }
{
    for item in items {
        put_bytes(out, b",")?;
        put_number(out, item.number())?;
    }
    Ok(())
}

/// Appends the numbers of a list with commas between them, or `-` where there is none. It fails for
/// want of memory alone, and then what was there stays in front.
#[tactic(auto, unfolding(crate::specs::Printing::numbers_text), using(crate::proofs::Prefixes::same, crate::proofs::Prefixes::further))]
pub fn put_numbers<T: Numbered>(out: &mut Vec<u8>, items: &[T]) -> Result<(), Memory>
    ensures appends { OnOk result
        (out.new.items ≡ out.old.items ++ numbers_text (map T.number items.now)) }
    ensures prefix { OnErr result (IsPrefix out.old.items out.new.items) }
{
    match items.split_first() {
        None => put_bytes(out, b"-"),
        Some((first, rest)) => {
            put_number(out, first.number())?;
            put_next_numbers(out, rest)
        }
    }
}
