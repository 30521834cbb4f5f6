//! Numbers in words.

ghost use Rattle.std.specs.Prelude.{ℕ, ◌≡◌, ◌≤◌, ◌<◌, ◌^◌, ◌↔◌, true};
ghost use Rattle.std.specs.Fmt.{decimal};
ghost use Rattle.hx_words.specs.Numbers.{BeginsAsDecimal};

/// Whether a text begins as a number in decimal does: with no plus sign, and with a zero only where
/// that is all of it.
fn begins_as_decimal(text: &[u8]) -> bool
    ensures { (result ≡ true) ↔ BeginsAsDecimal text.now }
{
    !matches!(text, [b'+', ..] | [b'0', _, ..])
}

/// The number that a word is in decimal, which has no sign and no leading zero.
#[tactic(auto, using(crate::proofs::Decimals::begins, crate::proofs::Decimals::parsed))]
pub(crate) fn number_of(word: &str) -> Option<u64>
    ensures { (n : ℕ) → n < 2 ^ 64 → (result ≡ Some n) ↔ (word.now ≡ decimal n) }
{
    if !begins_as_decimal(word.as_bytes()) {
        return None;
    }
    word.parse::<u64>().ok()
}

/// The number that a word is in decimal, where it is from `least` to `most`.
pub(crate) fn number_within(word: &str, least: u32, most: u32) -> Option<u32>
    ensures { (n : ℕ) → (result ≡ Some n) ↔ ((word.now ≡ decimal n) × (least ≤ n) × (n ≤ most)) }
{
    let number = number_of(word)?;
    if u64::from(least) <= number && number <= u64::from(most) {
        Some(number as u32)
    } else {
        None
    }
}
