//! The digits of numbers, pushed where there is room for them.

ghost use Rattle.std.specs.Prelude.{◌≡◌, ◌+◌, ◌/◌, ◌%◌, ◌<◌, ◌≤◌, ◌∷◌, ◌++◌, [], vec_capacity, vec_len};
ghost use Rattle.std.specs.Fmt.{decimal};

/// Pushes a digit.
#[inline(always)]
fn push_digit(out: &mut Vec<u8>, digit: u32)
    requires digit { digit < 10 }
    requires room { vec_len out.old + 1 ≤ vec_capacity out.old }
    ensures items { out.new.items ≡ out.old.items ++ (48 + digit) ∷ [] }
    ensures len { vec_len out.new ≤ vec_len out.old + 1 }
    ensures capacity { vec_capacity out.new ≡ vec_capacity out.old }
{
    out.push_reserved(b'0' + digit as u8);
}

/// Pushes two digits, of which the first may be 0.
#[inline(always)]
fn push_pair(out: &mut Vec<u8>, number: u32)
    requires number { number < 100 }
    requires room { vec_len out.old + 2 ≤ vec_capacity out.old }
    ensures items { out.new.items ≡ out.old.items ++ (48 + number / 10) ∷ (48 + number % 10) ∷ [] }
    ensures len { vec_len out.new ≤ vec_len out.old + 2 }
    ensures capacity { vec_capacity out.new ≡ vec_capacity out.old }
{
    push_digit(out, number / 10);
    push_digit(out, number % 10);
}

/// Pushes a number of one or two digits.
#[inline(always)]
#[tactic(auto, using(crate::proofs::Decimals::one_digit, crate::proofs::Decimals::two_digits))]
fn push_first(out: &mut Vec<u8>, number: u32)
    requires number { number < 100 }
    requires room { vec_len out.old + 2 ≤ vec_capacity out.old }
    ensures items { out.new.items ≡ out.old.items ++ decimal number }
    ensures len { vec_len out.new ≤ vec_len out.old + 2 }
    ensures capacity { vec_capacity out.new ≡ vec_capacity out.old }
{
    if number < 10 {
        push_digit(out, number);
    } else {
        push_pair(out, number);
    }
}

/// Pushes a number of up to four digits.
#[inline(always)]
#[tactic(auto, using(crate::proofs::Decimals::last_pair))]
fn push_short(out: &mut Vec<u8>, number: u32)
    requires number { number < 10000 }
    requires room { vec_len out.old + 4 ≤ vec_capacity out.old }
    ensures items { out.new.items ≡ out.old.items ++ decimal number }
    ensures len { vec_len out.new ≤ vec_len out.old + 4 }
    ensures capacity { vec_capacity out.new ≡ vec_capacity out.old }
{
    if number < 100 {
        push_first(out, number);
    } else {
        push_first(out, number / 100);
        push_pair(out, number % 100);
    }
}

/// Pushes a number of up to eight digits.
#[inline(always)]
#[tactic(auto, using(crate::proofs::Decimals::last_four))]
pub(crate) fn push_number(out: &mut Vec<u8>, number: u32)
    requires number { number < 100000000 }
    requires room { vec_len out.old + 8 ≤ vec_capacity out.old }
    ensures items { out.new.items ≡ out.old.items ++ decimal number }
{
    if number < 10_000 {
        push_short(out, number);
    } else {
        let rest = number % 10_000;
        push_short(out, number / 10_000);
        push_pair(out, rest / 100);
        push_pair(out, rest % 100);
    }
}
