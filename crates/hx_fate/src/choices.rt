ghost use Rattle.std.specs.Prelude.{◌≡◌};
ghost use Rattle.hx_fate.specs.Choices.{choice_by, divides};

use crate::fates::{Choice, Tuning};

/// The choice of two numbers: the first decides on losing, and the second on repeating.
pub fn choice_by(tuning: Tuning, first: u64, second: u64) -> Choice
    ensures { result ≡ choice_by tuning first second }
{
    if divides(tuning.lose_every, first) {
        Choice::Lose
    } else if divides(tuning.repeat_every, second) {
        Choice::Twice
    } else {
        Choice::Deliver
    }
}

/// Whether a period, which isn't 0, divides a number.
fn divides(period: u32, number: u64) -> bool
    ensures { result ≡ divides period number }
{
    period != 0 && number % period as u64 == 0
}
