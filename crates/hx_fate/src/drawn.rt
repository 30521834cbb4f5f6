ghost use Rattle.std.specs.Prelude.{◌≡◌};
ghost use Rattle.hx_fate.specs.States.{after_choice, tuned, untouched};
ghost use Rattle.hx_fate.specs.Choices.{choice_drawn, draw_of};

use crate::choices::choice_by;
use crate::fates::{Choice, Fate, FateState, Tuning};
use hx_types::Actor;
use rand_core::SeedableRng;
use rand_core::utils::NextWord;
use rand_xoshiro::SplitMix64;
use std::marker::Model;

/// What the state of the generator moves by for each draw.
const STEP: u64 = 0x9e37_79b9_7f4a_7c15;

/// Loses and repeats posts by chance: one of so many, drawn by the generator SplitMix64. A period
/// of 0 is never. The same seed, driver and number of a choice make the same choice. Contracts see
/// it as the seed of its own generator and its state.
#[derive(Drop)]
pub struct Drawn {
    seed: u64,
    state: FateState,
}

impl Model for Drawn {
    ghost use Rattle.hx_fate.specs.Choices.{Drawing};

    ghost Value = { Drawing };

    ghost view = { λ d. record { seed = d.seed; state = d.state } };
}

impl Drawn {
    /// One for a driver, that has made no choice, and loses and repeats nothing. Each driver's own
    /// seed is the draw of its number from the seed that they share.
    pub fn new(seed: u64, driver: u32) -> Drawn
        ensures { result ≡ record { seed = draw_of seed driver; state = untouched } }
    {
        Drawn {
            seed: draw(seed, u64::from(driver)),
            state: FateState::new(),
        }
    }
}

impl Fate for Drawn {
    ghost state = { λ d. d.state };

    /// The choice is that of its draw. Choices are numbered from 0, and from the greatest `u64` on
    /// that number stays.
    fn choose(&mut self, _from: Actor, _to: Actor) -> Choice
        ensures choice { result ≡ choice_drawn self.old.state.tuning (draw_of self.old.seed self.old.state.chosen) }
        ensures new { self.new ≡ record { seed = self.old.seed; state = after_choice result self.old.state } }
    {
        let draw = draw(self.seed, self.state.chosen);
        let choice = choice_by(self.state.tuning, draw, draw >> 32);
        self.state.count(choice);
        choice
    }

    fn tune(&mut self, tuning: Tuning)
        ensures { self.new ≡ record { seed = self.old.seed; state = tuned tuning self.old.state } }
    {
        self.state.tuning = tuning;
    }

    fn state(&self) -> FateState
        ensures { result ≡ self.now.state }
    {
        self.state
    }
}

/// The draw of a number, from 0, of the generator that starts from a seed.
fn draw(seed: u64, number: u64) -> u64
    ensures { result ≡ draw_of seed number }
{
    let before = seed.wrapping_add(number.wrapping_mul(STEP));
    SplitMix64::seed_from_u64(before).next_word()
}
