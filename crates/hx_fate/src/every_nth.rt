ghost use Rattle.std.specs.Prelude.{◌≡◌, true};
ghost use Rattle.hx_fate.specs.States.{after_choice, raised_if, tuned, untouched};
ghost use Rattle.hx_fate.specs.Choices.{choice_at};

use crate::choices::choice_by;
use crate::fates::{Choice, Fate, FateState, Tuning};
use hx_types::Actor;
use std::marker::Model;

/// Loses every post of a number that one period divides, and repeats every other one of a number
/// that another period divides. The posts are numbered from 1 by its choices, and a period of 0 is
/// never. Contracts see it as its state.
#[derive(Drop)]
pub struct EveryNth {
    state: FateState,
}

impl Model for EveryNth {
    ghost use Rattle.hx_fate.specs.declared.fates.FateState.{FateState};

    ghost Value = { FateState };

    ghost view = { λ e. e.state };
}

impl EveryNth {
    /// One that has made no choice, and loses and repeats nothing.
    pub fn new() -> EveryNth
        ensures { result ≡ untouched }
    {
        EveryNth {
            state: FateState::new(),
        }
    }
}

impl Fate for EveryNth {
    ghost state = { λ e. e };

    /// The choice is that of its number, which is the number of choices with it. From the greatest
    /// `u64` on that number stays.
    fn choose(&mut self, _from: Actor, _to: Actor) -> Choice
        ensures choice { result ≡ choice_at self.old.tuning (raised_if true self.old.chosen) }
        ensures new { self.new ≡ after_choice result self.old }
    {
        let number = self.state.chosen.saturating_add(1);
        let choice = choice_by(self.state.tuning, number, number);
        self.state.count(choice);
        choice
    }

    fn tune(&mut self, tuning: Tuning)
        ensures { self.new ≡ tuned tuning self.old }
    {
        self.state.tuning = tuning;
    }

    fn state(&self) -> FateState
        ensures { result ≡ self.now }
    {
        self.state
    }
}
