ghost use Rattle.std.specs.Prelude.{◌≡◌};
ghost use Rattle.hx_fate.specs.declared.fates.Choice.TheVariants.{Deliver};
ghost use Rattle.hx_fate.specs.States.{after_choice, tuned, untouched};

use crate::fates::{Choice, Fate, FateState, Tuning};
use hx_types::Actor;
use std::marker::Model;

/// Delivers every post once, however it is tuned. Contracts see it as its state.
#[derive(Drop)]
pub struct Faithful {
    state: FateState,
}

impl Model for Faithful {
    ghost use Rattle.hx_fate.specs.declared.fates.FateState.{FateState};

    ghost Value = { FateState };

    ghost view = { λ f. f.state };
}

impl Faithful {
    /// One that has made no choice.
    pub fn new() -> Faithful
        ensures { result ≡ untouched }
    {
        Faithful {
            state: FateState::new(),
        }
    }
}

impl Fate for Faithful {
    ghost state = { λ f. f };

    /// Always delivers.
    fn choose(&mut self, _from: Actor, _to: Actor) -> Choice
        ensures choice { result ≡ Deliver }
        ensures new { self.new ≡ after_choice result self.old }
    {
        self.state.count(Choice::Deliver);
        Choice::Deliver
    }

    fn tune(&mut self, tuning: Tuning)
        ensures { self.new ≡ tuned tuning self.old }
    {
        self.state.tuning = tuning;
    }

    fn state(&self) -> FateState
        ensures { result ≡ self.now }
    {
        self.state
    }
}
