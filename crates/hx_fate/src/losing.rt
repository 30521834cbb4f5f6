ghost use Rattle.std.specs.Prelude.{◌≡◌, None, Some};
ghost use Rattle.hx_fate.specs.declared.losing.Losing.TheVariants as a_fate;
ghost use Rattle.hx_fate.specs.States.{after_choice, tuned, untouched};
ghost use Rattle.hx_fate.specs.Choices.{draw_of};
ghost use Rattle.hx_fate.specs.Losing.{choice_of, state_of, with_state};

use crate::drawn::Drawn;
use crate::every_nth::EveryNth;
use crate::fates::{Choice, Fate, FateState, Tuning};
use hx_types::Actor;

/// Loses and repeats posts by number, or by a draw.
#[derive(Drop)]
pub enum Losing {
    Counted(EveryNth),
    Drawn(Drawn),
}

impl Losing {
    /// The fate of a driver, that has made no choice, and loses and repeats nothing: one that
    /// draws, where there is a seed, else one that counts.
    pub fn new(seed: Option<u64>, driver: u32) -> Losing
        ensures counted { seed ≡ None → result ≡ a_fate.Counted untouched }
        ensures drawn { (s : _) → seed ≡ Some s → result ≡ a_fate.Drawn (record { seed = draw_of s driver; state = untouched }) }
    {
        match seed {
            None => Losing::Counted(EveryNth::new()),
            Some(seed) => Losing::Drawn(Drawn::new(seed, driver)),
        }
    }
}

impl Fate for Losing {
    ghost use Rattle.hx_fate.specs.Losing.{state_of};

    ghost state = { state_of };

    fn choose(&mut self, from: Actor, to: Actor) -> Choice
        ensures choice { result ≡ choice_of self.old }
        ensures new { self.new ≡ with_state (after_choice result (state_of self.old)) self.old }
    {
        match self {
            Losing::Counted(fate) => fate.choose(from, to),
            Losing::Drawn(fate) => fate.choose(from, to),
        }
    }

    fn tune(&mut self, tuning: Tuning)
        ensures { self.new ≡ with_state (tuned tuning (state_of self.old)) self.old }
    {
        match self {
            Losing::Counted(fate) => fate.tune(tuning),
            Losing::Drawn(fate) => fate.tune(tuning),
        }
    }

    fn state(&self) -> FateState
        ensures { result ≡ state_of self.now }
    {
        match self {
            Losing::Counted(fate) => fate.state(),
            Losing::Drawn(fate) => fate.state(),
        }
    }
}
