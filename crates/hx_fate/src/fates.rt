ghost use Rattle.std.specs.Prelude.{◌≡◌, nat_lt};
ghost use Rattle.hx_fate.specs.States.{after_choice, never, tuned, untouched};

use hx_types::Actor;

/// What becomes of a post.
#[derive(Clone, Copy, PartialEq, Eq)]
pub enum Choice {
    /// It is delivered once.
    Deliver,
    /// It is lost.
    Lose,
    /// It is delivered twice.
    Twice,
}

/// How often posts are to be lost and repeated: one of so many, and none where that is 0.
#[derive(Clone, Copy, PartialEq, Eq)]
pub struct Tuning {
    pub lose_every: u32,
    pub repeat_every: u32,
}

impl Tuning {
    /// Nothing is to be lost or repeated.
    pub fn never() -> Tuning
        ensures { result ≡ never }
    {
        Tuning {
            lose_every: 0,
            repeat_every: 0,
        }
    }
}

/// How a fate is tuned, and what it has chosen. A count stops at the greatest `u64`.
#[derive(Clone, Copy, PartialEq, Eq)]
pub struct FateState {
    pub tuning: Tuning,
    /// How many choices were made.
    pub chosen: u64,
    /// How many of them were Lose.
    pub lost: u64,
    /// How many of them were Twice.
    pub doubled: u64,
}

impl FateState {
    /// No choice was made, and nothing is to be lost or repeated.
    pub fn new() -> FateState
        ensures { result ≡ untouched }
    {
        FateState {
            tuning: Tuning::never(),
            chosen: 0,
            lost: 0,
            doubled: 0,
        }
    }

    /// Whether posts are to be repeated.
    pub fn repeats(&self) -> bool
        ensures { result ≡ nat_lt 0 self.now.tuning.repeat_every }
    {
        self.tuning.repeat_every > 0
    }

    /// Counts one more choice.
    pub fn count(&mut self, choice: Choice)
        ensures { self.new ≡ after_choice choice self.old }
    {
        self.chosen = self.chosen.saturating_add(1);
        match choice {
            Choice::Deliver => {}
            Choice::Lose => self.lost = self.lost.saturating_add(1),
            Choice::Twice => self.doubled = self.doubled.saturating_add(1),
        }
    }
}

/// Chooses what becomes of each post, and counts its choices.
pub trait Fate: Drop {
    ghost use Rattle.hx_fate.specs.declared.fates.Choice.TheVariants.{Twice};
    ghost use Rattle.hx_fate.specs.declared.fates.FateState.{FateState};
    ghost use Rattle.hx_fate.specs.States.{MayRepeat};

    /// How it is tuned, and what it has chosen.
    ghost state: { Self → FateState };

    /// What becomes of the next post, which goes from one actor to another. It is counted, and the
    /// tuning stays. It is delivered twice only where posts are to be repeated.
    fn choose(&mut self, from: Actor, to: Actor) -> Choice
        ensures counted { state self.new ≡ after_choice result (state self.old) }
        ensures repeats { result ≡ Twice → MayRepeat (state self.old) };

    /// How often posts are to be lost and repeated from now on. A fate may do otherwise, but keeps
    /// what it was told, and one that is to repeat nothing delivers nothing twice. The counts stay.
    fn tune(&mut self, tuning: Tuning)
        ensures { state self.new ≡ tuned tuning (state self.old) };

    /// How it is tuned, and what it has chosen.
    fn state(&self) -> FateState
        ensures { result ≡ state self.now };
}
