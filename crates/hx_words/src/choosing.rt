//! What the options of a command choose.

ghost use Rattle.std.specs.Prelude.{◌≡◌, ◌↔◌, map, string_bytes};
ghost use Rattle.hx_words.specs.Options.{IsFree, choosing};
ghost use Rattle.hx_words.specs.Saying.{AreSaid, nothing_chosen};

use crate::options::{CommandOption, option_of};

/// What was chosen so far: the value of each option that was said.
#[derive(Clone, Copy)]
pub struct Chosen {
    pub workers: Option<u32>,
    pub lose: Option<u32>,
    pub repeat: Option<u32>,
    pub seed: Option<u64>,
    pub with_trace: bool,
}

/// Before any option is said.
const NOTHING: Chosen = Chosen {
    workers: None,
    lose: None,
    repeat: None,
    seed: None,
    with_trace: false,
};

impl Chosen {
    /// What is chosen once the option is, unless it was chosen before.
    fn with(self, option: CommandOption) -> Option<Chosen>
        ensures { (after : Chosen) → (result ≡ Some after) ↔ (IsFree self option × (after ≡ choosing self option)) }
    {
        match option {
            CommandOption::Workers(n) if self.workers.is_none() => Some(Chosen {
                workers: Some(n),
                ..self
            }),
            CommandOption::Lose(n) if self.lose.is_none() => Some(Chosen {
                lose: Some(n),
                ..self
            }),
            CommandOption::Repeat(n) if self.repeat.is_none() => Some(Chosen {
                repeat: Some(n),
                ..self
            }),
            CommandOption::Seed(n) if self.seed.is_none() => Some(Chosen {
                seed: Some(n),
                ..self
            }),
            CommandOption::Trace if !self.with_trace => Some(Chosen {
                with_trace: true,
                ..self
            }),
            _ => None,
        }
    }
}

/// What the words of options choose after what was chosen before. No option is chosen twice, so it
/// calls itself five times at most.
fn chosen_after(chosen: Chosen, words: &[String]) -> Option<Chosen>
    ensures { (after : Chosen) → (result ≡ Some after) ↔ AreSaid (map string_bytes words.now) chosen after }
{
    let [name, rest @ ..] = words else {
        return Some(chosen);
    };
    if name.as_str() == "--trace" {
        return chosen_after(chosen.with(CommandOption::Trace)?, rest);
    }
    let [value, rest @ ..] = rest else {
        return None;
    };
    let option = option_of(name.as_str(), value.as_str())?;
    chosen_after(chosen.with(option)?, rest)
}

/// What the words of options choose.
pub(crate) fn chosen_by(words: &[String]) -> Option<Chosen>
    ensures { (chosen : Chosen) → (result ≡ Some chosen) ↔ AreSaid (map string_bytes words.now) nothing_chosen chosen }
{
    chosen_after(NOTHING, words)
}
