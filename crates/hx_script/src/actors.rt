//! The words for actors: `c`, or `s` or `u` with a number.

ghost use Rattle.std.specs.Prelude.{◌≡◌};
ghost use Rattle.std.specs.List.{list_all};
ghost use Rattle.hx_lex.specs.Letters.{is_digit};
ghost use Rattle.hx_script.specs.Readers.{Reads, Gives};
ghost use Rattle.hx_script.specs.Actors.{is_decimal, number_word, actor_word, actor};

use crate::errors::{Reason, Stop};
use crate::line::Line;
use hx_lex::magnitude;
use hx_types::{Actor, ServerId, SessionId};

fn are_digits(bytes: &[u8]) -> bool
    ensures { result ≡ list_all is_digit bytes.now }
{
    bytes.iter().all(|b| b.is_ascii_digit())
}

/// Whether these are digits without a leading zero.
fn is_decimal(digits: &[u8]) -> bool
    ensures { result ≡ is_decimal digits.now }
{
    let Some((first, rest)) = digits.split_first() else {
        return false;
    };
    if !are_digits(digits) {
        return false;
    }
    b'1' <= *first || rest.len() == 0
}

/// The number that digits spell, from 1 to `most`.
fn number_word(most: u32, digits: &[u8]) -> Result<u32, Stop>
    ensures { Gives (λ a. a) result (number_word most digits.now) }
{
    if !is_decimal(digits) {
        return Err(Stop::Fault(Reason::Order));
    }
    match magnitude(digits) {
        Some(number) if number >= 1 && number <= u64::from(most) => Ok(number as u32),
        _ => Err(Stop::Fault(Reason::Bounds)),
    }
}

/// The actor that a word names, of so many servers and sessions.
fn actor_word(servers: u32, sessions: u32, word: &[u8]) -> Result<Actor, Stop>
    ensures { Gives (λ a. a) result (actor_word servers sessions word.now) }
{
    let Some((first, digits)) = word.split_first() else {
        return Err(Stop::Fault(Reason::Order));
    };
    if *first == b'c' && digits.len() == 0 {
        return Ok(Actor::Coordinator);
    }
    match *first {
        b's' => Ok(Actor::Server(ServerId(number_word(servers, digits)?))),
        b'u' => Ok(Actor::Session(SessionId(number_word(sessions, digits)?))),
        _ => Err(Stop::Fault(Reason::Order)),
    }
}

/// An actor, of so many servers and sessions.
#[tactic(auto, unfolding(crate::specs::Actors::actor))]
pub(crate) fn actor(servers: u32, sessions: u32, line: &mut Line<'_>) -> Result<Actor, Stop>
    ensures { Reads (λ a. a) result line.new (actor servers sessions line.old) }
{
    let word = line.word()?;
    actor_word(servers, sessions, word.as_bytes())
}
