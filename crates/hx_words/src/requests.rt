//! The one grammar of words: what the words of a call ask for.

ghost use Rattle.std.specs.Prelude.{ℕ, Bool, ◌≡◌, ◌↔◌, [], List, IfSome, map, string_bytes, unwrap_or};
ghost use Rattle.std.specs.declared.string.String.{String};
ghost use Rattle.std.specs.declared.alloc.Global.{Global};
ghost use Rattle.hx_words.specs.Limits.{HasLimits, IsRun, IsShare, IsSoak};
ghost use Rattle.hx_words.specs.Saying.{ChooseRun, ChooseShare, ChooseSoak, IsFollowedBy, OnlyWorkers, SaysRequest, run_by};
ghost use Rattle.hx_words.specs.declared.commands.Command.{Command as CommandSeen};
ghost use Rattle.hx_words.specs.declared.commands.Request.{Request as RequestSeen};
ghost use Rattle.hx_words.specs.declared.commands.Run.{Run as RunSeen};
ghost use Rattle.hx_words.specs.declared.commands.Share.{Share as ShareSeen};
ghost use Rattle.hx_words.specs.declared.commands.Soak.{Soak as SoakSeen};

use crate::choosing::{Chosen, chosen_by};
use crate::commands::{Command, Question, Request, Run, Share, Soak};
use crate::numbers::{number_of, number_within};
use hx_types::MOST_CALLS;

/// How many threads drive the actors where no number is said.
const DEFAULT_WORKERS: u32 = 2;

/// What the words ask for: the name of a request and what follows it, and no other words beside
/// them.
pub fn request_of(words: &[String]) -> Option<Request>
    ensures said { (request : RequestSeen) → (result ≡ Some request) ↔ SaysRequest words.now request }
    ensures limits { IfSome result HasLimits }
{
    let [name, others @ ..] = words else {
        return None;
    };
    match name.as_str() {
        "replay" => Some(Request::Command(Command::Replay {
            with_trace: with_trace(others)?,
        })),
        "plan" if others.is_empty() => Some(Request::Command(Command::Plan)),
        "audit" if others.is_empty() => Some(Request::Audit),
        "run" => Some(Request::Run(run_of(others)?)),
        "soak" => Some(Request::Soak(soak_of(others)?)),
        "share" => Some(Request::Share(share_of(others)?)),
        "--help" if others.is_empty() => Some(Request::Question(Question::Help)),
        "--version" if others.is_empty() => Some(Request::Question(Question::Version)),
        _ => None,
    }
}

/// Whether a replay writes its trace too, where these words follow its name.
fn with_trace(others: &[String]) -> Option<bool>
    ensures { (with_trace : Bool) → (result ≡ Some with_trace) ↔ IsFollowedBy (RequestSeen.Command (CommandSeen.Replay with_trace)) (map string_bytes others.now) }
{
    match others {
        [] => Some(false),
        [option] if option.as_str() == "--trace" => Some(true),
        _ => None,
    }
}

/// The run whose name these words follow.
fn run_of(others: &[String]) -> Option<Run>
    ensures said { (run : RunSeen) → (result ≡ Some run) ↔ ChooseRun (map string_bytes others.now) run }
    ensures limits { IfSome result IsRun }
{
    Some(run_by(chosen_by(others)?))
}

/// The run that options choose, with the defaults of what they leave out.
fn run_by(chosen: Chosen) -> Run
    ensures { result ≡ run_by chosen }
{
    Run {
        workers: chosen.workers.unwrap_or(DEFAULT_WORKERS),
        lose: chosen.lose.unwrap_or(0),
        repeat: chosen.repeat.unwrap_or(0),
        seed: chosen.seed,
        with_trace: chosen.with_trace,
    }
}

/// The soak whose name these words follow: its seed and calls, and options.
fn soak_of(others: &[String]) -> Option<Soak>
    ensures said { (soak : SoakSeen) → (result ≡ Some soak) ↔ ChooseSoak (map string_bytes others.now) soak }
    ensures limits { IfSome result IsSoak }
{
    let [seed, calls, options @ ..] = others else {
        return None;
    };
    let chosen = chosen_by(options)?;
    Some(Soak {
        seed: number_of(seed.as_str())?,
        calls: number_within(calls.as_str(), 1, MOST_CALLS as u32)?,
        workers: workers_alone(chosen)?,
    })
}

/// The share whose name these words follow.
fn share_of(others: &[String]) -> Option<Share>
    ensures said { (share : ShareSeen) → (result ≡ Some share) ↔ ChooseShare (map string_bytes others.now) share }
    ensures limits { IfSome result IsShare }
{
    let chosen = chosen_by(others)?;
    Some(Share {
        workers: workers_alone(chosen)?,
    })
}

/// How many threads options choose, where they choose nothing else.
fn workers_alone(chosen: Chosen) -> Option<u32>
    ensures { (workers : ℕ) → (result ≡ Some workers) ↔ (OnlyWorkers chosen × (workers ≡ unwrap_or chosen.workers 2)) }
{
    if chosen.lose.is_some() || chosen.repeat.is_some() {
        return None;
    }
    if chosen.seed.is_some() || chosen.with_trace {
        return None;
    }
    Some(chosen.workers.unwrap_or(DEFAULT_WORKERS))
}

/// No words ask for two things.
pub fn words_say_one_request()
    ensures { (words : List (String Global)) → (one : RequestSeen) → (other : RequestSeen) → SaysRequest words one → SaysRequest words other → one ≡ other }
{}
