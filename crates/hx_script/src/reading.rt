//! Reading a script.

ghost use Rattle.std.specs.Prelude.{◌≡◌, ◌<◌, ◌≤◌, ◌∷◌, length};
ghost use Rattle.hx_script.specs.Texts.{line_len, lines_of, script_of, at_stop, Answers};

use crate::draft::Draft;
use crate::errors::{ScriptError, Stop};
use hx_types::Script;
use memchr::memchr;
use std::alloc::Global;

/// How many bytes stand before the first newline.
#[tactic(auto, using(crate::proofs::Lines::line_len_le, crate::proofs::Lines::newline_at, crate::proofs::Lines::no_newline))]
fn line_len(text: &[u8]) -> usize
    ensures value { result ≡ line_len text.now }
    ensures within { result ≤ length text.now }
{
    match memchr(b'\n', text) {
        Some(len) => len,
        None => text.len(),
    }
}

/// The first line without its newline, and the text after it.
#[tactic(auto, using(crate::proofs::Lines::line_and_rest, crate::proofs::Lines::line_alone))]
pub(crate) fn first_line(text: &[u8]) -> (&[u8], &[u8])
    requires { 0 < length text.now }
    ensures lines { lines_of text.now ≡ result.0.now ∷ lines_of result.1.now }
    ensures shorter { length result.1.now < length text.now }
{
    let (line, after) = text.split_at(line_len(text));
    match after.split_first() {
        None => (line, after),
        Some((_, rest)) => (line, rest),
    }
}

pub(crate) fn at(stop: Stop, line: u64) -> ScriptError
    ensures { result ≡ at_stop line stop }
{
    match stop {
        Stop::Memory => ScriptError::Memory,
        Stop::Fault(reason) => ScriptError::Refused { line, reason },
    }
}

/// The script whose text it is, or the first faulty line.
///
/// # Errors
///
/// The first faulty line with its reason, or `Memory`, which may come instead of any answer.
#[tactic(auto, using(crate::proofs::Lines::reads_stop, crate::proofs::Lines::reads_end, crate::proofs::SoundTexts::empty_sound, crate::proofs::SoundTexts::few_attributes, crate::proofs::SoundTexts::few_sessions))]
pub fn read(alloc: Global, text: &[u8]) -> Result<Script, ScriptError>
    ensures { Answers result (script_of text.now) }
{
    let mut draft = Draft::new(alloc);
    let mut number = 0u64;
    let mut rest = text;
    'lines: while !rest.is_empty() {
        let (line, after) = first_line(rest);
        number += 1;
        if let Err(stop) = draft.read_line(alloc, number, line) {
            drop(draft);
            return Err(at(stop, number));
        }
        rest = after;
    }
    draft.finish(number + 1)
}
