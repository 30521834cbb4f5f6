//! A line that is one call, apart from any script.

ghost use Rattle.hx_types.specs.Spaces.{IsSpace};
ghost use Rattle.hx_script.specs.Readers.{Reads, Gives};
ghost use Rattle.hx_script.specs.LoneCalls.{lone_call, op_of_line, AnswersOp};

use crate::errors::{Reason, ScriptError, Stop};
use crate::keyword::{Keyword, keyword_of};
use crate::line::{Line, tokens_in};
use crate::ops::call;
use crate::reading::at;
use hx_rules::count_regions;
use hx_types::{Op, Space};
use std::alloc::Global;

#[tactic(auto, unfolding(crate::specs::LoneCalls::lone_call))]
fn lone_call(alloc: Global, space: &Space, line: &mut Line<'_>) -> Result<Op, Stop>
    requires { IsSpace space.now }
    ensures { Reads (λ op. op) result line.new (lone_call space.now line.old) }
{
    let word = line.word()?;
    match keyword_of(word.as_bytes()) {
        Some(Keyword::Call(word)) => call(alloc, space, count_regions(space), word, line),
        _ => Err(Stop::Fault(Reason::Order)),
    }
}

fn op_of_line(alloc: Global, space: &Space, line: &[u8]) -> Result<Op, Stop>
    requires { IsSpace space.now }
    ensures { Gives (λ op. op) result (op_of_line space.now line.now) }
{
    let tokens = tokens_in(alloc, line)?;
    let mut rest = Line::new(line, tokens.as_slice());
    lone_call(alloc, space, &mut rest)
}

/// The operation of a line that is a call of a session of the space. The line is given without its
/// newline.
///
/// # Errors
///
/// The line is refused as line 1, with the reason that a script with this call would be refused
/// for, or with Order where it has no tokens or its first word begins no call. `Memory` may come
/// instead of either.
pub fn read_op(alloc: Global, space: &Space, line: &[u8]) -> Result<Op, ScriptError>
    requires { IsSpace space.now }
    ensures { AnswersOp result (op_of_line space.now line.now) }
{
    match op_of_line(alloc, space, line) {
        Ok(op) => Ok(op),
        Err(stop) => Err(at(stop, 1)),
    }
}
