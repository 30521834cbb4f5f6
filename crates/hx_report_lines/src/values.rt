//! Texts and objects, read by the reader of calls.

ghost use Rattle.std.specs.Prelude.{◌≡◌, ◌<◌, ◌+◌, ◌^◌, ◌++◌, length, map, IfOk};
ghost use Rattle.std.specs.Str.{bytes_eq};
ghost use Rattle.hx_model.specs.Types.{Assign};
ghost use Rattle.hx_types.specs.Spaces.{IsSpace};
ghost use Rattle.hx_report_lines.specs.Readers.{Gives};
ghost use Rattle.hx_report_lines.specs.Parts.{in_order, object_in, op_in, put_values, state_in, text_in, values_in};

use crate::cursor::Cursor;
use crate::errors::Stop;
use hx_print::put_bytes;
use hx_script::{ScriptError, read_op};
use hx_types::{Assign, Exact, Memory, Object, Op, SharedList, Space, Text, Value};
use std::alloc::Global;

/// Whether two pieces have the same bytes.
pub(crate) fn is(piece: &[u8], bytes: &[u8]) -> bool
    ensures { result ≡ bytes_eq piece.now bytes.now }
{
    piece == bytes
}

/// The call that a line is.
pub(crate) fn operation(alloc: Global, space: &Space, line: &[u8]) -> Result<Op, Stop>
    requires { IsSpace space.now }
    ensures { Gives (λ op. op) result (op_in space.now line.now) }
{
    match read_op(alloc, space, line) {
        Ok(op) => Ok(op),
        Err(ScriptError::Memory) => Err(Stop::Memory),
        Err(ScriptError::Refused { .. }) => Err(Stop::Unread),
    }
}

/// One piece of a line after another.
fn joined(alloc: Global, front: &[u8], back: &[u8]) -> Result<Vec<u8>, Memory>
    ensures { IfOk result (λ line. line.items ≡ front.now ++ back.now) }
{
    let mut line = Vec::new(alloc);
    put_bytes(&mut line, front)?;
    put_bytes(&mut line, back)?;
    Ok(line)
}

/// The text that stands in quotes: the key of a get.
pub(crate) fn text(alloc: Global, space: &Space, quoted: &[u8]) -> Result<Text, Stop>
    requires { IsSpace space.now }
    ensures { Gives (λ t. t) result (text_in space.now quoted.now) }
{
    let line = joined(alloc, b"get ", quoted)?;
    match &operation(alloc, space, &line)? {
        Op::Get { key } => Ok(key.copy(alloc)?),
        _ => Err(Stop::Unread),
    }
}

/// Whether the assignments are to the attributes from that number on.
fn in_order(first: u64, sets: &[Assign]) -> bool
    requires { first + length sets.now < 2 ^ 64 }
    ensures { result ≡ in_order first sets.now }
{
    let mut number = first;
    let mut left = sets;
    'sets: while let Some((set, rest)) = left.split_first() {
        if u64::from(set.attribute) != number {
            return false;
        }
        number += 1;
        left = rest;
    }
    true
}

/// The values of assignments.
fn values(alloc: Global, sets: &[Assign]) -> Result<Vec<Value>, Memory>
    ensures { IfOk result (λ values. values.items ≡ map (λ (a : Assign). a.value) sets.now) }
{
    let mut values = Vec::new(alloc);
    for set in sets {
        values.push(set.value.copy(alloc)?)?;
    }
    Ok(values)
}

fn values_in(alloc: Global, space: &Space, sets: &[Assign]) -> Result<Object, Stop>
    ensures { Gives (λ o. o) result (values_in space.now sets.now) }
{
    if sets.len() != space.attributes.len() || !in_order(1, sets) {
        return Err(Stop::Unread);
    }
    Ok(SharedList::from_vec(alloc, values(alloc, sets)?)?)
}

/// The object of which each attribute stands with its value: what a put sets.
pub(crate) fn object(alloc: Global, space: &Space, bytes: &[u8]) -> Result<Object, Stop>
    requires { IsSpace space.now }
    ensures { Gives (λ o. o) result (object_in space.now bytes.now) }
{
    let line = joined(alloc, b"put \"\"", bytes)?;
    match &operation(alloc, space, &line)? {
        Op::Put { sets, .. } => values_in(alloc, space, sets.as_slice()),
        _ => Err(Stop::Unread),
    }
}

/// The object after a call, or that there is none.
pub(crate) fn state(alloc: Global, space: &Space, bytes: &[u8]) -> Result<Option<Object>, Stop>
    requires { IsSpace space.now }
    ensures { Gives (λ o. o) result (state_in space.now bytes.now) }
{
    if is(bytes, b"absent") {
        return Ok(None);
    }
    let mut left = Cursor::new(bytes);
    left.word(b"present")?;
    Ok(Some(object(alloc, space, left.rest())?))
}
