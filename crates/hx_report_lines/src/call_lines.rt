//! Reading the lines of calls and of rows.

ghost use Rattle.std.specs.Prelude.{◌≡◌, ◌++◌, OnOk};
ghost use Rattle.hx_types.specs.Spaces.{IsSpace};
ghost use Rattle.hx_report_lines.specs.Calling.{call_in, end_in, head_lines, head_of, head_text, op_before, op_part, row_after, row_in, row_of, row_version, span};
ghost use Rattle.hx_report_lines.specs.Readers.{Gives, Reads};
ghost use Rattle.hx_report_lines.specs.Values.{has_end};

use crate::answers::answer_in;
use crate::calls::CallLine;
use crate::cursor::Cursor;
use crate::errors::Stop;
use crate::items::{caller, is_line};
use crate::printing::put_called;
use crate::values::{object, operation, text};
use hx_print::put_bytes;
use hx_report::{put_labeled, put_maybe_answer, put_row};
use hx_types::{Answer, Caller, Memory, Op, Row, Space, Text, Version};
use std::alloc::Global;

/// The caller of a line, and when the call began and ended.
#[derive(Clone, Copy)]
pub struct Span {
    pub caller: Caller,
    pub begin: u64,
    pub end: Option<u64>,
}

/// A call whose rows, if it has any, stand in so many lines after it.
#[derive(Drop)]
pub struct CallHead {
    pub call: CallLine,
    pub rows: u64,
}

fn end_in(left: &mut Cursor<'_>) -> Result<Option<u64>, Stop>
    ensures { Reads (λ e. e) result left.new (end_in left.old) }
{
    if left.rest().starts_with(b"-") {
        left.word(b"-")?;
        return Ok(None);
    }
    Ok(Some(left.number()?))
}

#[tactic(auto, unfolding(crate::specs::Calling::span))]
fn span_of(left: &mut Cursor<'_>) -> Result<Span, Stop>
    ensures { Reads (λ s. s) result left.new (span left.old) }
{
    left.word(b"call ")?;
    let caller = caller(left)?;
    left.word(b" begin ")?;
    let begin = left.number()?;
    left.word(b" end ")?;
    let end = end_in(left)?;
    left.word(b" ")?;
    Ok(Span { caller, begin, end })
}

/// The call that stands before ` -`.
fn op_before(alloc: Global, space: &Space, front: &[u8]) -> Result<Op, Stop>
    requires { IsSpace space.now }
    ensures { Gives (λ op. op) result (op_before space.now front.now) }
{
    match front.len().checked_sub(2) {
        Some(len) => operation(alloc, space, &front[..len]),
        None => Err(Stop::Unread),
    }
}

/// Takes a call and ` -> `. A call has no `>` but between quotes.
fn op_part(alloc: Global, space: &Space, left: &mut Cursor<'_>) -> Result<Op, Stop>
    requires { IsSpace space.now }
    ensures { Reads (λ op. op) result left.new (op_part space.now left.old) }
{
    let op = op_before(alloc, space, left.up_to(b'>'))?;
    left.word(b"> ")?;
    Ok(op)
}

/// Whether the call has an end.
fn has_end(answer: &Option<Answer>) -> bool
    ensures { result ≡ has_end answer.now }
{
    match answer {
        Some(answer) => !answer.is_doubt(),
        None => false,
    }
}

fn call_in(alloc: Global, space: &Space, line: &[u8]) -> Result<CallHead, Stop>
    requires { IsSpace space.now }
    ensures { Gives (λ h. h) result (call_in space.now line.now) }
{
    let mut left = Cursor::new(line);
    let Span { caller, begin, end } = span_of(&mut left)?;
    let op = op_part(alloc, space, &mut left)?;
    let answered = answer_in(alloc, space, left.rest())?;
    if end.is_some() != has_end(&answered.answer) {
        return Err(Stop::Unread);
    }
    let rows = answered.rows;
    let call = CallLine {
        caller,
        begin,
        end,
        op,
        version: answered.version,
        answer: answered.answer,
    };
    Ok(CallHead { call, rows })
}

/// Appends what a call was answered, of rows how many follow.
fn put_head_answer(out: &mut Vec<u8>, space: &Space, head: &CallHead) -> Result<(), Memory>
    ensures { OnOk result (out.new.items ≡ out.old.items ++ head_lines space.now head.now.call.version head.now.call.answer head.now.rows) }
{
    if let Some(Answer::Rows(_)) = &head.call.answer {
        put_labeled(out, b"rows ", head.rows)?;
        return put_bytes(out, b"\n");
    }
    put_maybe_answer(out, space, head.call.version, &head.call.answer)
}

#[tactic(auto, unfolding(crate::specs::Calling::head_text))]
fn put_head(out: &mut Vec<u8>, space: &Space, head: &CallHead) -> Result<(), Memory>
    ensures { OnOk result (out.new.items ≡ out.old.items ++ head_text space.now head.now) }
{
    put_called(out, space, &head.call)?;
    put_head_answer(out, space, head)
}

/// The call of a line.
#[tactic(auto, unfolding(crate::specs::Calling::head_of))]
pub(crate) fn head_of(alloc: Global, space: &Space, line: &[u8]) -> Result<CallHead, Stop>
    requires { IsSpace space.now }
    ensures { Gives (λ h. h) result (head_of space.now line.now) }
{
    let head = call_in(alloc, space, line)?;
    let mut printed = Vec::new(alloc);
    put_head(&mut printed, space, &head)?;
    if is_line(&printed, line) {
        Ok(head)
    } else {
        Err(Stop::Unread)
    }
}

#[tactic(auto, unfolding(crate::specs::Calling::row_version))]
fn row_version(left: &mut Cursor<'_>) -> Result<u64, Stop>
    ensures { Reads (λ n. n) result left.new (row_version left.old) }
{
    left.word(b" version ")?;
    left.number()
}

fn row_after(alloc: Global, space: &Space, key: Text, bytes: &[u8]) -> Result<Row, Stop>
    requires { IsSpace space.now }
    ensures { Gives (λ r. r) result (row_after space.now key bytes.now) }
{
    let mut left = Cursor::new(bytes);
    let version = Version(row_version(&mut left)?);
    let object = object(alloc, space, left.rest())?;
    Ok(Row {
        key,
        version,
        object,
    })
}

fn row_in(alloc: Global, space: &Space, line: &[u8]) -> Result<Row, Stop>
    requires { IsSpace space.now }
    ensures { Gives (λ r. r) result (row_in space.now line.now) }
{
    let mut left = Cursor::new(line);
    left.word(b"row ")?;
    let key = text(alloc, space, left.up_to(b' '))?;
    row_after(alloc, space, key, left.rest())
}

/// The row of a line.
#[tactic(auto, unfolding(crate::specs::Calling::row_of))]
pub(crate) fn row_of(alloc: Global, space: &Space, line: &[u8]) -> Result<Row, Stop>
    requires { IsSpace space.now }
    ensures { Gives (λ r. r) result (row_of space.now line.now) }
{
    let row = row_in(alloc, space, line)?;
    let mut printed = Vec::new(alloc);
    put_row(&mut printed, space, &row)?;
    if is_line(&printed, line) {
        Ok(row)
    } else {
        Err(Stop::Unread)
    }
}
