//! How many lines the parts of a report have.

ghost use Rattle.std.specs.Prelude.{◌≡◌, ◌+◌, IfOk, length};
ghost use Rattle.hx_audit.specs.Told.{rows_told};
ghost use Rattle.hx_audit.specs.Verdicts.{block_lines, call_lines, history_lines, lines_of_calls, lines_of_histories, space_lines};

use hx_report_lines::{Block, CallLine, HistoryLines};
use hx_types::{Answer, Memory};

/// The line so many lines further on. No memory has room for a report of more than 2^64 lines.
pub fn further(line: u64, count: usize) -> Result<u64, Memory>
    ensures { IfOk result (λ n. n ≡ line + count) }
{
    match line.checked_add(count as u64) {
        Some(next) => Ok(next),
        None => Err(Memory),
    }
}

/// How many rows stand below a call.
fn count_rows(call: &CallLine) -> usize
    ensures { result ≡ length (rows_told call.now) }
{
    match &call.answer {
        Some(Answer::Rows(rows)) => rows.len(),
        _ => 0,
    }
}

/// The line after those of a call.
pub fn after_call(line: u64, call: &CallLine) -> Result<u64, Memory>
    ensures { IfOk result (λ n. n ≡ line + call_lines call.now) }
{
    let first = further(line, 1)?;
    let next = further(first, count_rows(call))?;
    Ok(next)
}

/// The line after those of a history.
pub fn after_history(line: u64, history: &HistoryLines) -> Result<u64, Memory>
    ensures { IfOk result (λ n. n ≡ line + history_lines history.now) }
{
    let first = further(line, 1)?;
    let next = further(first, history.items.len())?;
    Ok(next)
}

/// The line after those of calls.
pub fn after_calls(first: u64, calls: &[CallLine]) -> Result<u64, Memory>
    ensures { IfOk result (λ n. n ≡ first + lines_of_calls calls.now) }
{
    let mut line = first;
    let mut rest = calls;
    while let Some((call, others)) = rest.split_first() {
        line = after_call(line, call)?;
        rest = others;
    }
    Ok(line)
}

/// The line after those of histories.
fn after_histories(first: u64, histories: &[HistoryLines]) -> Result<u64, Memory>
    ensures { IfOk result (λ n. n ≡ first + lines_of_histories histories.now) }
{
    let mut line = first;
    let mut rest = histories;
    while let Some((history, others)) = rest.split_first() {
        line = after_history(line, history)?;
        rest = others;
    }
    Ok(line)
}

/// The line after those of a block's space.
pub fn after_space(line: u64, block: &Block) -> Result<u64, Memory>
    ensures { IfOk result (λ n. n ≡ line + space_lines block.now.space) }
{
    let key = further(line, 4)?;
    let attributes = further(key, block.space.attributes.len())?;
    let subspaces = further(attributes, block.space.subspaces.len())?;
    Ok(subspaces)
}

/// The line after those of a block.
pub fn after_block(line: u64, block: &Block) -> Result<u64, Memory>
    ensures { IfOk result (λ n. n ≡ line + block_lines block.now) }
{
    let space = after_space(line, block)?;
    let calls = after_calls(space, block.calls.as_slice())?;
    let histories = after_histories(calls, block.histories.as_slice())?;
    let epochs = further(histories, block.epochs.len())?;
    let raw = further(epochs, block.raw.len())?;
    let drivers = further(raw, block.drivers.len())?;
    Ok(drivers)
}
