//! Finished searches, and the changes that they have to show.

ghost use Rattle.std.specs.Prelude.{◌≡◌, ◌&&◌, ◌||◌, None};
ghost use Rattle.std.specs.Option.{option_copied, option_map};
ghost use Rattle.hx_types.specs.Words.{when_some};
ghost use Rattle.hx_model.specs.Searching.{changes_object, rows_in, terms_of};
ghost use Rattle.hx_audit.specs.Accounts.{began_before, ended_before};
ghost use Rattle.hx_audit.specs.Finished.{finished_view};
ghost use Rattle.hx_audit.specs.Told.{account_of, call_at, item_told, search_told};
ghost use Rattle.hx_audit.specs.Walking.{CallsAscend, IsOrdered};

use crate::lookups::call_of;
use crate::times::{began_before, ended_before};
use hx_report_lines::{Block, CallLine, ItemLine, ItemWord};
use hx_types::{Answer, Op, Rows, Terms};

/// A search that ended with rows: its terms, when it began and ended, and the rows.
#[derive(Clone, Copy)]
pub struct Finished<'a> {
    pub terms: &'a Terms,
    pub begin: u64,
    pub end: u64,
    pub rows: &'a Rows,
}

/// The rows of a call's answer.
pub fn rows_of(call: &CallLine) -> Option<&Rows>
    ensures { option_copied result ≡ when_some call.now.answer None rows_in }
{
    match &call.answer {
        Some(Answer::Rows(rows)) => Some(rows),
        _ => None,
    }
}

/// The terms of a call that is a search.
fn asked(call: &CallLine) -> Option<&Terms>
    ensures { option_copied result ≡ terms_of call.now.op }
{
    match &call.op {
        Op::Search { terms } => Some(terms),
        _ => None,
    }
}

/// The finished search of a call, if it is one.
pub fn search_of(call: &CallLine) -> Option<Finished<'_>>
    ensures { option_map finished_view result ≡ search_told call.now }
{
    match (asked(call), rows_of(call), call.end) {
        (Some(terms), Some(rows), Some(end)) => Some(Finished {
            terms,
            begin: call.begin,
            end,
            rows,
        }),
        _ => None,
    }
}

/// Whether an item changed the object of its key.
pub fn changes(calls: &[CallLine], item: &ItemLine) -> bool
    requires { CallsAscend calls.now }
    ensures { result ≡ changes_object (item_told calls.now item.now) }
{
    match (item.word, call_of(calls, item.caller)) {
        (ItemWord::Done, Some(call)) => call.op.is_write(),
        _ => false,
    }
}

/// Whether an item changed the object of its key, and began before a time.
pub fn is_change_before(block: &Block, item: &ItemLine, time: u64) -> bool
    requires { IsOrdered block.now }
    ensures { result ≡ (changes_object (item_told block.now.calls item.now) && began_before (account_of block.now) item.now.caller time) }
{
    changes(block.calls.as_slice(), item) && began_before(block, item.caller, time)
}

/// The call of an item.
pub fn call_of_item<'a>(block: &'a Block, item: &ItemLine) -> Option<&'a CallLine>
    requires { IsOrdered block.now }
    ensures { option_copied result ≡ call_at block.now.calls item.now.caller }
{
    call_of(block.calls.as_slice(), item.caller)
}

/// Whether an item changed the object of its key, and ended before a time.
pub fn is_change_over(block: &Block, item: &ItemLine, time: u64) -> bool
    requires { IsOrdered block.now }
    ensures { result ≡ (changes_object (item_told block.now.calls item.now) && ended_before (account_of block.now) item.now.caller time) }
{
    changes(block.calls.as_slice(), item) && ended_before(block, item.caller, time)
}

/// Whether one of two things is so.
pub fn either(first: bool, other: bool) -> bool
    ensures { result ≡ (first || other) }
{
    first || other
}
