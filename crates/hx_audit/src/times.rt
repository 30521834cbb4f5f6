//! When the calls of items began and ended.

ghost use Rattle.std.specs.Prelude.{◌≡◌, IfSome, None, Some, slice_get, take, true};
ghost use Rattle.std.specs.Option.{option_copied, option_map};
ghost use Rattle.hx_types.specs.Words.{when_some};
ghost use Rattle.hx_report_lines.specs.declared.calls.CallLine.{CallLine as CallSeen};
ghost use Rattle.hx_audit.specs.Accounts.{began_before, ended_before};
ghost use Rattle.hx_audit.specs.Clauses.{is_in_time};
ghost use Rattle.hx_audit.specs.Moments.{begin_at, end_at, is_late, later, time_of_end};
ghost use Rattle.hx_audit.specs.Told.{account_of};
ghost use Rattle.hx_audit.specs.Walking.{IsFirstNot, IsOrdered};

use crate::lookups::call_of;
use hx_report_lines::{Block, CallLine, ItemLine};
use hx_types::Caller;

/// When the call of a caller began.
fn begin_of(block: &Block, caller: Caller) -> Option<u64>
    requires { IsOrdered block.now }
    ensures { result ≡ begin_at block.now caller }
{
    match call_of(block.calls.as_slice(), caller) {
        Some(call) => Some(call.begin),
        None => None,
    }
}

/// When a call ended, if it did.
fn end_of_call(call: &CallLine) -> Option<u64>
    ensures { result ≡ time_of_end call.now }
{
    match &call.answer {
        Some(_) => call.end,
        None => None,
    }
}

/// When the call of a caller ended, if it did.
fn end_of(block: &Block, caller: Caller) -> Option<u64>
    requires { IsOrdered block.now }
    ensures { result ≡ end_at block.now caller }
{
    match call_of(block.calls.as_slice(), caller) {
        Some(call) => end_of_call(call),
        None => None,
    }
}

/// Whether a time, if there is one, is before another.
pub fn is_before(time: Option<u64>, other: u64) -> bool
    ensures { result ≡ is_late time (Some other) }
{
    match time {
        Some(time) => time < other,
        None => false,
    }
}

/// When a call began, if there is one.
pub fn call_begin(call: Option<&CallLine>) -> Option<u64>
    ensures { result ≡ option_map (λ (l : CallSeen). l.begin) (option_copied call.entry) }
{
    match call {
        Some(call) => Some(call.begin),
        None => None,
    }
}

/// When a call ended, if there is one that did.
pub fn call_end(call: Option<&CallLine>) -> Option<u64>
    ensures { result ≡ when_some (option_copied call.entry) None time_of_end }
{
    match call {
        Some(call) => end_of_call(call),
        None => None,
    }
}

/// Whether the call of a caller began before a time.
pub fn began_before(block: &Block, caller: Caller, time: u64) -> bool
    requires { IsOrdered block.now }
    ensures { result ≡ began_before (account_of block.now) caller time }
{
    is_before(begin_of(block, caller), time)
}

/// Whether the call of a caller ended before a time.
pub fn ended_before(block: &Block, caller: Caller, time: u64) -> bool
    requires { IsOrdered block.now }
    ensures { result ≡ ended_before (account_of block.now) caller time }
{
    is_before(end_of(block, caller), time)
}

/// Whether a call that ended here did so before the last of these begins.
fn is_late(end: Option<u64>, latest: Option<u64>) -> bool
    ensures { result ≡ is_late end latest }
{
    match (end, latest) {
        (Some(end), Some(latest)) => end < latest,
        _ => false,
    }
}

/// The later of two times, where there are any.
fn later(first: Option<u64>, other: Option<u64>) -> Option<u64>
    ensures { result ≡ later first other }
{
    match (first, other) {
        (Some(first), Some(other)) => Some(if first < other { other } else { first }),
        (None, other) => other,
        (first, None) => first,
    }
}

/// The place of the first item whose call ended before that of an item above it began.
pub fn first_late(block: &Block, items: &[ItemLine]) -> Option<usize>
    requires { IsOrdered block.now }
    ensures { IsFirstNot (λ place. IfSome (slice_get items.now place) (λ x. is_in_time (account_of block.now) (take place items.now) x ≡ true)) result }
{
    let mut latest = None;
    for (place, item) in items.iter().enumerate() {
        let end = end_of(block, item.caller);
        if is_late(end, latest) {
            return Some(place);
        }
        latest = later(latest, begin_of(block, item.caller));
    }
    None
}
