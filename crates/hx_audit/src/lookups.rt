//! The calls of callers.

ghost use Rattle.std.specs.Prelude.{◌≡◌, ℕ, true, false, length, slice_get};
ghost use Rattle.std.specs.List.{AllWithin};
ghost use Rattle.std.specs.Option.{option_copied};
ghost use Rattle.hx_types.specs.Words.{when_some};
ghost use Rattle.hx_report_lines.specs.Values.{caller_below};
ghost use Rattle.hx_audit.specs.Told.{call_at, same_caller};
ghost use Rattle.hx_audit.specs.Walking.{CallsAscend, place_at};

use hx_report_lines::CallLine;
use hx_types::Caller;

/// Whether a caller stands before another: by session, and within one by number.
fn is_before(caller: Caller, other: Caller) -> bool
    ensures { result ≡ caller_below caller other }
{
    caller.session.0 < other.session.0
        || (caller.session == other.session && caller.number < other.number)
}

fn is_same(caller: Caller, other: Caller) -> bool
    ensures { result ≡ same_caller caller other }
{
    caller.session == other.session && caller.number == other.number
}

/// Where the calls of lower callers end.
fn lower_calls(calls: &[CallLine], caller: Caller) -> usize
    requires { CallsAscend calls.now }
    ensures low { AllWithin (λ l. caller_below l.caller caller ≡ true) calls.now 0 result }
    ensures high { AllWithin (λ l. caller_below l.caller caller ≡ false) calls.now result (length calls.now) }
{
    calls.partition_point(|call| is_before(call.caller, caller))
}

/// Whether the call at a place is the caller's.
fn is_call_of(calls: &[CallLine], place: usize, caller: Caller) -> bool
    ensures { result ≡ when_some (slice_get calls.now place) false (λ l. same_caller l.caller caller) }
{
    match calls.get(place) {
        Some(call) => is_same(call.caller, caller),
        None => false,
    }
}

/// The place of a caller's call among calls by caller, found by halving.
fn halved_place_of(calls: &[CallLine], caller: Caller) -> Option<usize>
    requires { CallsAscend calls.now }
    ensures { result ≡ place_at calls.now caller }
{
    let place = lower_calls(calls, caller);
    if is_call_of(calls, place, caller) {
        Some(place)
    } else {
        None
    }
}

/// Where a caller's call stands if each session has made as many calls as every other. No contract
/// reads it.
fn likely_place(calls: &[CallLine], caller: Caller) -> usize {
    let sessions = match calls.last() {
        Some(last) => last.caller.session.0 as usize,
        None => 0,
    };
    let each = calls.len().checked_div(sessions).unwrap_or(0);
    let before = (caller.session.0 as usize).saturating_sub(1);
    let number = (caller.number as usize).saturating_sub(1);
    each.saturating_mul(before).saturating_add(number)
}

/// The place of a caller's call among calls by caller: the likely one, or else found by halving. An
/// audit looks for the call of each item again and again, and in most reports sessions make as many
/// calls each.
pub fn place_of(calls: &[CallLine], caller: Caller) -> Option<usize>
    requires { CallsAscend calls.now }
    ensures { result ≡ place_at calls.now caller }
{
    let likely = likely_place(calls, caller);
    if is_call_of(calls, likely, caller) {
        Some(likely)
    } else {
        halved_place_of(calls, caller)
    }
}

/// The line at a place.
pub fn line_at(calls: &[CallLine], place: usize) -> Option<&CallLine>
    ensures { option_copied result ≡ slice_get calls.now place }
{
    calls.get(place)
}

/// The line of a caller's call.
pub fn call_of(calls: &[CallLine], caller: Caller) -> Option<&CallLine>
    requires { CallsAscend calls.now }
    ensures { option_copied result ≡ call_at calls.now caller }
{
    match place_of(calls, caller) {
        Some(place) => line_at(calls, place),
        None => None,
    }
}
