//! The histories of keys.

ghost use Rattle.std.specs.Prelude.{◌≡◌, true, false, length, slice_get, []};
ghost use Rattle.std.specs.List.{AllWithin};
ghost use Rattle.hx_types.specs.Words.{same_text, text_below, when_some};
ghost use Rattle.hx_audit.specs.Told.{items_at};
ghost use Rattle.hx_audit.specs.Walking.{HistoriesAscend};

use hx_report_lines::{HistoryLines, ItemLine};
use hx_types::{Same, Text};

/// Whether one text stands before another in byte order.
pub fn is_below(text: &Text, other: &Text) -> bool
    ensures { result ≡ text_below text.now other.now }
{
    text.as_str() < other.as_str()
}

/// Where the histories of lower keys end.
fn lower_histories(histories: &[HistoryLines], key: &Text) -> usize
    requires { HistoriesAscend histories.now }
    ensures low { AllWithin (λ h. text_below h.key key.now ≡ true) histories.now 0 result }
    ensures high { AllWithin (λ h. text_below h.key key.now ≡ false) histories.now result (length histories.now) }
{
    histories.partition_point(|history| is_below(&history.key, key))
}

/// Whether the history at a place is the key's.
fn is_history_of(histories: &[HistoryLines], place: usize, key: &Text) -> bool
    ensures { result ≡ when_some (slice_get histories.now place) false (λ h. same_text h.key key.now) }
{
    match histories.get(place) {
        Some(history) => history.key.same(key),
        None => false,
    }
}

/// The items of the history at a place; none past the end.
fn items_of_place(histories: &[HistoryLines], place: usize) -> &[ItemLine]
    ensures { result.now ≡ when_some (slice_get histories.now place) [] (λ h. h.items) }
{
    match histories.get(place) {
        Some(history) => history.items.as_slice(),
        None => &[],
    }
}

/// The items of a key, whose history is found by halving; none where it has no history.
pub fn items_of<'a>(histories: &'a [HistoryLines], key: &Text) -> &'a [ItemLine]
    requires { HistoriesAscend histories.now }
    ensures { result.now ≡ items_at histories.now key.now }
{
    let place = lower_histories(histories, key);
    if is_history_of(histories, place, key) {
        items_of_place(histories, place)
    } else {
        &[]
    }
}
