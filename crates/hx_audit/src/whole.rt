//! Searches that don't show a change that they have to.

ghost use Rattle.std.specs.Prelude.{◌≡◌, ◌↔◌, IsTrue, Some};
ghost use Rattle.std.specs.List.{All};
ghost use Rattle.hx_types.specs.Words.{IsIn};
ghost use Rattle.hx_report_lines.specs.declared.blocks.Block.{Block as BlockSeen};
ghost use Rattle.hx_audit.specs.Clauses.{IsWhole};
ghost use Rattle.hx_audit.specs.Finished.{finished_view};
ghost use Rattle.hx_audit.specs.Latest.{AllFall, AreLatest, Falls, IsLatestShown, ShowsLatest};
ghost use Rattle.hx_audit.specs.Walking.{IsObjectShown, IsOrdered, row_with};

use crate::latest::{LatestChange, LatestChanges, last_before};
use crate::searches::{Finished, search_of};
use crate::times::is_before;
use hx_region::matches;
use hx_report_lines::{CallLine, ItemLine};
use hx_types::{Object, Row, Same, Shared, Text, Version};

/// Whether a row has this key, version and object.
fn is_row(row: &Row, key: &Text, version: Version, object: &Object) -> bool
    ensures { IsTrue result ↔ (row_with key.now version object.now ≡ row.now) }
{
    row.version == version && row.key.same(key) && row.object.same(object)
}

/// Whether a row with this key, version and object is among the rows.
fn has_row(rows: &[Shared<Row>], key: &Text, version: Version, object: &Object) -> bool
    ensures { IsTrue result ↔ IsIn (row_with key.now version object.now) rows.now }
{
    let mut rest = rows;
    while let Some((row, others)) = rest.split_first() {
        if is_row(row.get(), key, version, object) {
            return true;
        }
        rest = others;
    }
    false
}

/// Whether the object of an item is among the rows of a search, if it matches.
fn is_shown(search: &Finished<'_>, key: &Text, item: &ItemLine) -> bool
    ensures { IsTrue result ↔ IsObjectShown (finished_view search.now) key.now item.now.version item.now.object }
{
    match &item.object {
        Some(object) => {
            !matches(search.terms, key, object)
                || has_row(search.rows.as_slice(), key, item.version, object)
        }
        None => true,
    }
}

/// Whether a search shows a change of a key, if that has to be shown.
fn is_change_shown(search: &Finished<'_>, key: &Text, change: &LatestChange<'_>) -> bool
    ensures { IsTrue result ↔ IsLatestShown (finished_view search.now) key.now (Some change.now) }
{
    !is_before(change.over, search.begin) || is_shown(search, key, change.item)
}

/// Whether a search shows the last change of a key that began before it ended, if that or an item
/// after it ended before the search began.
fn is_shown_at(search: &Finished<'_>, latest: &LatestChanges<'_>) -> bool
    requires { Falls latest.now.changes.items }
    ensures { IsTrue result ↔ ShowsLatest (finished_view search.now) latest.now }
{
    match last_before(latest.changes.as_slice(), search.end) {
        Some(change) => is_change_shown(search, &latest.history.key, change),
        None => true,
    }
}

/// Whether a search shows what it has to of each history.
fn are_shown(search: &Finished<'_>, histories: &[LatestChanges<'_>]) -> bool
    requires { AllFall histories.now }
    ensures { IsTrue result ↔ All (ShowsLatest (finished_view search.now)) histories.now }
{
    for latest in histories {
        if !is_shown_at(search, latest) {
            return false;
        }
    }
    true
}

/// Whether a finished search is whole at every key. True of any other call.
pub fn is_whole(histories: &[LatestChanges<'_>], call: &CallLine) -> bool
    requires { AllFall histories.now }
    ensures { (block : BlockSeen) → IsOrdered block → AreLatest block histories.now → IsTrue result ↔ IsWhole block call.now }
{
    match search_of(call) {
        Some(search) => are_shown(&search, histories),
        None => true,
    }
}
