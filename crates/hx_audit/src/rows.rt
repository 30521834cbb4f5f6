//! Rows that no search may show.

ghost use Rattle.std.specs.Prelude.{◌≡◌, ◌↔◌, IsTrue, IfSome, Some, [], false, map, reverse, slice_get};
ghost use Rattle.std.specs.Option.{option_copied};
ghost use Rattle.hx_audit.specs.Clauses.{IsRowOf, IsTrueAt, is_above, row_above};
ghost use Rattle.hx_audit.specs.Accounts.{IsTrueRowBy};
ghost use Rattle.hx_audit.specs.Finished.{finished_view};
ghost use Rattle.hx_audit.specs.Told.{account_of, item_told, items_at};
ghost use Rattle.hx_audit.specs.Walking.{HasCut, IsChangeOf, IsFirstNot, IsOrdered};

use crate::histories::{is_below, items_of};
use crate::searches::{Finished, either, is_change_before, is_change_over, search_of};
use hx_region::matches;
use hx_report_lines::{Block, CallLine, ItemLine};
use hx_types::{Object, Row, Same, Shared};

fn is_object(object: Option<&Object>, other: &Object) -> bool
    ensures { IsTrue result ↔ (option_copied object.entry ≡ Some other.now) }
{
    match object {
        Some(object) => object.same(other),
        None => false,
    }
}

/// Whether an item is the change that a row shows, and began before the search ended.
fn is_change_of(block: &Block, search: &Finished<'_>, row: &Row, item: &ItemLine) -> bool
    requires { IsOrdered block.now }
    ensures { IsTrue result ↔ IsChangeOf block.now (finished_view search.now) row.now item.now }
{
    item.version == row.version
        && is_object(item.object.as_ref(), &row.object)
        && is_change_before(block, item, search.end)
}

/// Whether an item is the change that a row shows, and no change after it was over before the
/// search began.
fn is_cut(block: &Block, search: &Finished<'_>, row: &Row, item: &ItemLine, over: bool) -> bool
    requires { IsOrdered block.now }
    ensures { IsTrue result ↔ ((over ≡ false) × IsChangeOf block.now (finished_view search.now) row.now item.now) }
{
    !over && is_change_of(block, search, row, item)
}

/// Whether the row's change stands among the items, and no change after it was over before the
/// search began.
fn has_cut(block: &Block, search: &Finished<'_>, row: &Row, items: &[ItemLine]) -> bool
    requires { IsOrdered block.now }
    ensures { IsTrue result ↔ HasCut (account_of block.now) (finished_view search.now) row.now [] (reverse (map (item_told block.now.calls) items.now)) }
{
    let mut over = false;
    let mut rest = items;
    while let Some((item, older)) = rest.split_last() {
        if is_cut(block, search, row, item, over) {
            return true;
        }
        over = either(is_change_over(block, item, search.begin), over);
        rest = older;
    }
    false
}

/// Whether the row's change stands in the history of its key, and no change after it was over
/// before the search began.
fn has_change(block: &Block, search: &Finished<'_>, row: &Row) -> bool
    requires { IsOrdered block.now }
    ensures { IsTrue result ↔ HasCut (account_of block.now) (finished_view search.now) row.now [] (reverse (map (item_told block.now.calls) (items_at block.now.histories row.now.key))) }
{
    has_cut(
        block,
        search,
        row,
        items_of(block.histories.as_slice(), &row.key),
    )
}

/// Whether a row is true of a search.
fn is_true_row(block: &Block, search: &Finished<'_>, row: &Row) -> bool
    requires { IsOrdered block.now }
    ensures { IsTrue result ↔ IsTrueRowBy (account_of block.now) (finished_view search.now) row.now }
{
    if !matches(search.terms, &row.key, &row.object) {
        return false;
    }
    has_change(block, search, row)
}

/// Whether a row's key stands above that of the row before, if there is one.
fn is_in_order(above: Option<&Row>, row: &Row) -> bool
    ensures { result ≡ is_above (option_copied above.entry) row.now.key }
{
    match above {
        Some(above) => is_below(&above.key, &row.key),
        None => true,
    }
}

/// Whether a row is true of a search, and stands above the row before.
fn is_row_of(block: &Block, search: &Finished<'_>, above: Option<&Row>, row: &Row) -> bool
    requires { IsOrdered block.now }
    ensures { IsTrue result ↔ IsRowOf (account_of block.now) (finished_view search.now) (option_copied above.entry) row.now }
{
    is_in_order(above, row) && is_true_row(block, search, row)
}

/// The place of the first row of a search that isn't true of it, or stands out of order.
fn first_untrue_of(block: &Block, search: &Finished<'_>, rows: &[Shared<Row>]) -> Option<usize>
    requires { IsOrdered block.now }
    ensures { IsFirstNot (λ place. IfSome (slice_get rows.now place) (IsRowOf (account_of block.now) (finished_view search.now) (row_above rows.now place))) result }
{
    let mut above = None;
    for (place, row) in rows.iter().enumerate() {
        let row = row.get();
        if !is_row_of(block, search, above, row) {
            return Some(place);
        }
        above = Some(row);
    }
    None
}

/// The place of the first row below a call that isn't true of its search, or stands out of order.
pub fn first_untrue(block: &Block, call: &CallLine) -> Option<usize>
    requires { IsOrdered block.now }
    ensures { IsFirstNot (IsTrueAt block.now call.now) result }
{
    match search_of(call) {
        Some(search) => first_untrue_of(block, &search, search.rows.as_slice()),
        None => None,
    }
}
