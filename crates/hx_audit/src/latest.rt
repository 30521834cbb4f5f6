//! The changes of a key that were the latest to have begun for a while.
//!
//! A change is asked for where a search has to show the last change of a key that began before it
//! ended. That is never a change before which a later one began. Of the others each began after
//! those that stand below it, so the one that is asked for is found by halving.

ghost use Rattle.std.specs.Prelude.{◌≡◌, ◌≤◌, ◌<◌, ◌-◌, ◌&&◌, ◌++◌, ◌∷◌, [], ℕ, IfOk, OnOk, Some, true, false, length, slice_get, slice_index_or};
ghost use Rattle.std.specs.List.{find};
ghost use Rattle.std.specs.Option.{option_copied};
ghost use Rattle.hx_model.specs.Searching.{changes_object};
ghost use Rattle.hx_audit.specs.declared.latest.LatestChange.{LatestChange as ChangeSeen};
ghost use Rattle.hx_audit.specs.Accounts.{began_before};
ghost use Rattle.hx_audit.specs.Latest.{AreLatest, AreLatestOf, Falls, change_of, is_begun};
ghost use Rattle.hx_audit.specs.Moments.{earlier, is_late};
ghost use Rattle.hx_audit.specs.Told.{account_of, call_at, item_told};
ghost use Rattle.hx_audit.specs.Walking.{HasIn, IsOrdered};

use crate::searches::{call_of_item, changes};
use crate::times::{call_begin, call_end};
use hx_report_lines::{Block, CallLine, HistoryLines, ItemLine};
use hx_types::Memory;
use std::alloc::Global;

/// A change that began before every later change of its key.
#[derive(Clone, Copy)]
pub struct LatestChange<'a> {
    pub item: &'a ItemLine,
    /// When it began.
    pub begin: u64,
    /// When the first to end of it and of the items after it did, if one ended.
    pub over: Option<u64>,
}

/// Such changes of a history, the newest first.
#[derive(Drop)]
pub struct LatestChanges<'a> {
    pub history: &'a HistoryLines,
    pub changes: Vec<LatestChange<'a>>,
}

/// The earlier of two times, where there are any.
fn earlier(first: Option<u64>, other: Option<u64>) -> Option<u64>
    ensures { result ≡ earlier first other }
{
    match (first, other) {
        (Some(first), Some(other)) => Some(if other < first { other } else { first }),
        (None, other) => other,
        (first, None) => first,
    }
}

/// When a call began that changed the object of its key by an item; none of any other.
fn begin_of_change(block: &Block, call: Option<&CallLine>, item: &ItemLine) -> Option<u64>
    requires ordered { IsOrdered block.now }
    requires call { option_copied call ≡ call_at block.now.calls item.now.caller }
    ensures { (time : ℕ) → is_late result (Some time) ≡ (changes_object (item_told block.now.calls item.now) && began_before (account_of block.now) item.now.caller time) }
{
    if changes(block.calls.as_slice(), item) {
        call_begin(call)
    } else {
        None
    }
}

/// Whether a change began before all of these, the last of which began first.
fn is_lowest(changes: &[LatestChange<'_>], begin: u64) -> bool
    ensures lowest { result ≡ true → (d : ChangeSeen) → 0 < length changes.now → begin < (slice_index_or changes.now (length changes.now - 1) d).begin }
    ensures other { result ≡ false → HasIn (λ change. change.begin ≤ begin) changes.now }
{
    match changes.last() {
        Some(last) => begin < last.begin,
        None => true,
    }
}

/// Adds an older change, unless one of these began before it.
fn push_change<'a>(
    changes: &mut Vec<LatestChange<'a>>,
    change: LatestChange<'a>,
) -> Result<(), Memory>
    ensures falls { OnOk result (Falls changes.old.items → Falls changes.new.items) }
    ensures found { OnOk result ((time : ℕ) → find (is_begun time) changes.new.items ≡ find (is_begun time) (changes.old.items ++ change.entry ∷ [])) }
{
    if is_lowest(changes.as_slice(), change.begin) {
        changes.push(change)?;
    }
    Ok(())
}

/// Adds an older item, if it is a change, unless one of these began before it.
fn push_item<'a>(
    changes: &mut Vec<LatestChange<'a>>,
    item: &'a ItemLine,
    begin: Option<u64>,
    over: Option<u64>,
) -> Result<(), Memory>
    ensures falls { OnOk result (Falls changes.old.items → Falls changes.new.items) }
    ensures found { OnOk result ((time : ℕ) → find (is_begun time) changes.new.items ≡ find (is_begun time) (changes.old.items ++ change_of item.entry begin over)) }
{
    match begin {
        Some(begin) => push_change(changes, LatestChange { item, begin, over }),
        None => Ok(()),
    }
}

/// The changes of a history that began before all later ones, the newest first.
fn changes_of<'a>(
    alloc: Global,
    block: &Block,
    history: &'a HistoryLines,
) -> Result<Vec<LatestChange<'a>>, Memory>
    requires { IsOrdered block.now }
    ensures { IfOk result (λ changes. AreLatestOf block.now history.now changes.items) }
{
    let mut latest = Vec::new(alloc);
    let mut over = None;
    let mut rest = history.items.as_slice();
    while let Some((item, older)) = rest.split_last() {
        let call = call_of_item(block, item);
        over = earlier(call_end(call), over);
        push_item(&mut latest, item, begin_of_change(block, call, item), over)?;
        rest = older;
    }
    Ok(latest)
}

/// The changes of each history of a block that began before all later ones of it, the newest first.
pub fn latest_of<'a>(alloc: Global, block: &'a Block) -> Result<Vec<LatestChanges<'a>>, Memory>
    requires { IsOrdered block.now }
    ensures { IfOk result (λ histories. AreLatest block.now histories.items) }
{
    let mut latest = Vec::new(alloc);
    for history in block.histories.as_slice() {
        let changes = changes_of(alloc, block, history)?;
        latest.push(LatestChanges { history, changes })?;
    }
    Ok(latest)
}

/// The change at a place.
fn change_at<'b, 'a>(changes: &'b [LatestChange<'a>], place: usize) -> Option<&'b LatestChange<'a>>
    ensures { option_copied result ≡ slice_get changes.now place }
{
    changes.get(place)
}

/// The last change that began before a time, found by halving.
pub fn last_before<'b, 'a>(
    changes: &'b [LatestChange<'a>],
    time: u64,
) -> Option<&'b LatestChange<'a>>
    requires { Falls changes.now }
    ensures { option_copied result ≡ find (is_begun time) changes.now }
{
    let place = changes.partition_point(|change| change.begin >= time);
    change_at(changes, place)
}
