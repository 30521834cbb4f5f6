ghost use Rattle.std.specs.Prelude.{◌≡◌, ◌*◌, ◌^◌, ◌<◌, ◌≤◌, IfOk, drop, length, map, slice_get};
ghost use Rattle.std.specs.List.{AllByRecursion};
ghost use Rattle.std.specs.Option.{option_copied};
ghost use Rattle.hx_types.specs.declared.limits.TheConstants.{MOST_PLACES};
ghost use Rattle.hx_slot.specs.Updates.{last_version, places_in, row_over, row_seen};
ghost use Rattle.hx_model.specs.Slots.{object_in, row_of};
ghost use Rattle.hx_slot.specs.States.{HasFewPlaces, object_at, object_seen};
ghost use Rattle.hx_slot.specs.declared.updates.AcceptedUpdate.{AcceptedUpdate};

use crate::updates::AcceptedUpdate;
use hx_types::{Exact, Memory, Object, Row, Shared, Text, Update, Version};
use std::alloc::Global;

/// A row that is lent.
#[derive(Clone, Copy)]
pub struct RowRef<'a> {
    pub key: &'a Text,
    pub version: Version,
    pub object: &'a Object,
}

/// The version of the last update, or that before them.
pub fn last_version(before: Version, line: &[AcceptedUpdate]) -> Version
    ensures { result.0 ≡ last_version before.0 line.now }
{
    match line.last() {
        Some(taken) => taken.update.version,
        None => before,
    }
}

/// The updates after so many at the front.
pub fn rest_of(line: &[AcceptedUpdate], count: usize) -> &[AcceptedUpdate]
    requires { count ≤ length line.now }
    ensures { result.now ≡ drop count line.now }
{
    &line[count..]
}

/// How many places the updates have in all.
pub fn place_count(line: &[AcceptedUpdate]) -> usize
    requires few { AllByRecursion (λ (t : AcceptedUpdate). HasFewPlaces t.update) line.now }
    requires short { length line.now < 2 ^ 32 }
    ensures count { result ≡ places_in line.now }
    ensures bound { result ≤ MOST_PLACES * length line.now }
{
    let mut count = 0;
    for taken in line {
        count += taken.update.places.len();
    }
    count
}

/// The row after these updates, sought from the last one back: the first that changes, or that
/// doesn't keep, decides.
pub fn row_over<'a>(base: Option<&'a Row>, line: &'a [AcceptedUpdate]) -> Option<RowRef<'a>>
    ensures { row_seen result ≡ row_over (option_copied base.entry) line.now }
{
    let mut rest = line;
    while let Some((taken, older)) = rest.split_last() {
        if !taken.keeps {
            return None;
        }
        if taken.update.changes {
            return row_of(taken);
        }
        rest = older;
    }
    match base {
        Some(row) => Some(RowRef {
            key: &row.key,
            version: row.version,
            object: &row.object,
        }),
        None => None,
    }
}

/// The row that an update sets, where there is an object after it.
pub fn row_of(taken: &AcceptedUpdate) -> Option<RowRef<'_>>
    ensures { row_seen result ≡ row_of taken.now.update }
{
    let update = taken.update.get();
    match &update.object {
        Some(object) => Some(RowRef {
            key: &update.key,
            version: update.version,
            object,
        }),
        None => None,
    }
}

/// The object of a row, with its version.
pub fn version_and_object(found: Option<RowRef<'_>>) -> Option<(Version, &Object)>
    ensures { object_seen result ≡ object_at (row_seen found.entry) }
{
    match found {
        Some(row) => Some((row.version, row.object)),
        None => None,
    }
}

/// The object of a row.
pub fn only_object(found: Option<RowRef<'_>>) -> Option<&Object>
    ensures { option_copied result ≡ object_in (row_seen found.entry) }
{
    match found {
        Some(row) => Some(row.object),
        None => None,
    }
}

/// The update at a place of the line, from 0.
pub fn update_at(line: &[AcceptedUpdate], place: usize) -> Option<&Shared<Update>>
    ensures { option_copied result ≡ slice_get (map (λ (t : AcceptedUpdate). t.update) line.now) place }
{
    match line.get(place) {
        Some(taken) => Some(&taken.update),
        None => None,
    }
}

/// A copy of the row.
pub fn copy_row(alloc: Global, found: Option<RowRef<'_>>) -> Result<Option<Row>, Memory>
    ensures { IfOk result (λ row. row ≡ row_seen found.entry) }
{
    match found {
        Some(row) => Ok(Some(Row {
            key: row.key.copy(alloc)?,
            version: row.version,
            object: row.object.copy(alloc)?,
        })),
        None => Ok(None),
    }
}
