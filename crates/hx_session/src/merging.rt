ghost use Rattle.std.specs.Prelude.{◌≡◌, ◌++◌, [], IfOk, OnOk, map, nat_lt, not};
ghost use Rattle.std.specs.Cmp.Lexicographic.{slice_cmp};
ghost use Rattle.std.specs.List.{flat_map};
ghost use Rattle.std.specs.List.Sorted.{IsSortedByKey};
ghost use Rattle.std.specs.Ordering.{nat_cmp};
ghost use Rattle.hx_types.specs.Words.{same_text};
ghost use Rattle.hx_model.specs.SessionSteps.{merged_parts, rows_joined, with_part};
ghost use Rattle.hx_session.specs.Changes.{part_seen};
ghost use Rattle.hx_session.specs.Joined.{row_key, rows_in};

use crate::parts::SearchPart;
use hx_types::{Exact, Memory, RegionId, Row, Rows, Shared, prefix_of};
use std::alloc::Global;
use std::cmp::Ordering;
use std::marker::Model;

/// The rows of all parts, of each key the one with the highest version, in byte order of keys. The
/// part of the region has the rows that were found. The rows of a part may come in any order; those
/// that come in order of keys cost the fewest comparisons.
pub fn merged(
    alloc: Global,
    parts: &[SearchPart],
    region: RegionId,
    found: &Rows,
) -> Result<Rows, Memory>
    ensures { IfOk result (λ rows. rows ≡ merged_parts (map (with_part region found.now) (map part_seen parts.now))) }
{
    let mut rows = gathered(alloc, parts, region, found)?;
    rows.sort_by(|one, other| compare_keys(one, other))?;
    picked(alloc, rows.as_slice())
}

/// A row that is lent, beside the first eight bytes of its key as a number. Rows are put in order
/// by these, and by the keys themselves only where these are the same: that spares most looks at
/// keys elsewhere in memory. It is this project's choice. Contracts see the row.
#[derive(Drop)]
struct Keyed<'a> {
    prefix: u64,
    row: &'a Shared<Row>,
}

impl<'a> Model for Keyed<'a> {
    ghost use Rattle.hx_types.specs.declared.calls.Row.{Row};
    ghost use Rattle.hx_types.specs.Prefixes.{IsPrefixOf};

    ghost Value = { Row };

    ghost view = { λ k. k.row.now };

    ghost invariant = { λ k. IsPrefixOf k.row.now.key k.prefix };
}

impl<'a> Keyed<'a> {
    #[inline]
    fn new(row: &'a Shared<Row>) -> Keyed<'a>
        ensures { result ≡ row.now }
    {
        let prefix = prefix_of(row.key.as_str());
        Keyed { prefix, row }
    }

    #[inline]
    fn row(&self) -> &'a Shared<Row>
        ensures { result.now ≡ self.now }
    {
        self.row
    }
}

/// The keys of two rows, by their bytes.
#[inline]
fn compare_keys(one: &Keyed, other: &Keyed) -> Ordering
    ensures { result ≡ slice_cmp nat_cmp one.now.key other.now.key }
{
    if one.prefix != other.prefix {
        return one.prefix.cmp(&other.prefix);
    }
    one.row.key.cmp(&other.row.key)
}

/// Whether two rows have the same key.
#[inline]
fn have_same_key(one: &Keyed, other: &Keyed) -> bool
    ensures { result ≡ same_text one.now.key other.now.key }
{
    one.prefix == other.prefix && one.row.key == other.row.key
}

/// Whether a row's version is that of another or higher.
#[inline]
fn is_as_new(one: &Keyed, other: &Keyed) -> bool
    ensures { result ≡ not (nat_lt one.now.version.0 other.now.version.0) }
{
    one.row.version.0 >= other.row.version.0
}

/// The rows of all parts, part after part.
fn gathered<'a>(
    alloc: Global,
    parts: &'a [SearchPart],
    region: RegionId,
    found: &'a Rows,
) -> Result<Vec<Keyed<'a>>, Memory>
    ensures { IfOk result (λ rows. rows.items ≡ flat_map rows_in (map (with_part region found.now) (map part_seen parts.now))) }
{
    let mut rows = Vec::new(alloc);
    rows.reserve_exact(count_rows(parts, region, found))?;
    for part in parts {
        add_rows(&mut rows, rows_of(part, region, found))?;
    }
    Ok(rows)
}

/// How many rows the parts have, up to the greatest number that there is.
fn count_rows(parts: &[SearchPart], region: RegionId, found: &Rows) -> usize {
    let mut count: usize = 0;
    for part in parts {
        count = count.saturating_add(rows_of(part, region, found).len());
    }
    count
}

/// The rows of a part, where the region has those that were found.
fn rows_of<'a>(part: &'a SearchPart, region: RegionId, found: &'a Rows) -> &'a [Shared<Row>]
    ensures { result.now ≡ rows_in (with_part region found.now (part_seen part.now)) }
{
    if part.region == region {
        return found.as_slice();
    }
    match &part.rows {
        Some(rows) => rows.as_slice(),
        None => &[],
    }
}

/// Further rows go to the end.
fn add_rows<'a>(rows: &mut Vec<Keyed<'a>>, others: &'a [Shared<Row>]) -> Result<(), Memory>
    ensures { OnOk result (rows.new.items ≡ rows.old.items ++ others.now) }
{
    for row in others {
        rows.push(Keyed::new(row))?;
    }
    Ok(())
}

/// Copies of rows in byte order of keys: of each key the one with the highest version, and of those
/// with that version the last.
fn picked(alloc: Global, sorted: &[Keyed]) -> Result<Rows, Memory>
    requires { IsSortedByKey row_key (slice_cmp nat_cmp) sorted.now }
    ensures { IfOk result (λ rows. rows ≡ rows_joined sorted.now []) }
{
    let Some((first, rest)) = sorted.split_first() else {
        return Ok(Rows::new(alloc));
    };
    let mut rows = Vec::new(alloc);
    rows.reserve_exact(sorted.len())?;
    let mut kept = first;
    for next in rest {
        if !have_same_key(next, kept) {
            rows.push(kept.row().copy(alloc)?)?;
            kept = next;
        } else if is_as_new(next, kept) {
            kept = next;
        }
    }
    rows.push(kept.row().copy(alloc)?)?;
    Rows::from_vec(alloc, rows)
}
