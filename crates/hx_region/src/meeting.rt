ghost use Rattle.std.specs.Prelude.{◌≡◌, ◌+◌, ◌*◌, ◌^◌, ◌<◌, ◌≤◌, ◌++◌, length, map, IfOk, OnOk};
ghost use Rattle.std.specs.List.{All, flat_map, list_all};
ghost use Rattle.hx_model.specs.Regions.{allows};
ghost use Rattle.hx_region.specs.Ranges.{AreThose, rows_from, rows_met};
ghost use Rattle.hx_types.specs.Spaces.{ArePart, IsSpace};
ghost use Rattle.hx_types.specs.Subspaces.{size_of};
ghost use Rattle.hx_types.specs.Words.{below};
ghost use Rattle.hx_types.specs.declared.limits.TheConstants.{MOST_PARTS, MOST_REGIONS};
ghost use Rattle.hx_model.specs.Types.{Axis};

use crate::cell;
use crate::cells::CellRange;
use crate::rows::{kind, number_cell};
use hx_rules::size;
use hx_types::{Axis, Memory, RegionId, RegionList, Space, Term};
use std::alloc::Global;

/// How many rows of cells of these axes meet the terms: one step for each axis and term.
pub fn count_meeting(space: &Space, axes: &[Axis], terms: &[Term]) -> u32
    requires space { IsSpace space.now }
    requires parts { All (λ (a : Axis). ArePart a.parts) axes.now }
    requires few { size_of axes.now ≤ MOST_REGIONS }
    ensures { result ≡ length (rows_met space.now terms.now axes.now) }
{
    let mut count = 1;
    for axis in axes {
        count *= allowed_cells(space, *axis, terms).count;
    }
    count
}

/// The rows of cells of these axes that meet the terms, in ascending order.
///
/// They are made of the cells that the terms allow on each axis, and no other row is looked at:
/// where an axis has no such cell, the axes after it aren't either.
pub fn rows_meeting(
    alloc: Global,
    space: &Space,
    axes: &[Axis],
    terms: &[Term],
) -> Result<Vec<u32>, Memory>
    requires space { IsSpace space.now }
    requires parts { All (λ (a : Axis). ArePart a.parts) axes.now }
    requires few { size_of axes.now ≤ MOST_REGIONS }
    ensures { IfOk result (λ rows. rows.items ≡ rows_met space.now terms.now axes.now) }
{
    let Some((axis, rest)) = axes.split_first() else {
        return Ok(vec![in alloc; 0]?);
    };
    let cells = allowed_cells(space, *axis, terms);
    if cells.count == 0 {
        return Ok(Vec::new(alloc));
    }
    let rows_of_rest = rows_meeting(alloc, space, rest, terms)?;
    let rows = rows_of_cells(alloc, cells, size(rest), &rows_of_rest)?;
    Ok(rows)
}

/// For each of the cells the rows of the axes after it, which have so many rows in all.
fn rows_of_cells(
    alloc: Global,
    cells: CellRange,
    size: u32,
    rows_of_rest: &Vec<u32>,
) -> Result<Vec<u32>, Memory>
    requires cells { cells.first + cells.count ≤ MOST_PARTS }
    requires few { (cells.first + cells.count) * size ≤ MOST_REGIONS }
    requires rows { All (λ row. row < size) rows_of_rest.now.items }
    ensures { IfOk result (λ rows. rows.items ≡ flat_map (λ place. rows_from size (cells.first + place) rows_of_rest.now.items) (below cells.count)) }
{
    let mut rows = Vec::new(alloc);
    for place in 0..cells.count {
        push_from(&mut rows, (cells.first + place) * size, rows_of_rest)?;
    }
    Ok(rows)
}

/// Adds the rows, each counted from the first one on.
fn push_from(all: &mut Vec<u32>, first: u32, rows: &Vec<u32>) -> Result<(), Memory>
    requires { All (λ row. first + row < 2 ^ 32) rows.now.items }
    ensures { OnOk result (all.new.items ≡ all.old.items ++ map (λ row. first + row) rows.now.items) }
{
    for row in rows {
        all.push(first + *row)?;
    }
    Ok(())
}

/// The regions of these rows, where the regions of their subspace are numbered on from the first.
pub fn regions_from(alloc: Global, first: u32, rows: &Vec<u32>) -> Result<RegionList, Memory>
    requires { All (λ row. first + row < 2 ^ 32) rows.now.items }
    ensures { IfOk result (λ regions. regions ≡ map (λ row. record { 0 = first + row }) rows.now.items) }
{
    let mut regions = RegionList::new(alloc);
    for row in rows {
        regions.push(RegionId(first + *row))?;
    }
    Ok(regions)
}

/// The cells of an axis that all terms allow, in one step for each term. Those that one term allows
/// are neighbours, so these are too.
fn allowed_cells(space: &Space, axis: Axis, terms: &[Term]) -> CellRange
    requires space { IsSpace space.now }
    requires parts { ArePart axis.parts }
    ensures { AreThose axis.parts (λ cell. list_all (allows space.now axis cell) terms.now) result }
{
    let mut cells = CellRange::whole(axis);
    for term in terms {
        cells = cells.common(cells_of(space, axis, term));
    }
    cells
}

/// The cells of an axis that a term allows; a term on another attribute allows every cell.
fn cells_of(space: &Space, axis: Axis, term: &Term) -> CellRange
    requires space { IsSpace space.now }
    requires parts { ArePart axis.parts }
    ensures { AreThose axis.parts (λ cell. allows space.now axis cell term.now) result }
{
    match term {
        Term::Equal { attribute, value } if *attribute == axis.attribute => {
            let place = cell(kind(space, *attribute), value, axis.parts);
            CellRange::one(axis, place)
        }
        Term::Range { attribute, lo, hi } if *attribute == axis.attribute => {
            let kind = kind(space, *attribute);
            let first = number_cell(kind, *lo, axis.parts);
            let last = number_cell(kind, *hi, axis.parts);
            CellRange::between(axis, first, last)
        }
        _ => CellRange::whole(axis),
    }
}
