ghost use Rattle.std.specs.Prelude.{◌≡◌, ◌++◌, ◌+◌, ◌<◌, ◌≤◌, IfOk, OnOk, vec_capacity, vec_len};
ghost use Rattle.std.specs.List.{flat_map};
ghost use Rattle.hx_types.specs.Words.{list_of};
ghost use Rattle.hx_index.specs.Orders.{rows_at};

use hx_types::{Exact, Memory, Row, Rows, Shared};
use std::alloc::Global;

/// Further owners of the rows at these places, one after another. Room for all is made once.
pub fn rows_at(alloc: Global, rows: &[Option<Shared<Row>>], places: &[u32]) -> Result<Rows, Memory>
    ensures { IfOk result (λ found. found ≡ flat_map (λ i. list_of (rows_at rows.now i)) places.now) }
{
    let mut found = Vec::new(alloc);
    found.reserve_exact(places.len())?;
    for place in places {
        add_row_at(alloc, rows, *place, &mut found)?;
    }
    Rows::from_vec(alloc, found)
}

/// Adds the row at a place, if there is one. There is room, so it takes no memory: there is none
/// only where a count of owners is full.
fn add_row_at(
    alloc: Global,
    rows: &[Option<Shared<Row>>],
    place: u32,
    found: &mut Vec<Shared<Row>>,
) -> Result<(), Memory>
    requires { vec_len found.old < vec_capacity found.old }
    ensures more { OnOk result (found.new.items ≡ found.old.items ++ list_of (rows_at rows.now place)) }
    ensures one { vec_len found.new ≤ vec_len found.old + 1 }
    ensures capacity { vec_capacity found.new ≡ vec_capacity found.old }
{
    match rows.get(place as usize) {
        Some(row) => add_row(alloc, row, found),
        None => Ok(()),
    }
}

/// Adds a row, if it is there. There is room.
fn add_row(
    alloc: Global,
    row: &Option<Shared<Row>>,
    found: &mut Vec<Shared<Row>>,
) -> Result<(), Memory>
    requires { vec_len found.old < vec_capacity found.old }
    ensures more { OnOk result (found.new.items ≡ found.old.items ++ list_of row.now) }
    ensures one { vec_len found.new ≤ vec_len found.old + 1 }
    ensures capacity { vec_capacity found.new ≡ vec_capacity found.old }
{
    if let Some(row) = row {
        found.push_reserved(row.copy(alloc)?);
    }
    Ok(())
}
