ghost use Rattle.std.specs.Prelude.{◌≡◌, ◌<◌, ◌≤◌, ◌+◌, ◌^◌, [], ◌∷◌, IfOk, IsSome, IsSomeAnd, IsTrue, OnOk, Some, insert, vec_capacity, vec_len};
ghost use Rattle.std.specs.List.{repeat};
ghost use Rattle.std.specs.List.Sorted.{IsStrictlySortedBy};
ghost use Rattle.hx_model.specs.Types.{Row};
ghost use Rattle.hx_index.specs.Invariant.{AreOrders, EachMoves, HaveRoom, HaveRoomFor, IsAdded, IsRemoved, IsReplaced, IsSplit, IsWidened, items_of, stands_before};
ghost use Rattle.hx_index.specs.Orders.{IsOrder, compare_at, key_of, rows_at, rows_with, rows_without, without};

use crate::comparing::{is_before, row_at};
use crate::staying::{has_key, stays};
use hx_types::{Memory, Row, Shared, insert_within};
use std::alloc::Global;

/// How many numbers stand before one, at which this row is, in the order of an attribute. It is a
/// loop of its own: in `partition_point` the test stays a call, which costs an index a quarter
/// more.
fn place_of(
    order: &[u32],
    rows: &[Option<Shared<Row>>],
    attribute: u32,
    id: u32,
    row: &Row,
) -> usize
    requires { IsStrictlySortedBy (compare_at (rows_with id (Some row.now) (rows_at rows.now)) attribute) order.now }
    ensures { IsSplit (stands_before (rows_with id (Some row.now) (rows_at rows.now)) attribute id) result order.now }
{
    let mut low = 0;
    let mut high = order.len();
    while low < high {
        let middle = low + (high - low) / 2;
        if is_before(rows, attribute, order[middle], id, row) {
            low = middle + 1;
        } else {
            high = middle;
        }
    }
    low
}

/// Puts the number of a row into the order of an attribute. There is room, so it takes no memory.
pub fn insert_number(order: &mut Vec<u32>, rows: &[Option<Shared<Row>>], attribute: u32, id: u32)
    requires others { IsOrder (rows_without id (rows_at rows.now)) attribute order.old.items }
    requires kept { IsSome (rows_at rows.now id) }
    requires room { vec_len order.old < vec_capacity order.old }
    ensures order { IsOrder (rows_at rows.now) attribute order.new.items }
    ensures others { order.old.items ≡ without id order.new.items }
    ensures len { vec_len order.new ≡ vec_len order.old + 1 }
    ensures capacity { vec_capacity order.old ≤ vec_capacity order.new }
{
    let Some(row) = row_at(rows, id) else {
        // The number is that of a row.
        unreachable!()
    };
    let place = place_of(order.as_slice(), rows, attribute, id, row);
    insert_within(order, place, id);
}

/// Takes a number, which stands by this row, out of the order of an attribute.
pub fn remove_number(
    order: &mut Vec<u32>,
    rows: &[Option<Shared<Row>>],
    attribute: u32,
    id: u32,
    row: &Row,
)
    requires order { IsOrder (rows_with id (Some row.now) (rows_at rows.now)) attribute order.old.items }
    ensures order { IsOrder (rows_without id (rows_at rows.now)) attribute order.new.items }
    ensures others { order.new.items ≡ without id order.old.items }
    ensures len { vec_len order.new + 1 ≡ vec_len order.old }
    ensures capacity { vec_capacity order.new ≡ vec_capacity order.old }
{
    let place = place_of(order.as_slice(), rows, attribute, id, row);
    let _ = order.remove(place);
}

/// A number, which stands by this old row in the order of an attribute, goes to the place of the
/// row that is there now. It stays where the value and the key are the same.
pub fn replace_number(
    order: &mut Vec<u32>,
    rows: &[Option<Shared<Row>>],
    attribute: u32,
    id: u32,
    old: &Row,
    keeps_key: bool,
)
    requires order { IsOrder (rows_with id (Some old.now) (rows_at rows.now)) attribute order.old.items }
    requires kept { IsSome (rows_at rows.now id) }
    requires key { IsTrue keeps_key → IsSomeAnd (rows_at rows.now id) (λ (r : Row). key_of r ≡ key_of old.now) }
    ensures order { IsOrder (rows_at rows.now) attribute order.new.items }
    ensures len { vec_len order.new ≡ vec_len order.old }
    ensures capacity { vec_capacity order.old ≤ vec_capacity order.new }
{
    if stays(rows, attribute, id, old, keeps_key) {
        return;
    }
    remove_number(order, rows, attribute, id, old);
    insert_number(order, rows, attribute, id);
}

/// Puts the number of a row into every order. There is room, so it takes no memory.
pub fn insert_everywhere(orders: &mut Vec<Vec<u32>>, rows: &[Option<Shared<Row>>], id: u32)
    requires others { AreOrders (rows_without id (rows_at rows.now)) orders.old.items }
    requires kept { IsSome (rows_at rows.now id) }
    requires room { HaveRoom orders.old.items }
    requires few { vec_len orders.old ≤ 2 ^ 32 }
    ensures { EachMoves (IsAdded (rows_at rows.now) id) orders.old.items orders.new.items }
{
    for attribute in 0..orders.len() {
        insert_number(&mut orders[attribute], rows, attribute as u32, id);
    }
}

/// Takes a number, which stands by this row, out of every order.
pub fn remove_everywhere(
    orders: &mut Vec<Vec<u32>>,
    rows: &[Option<Shared<Row>>],
    id: u32,
    row: &Row,
)
    requires orders { AreOrders (rows_with id (Some row.now) (rows_at rows.now)) orders.old.items }
    requires few { vec_len orders.old ≤ 2 ^ 32 }
    ensures { EachMoves (IsRemoved (rows_at rows.now) id) orders.old.items orders.new.items }
{
    for attribute in 0..orders.len() {
        remove_number(&mut orders[attribute], rows, attribute as u32, id, row);
    }
}

/// A number, which stands by this old row, goes to the place of the row that is there now in every
/// order.
pub fn replace_everywhere(
    orders: &mut Vec<Vec<u32>>,
    rows: &[Option<Shared<Row>>],
    id: u32,
    old: &Row,
)
    requires orders { AreOrders (rows_with id (Some old.now) (rows_at rows.now)) orders.old.items }
    requires kept { IsSome (rows_at rows.now id) }
    requires few { vec_len orders.old ≤ 2 ^ 32 }
    ensures { EachMoves (IsReplaced (rows_at rows.now)) orders.old.items orders.new.items }
{
    let keeps_key = has_key(rows, id, &old.key);
    for attribute in 0..orders.len() {
        replace_number(
            &mut orders[attribute],
            rows,
            attribute as u32,
            id,
            old,
            keeps_key,
        );
    }
}

/// Makes room in every order for so many numbers in all.
pub fn widen_everywhere(orders: &mut Vec<Vec<u32>>, n: u32) -> Result<(), Memory>
    ensures moved { EachMoves IsWidened orders.old.items orders.new.items }
    ensures room { OnOk result (HaveRoomFor n orders.new.items) }
{
    for attribute in 0..orders.len() {
        widen(&mut orders[attribute], n as usize)?;
    }
    Ok(())
}

/// Makes room for so many numbers in all.
fn widen(order: &mut Vec<u32>, n: usize) -> Result<(), Memory>
    ensures items { order.new.items ≡ order.old.items }
    ensures len { vec_len order.new ≡ vec_len order.old }
    ensures capacity { vec_capacity order.old ≤ vec_capacity order.new }
    ensures room { OnOk result (n ≤ vec_capacity order.new) }
{
    if order.len() < n {
        order.reserve(n - order.len())?;
    }
    Ok(())
}

/// So many empty orders.
pub fn empty_orders(alloc: Global, count: usize) -> Result<Vec<Vec<u32>>, Memory>
    ensures items { IfOk result (λ orders. items_of orders.items ≡ repeat count ([] ∷ [])) }
{
    let mut orders = Vec::new(alloc);
    for _ in 0..count {
        orders.push(Vec::new(alloc))?;
    }
    Ok(orders)
}
