ghost use Rattle.std.specs.Prelude.{◌≡◌, IsSomeAnd, IsTrue, Some};
ghost use Rattle.std.specs.Option.{option_cmp};
ghost use Rattle.std.specs.declared.cmp.Ordering.TheVariants.{Equal};
ghost use Rattle.hx_model.specs.Types.{Row};
ghost use Rattle.hx_index.specs.Orders.{compare_rows, key_of, rows_at};

use crate::comparing::{compare_found, row_at};
use hx_types::{Row, Same, Shared, Text};
use std::cmp::Ordering;

/// Whether the row at a number has this key.
pub fn has_key(rows: &[Option<Shared<Row>>], id: u32, key: &Text) -> bool
    ensures { IsTrue result → IsSomeAnd (rows_at rows.now id) (λ (r : Row). key_of r ≡ key.now) }
{
    match row_at(rows, id) {
        Some(row) => row.key.same(key),
        None => false,
    }
}

/// Whether the row at a number stands in the order of an attribute where the old one stood: the
/// value of the attribute is the same, and the key, of which that is known.
pub fn stays(
    rows: &[Option<Shared<Row>>],
    attribute: u32,
    id: u32,
    old: &Row,
    keeps_key: bool,
) -> bool
    requires { IsTrue keeps_key → IsSomeAnd (rows_at rows.now id) (λ (r : Row). key_of r ≡ key_of old.now) }
    ensures { IsTrue result → option_cmp (compare_rows attribute) (Some old.now) (rows_at rows.now id) ≡ Equal }
{
    match row_at(rows, id) {
        Some(row) => keeps_key && has_value_of(attribute, old, row),
        None => false,
    }
}

/// Whether an object has the value of an attribute above 0 that another one has. Of attribute 0,
/// the key, that is known.
fn has_value_of(attribute: u32, one: &Row, other: &Row) -> bool
    requires { key_of one.now ≡ key_of other.now }
    ensures { IsTrue result → compare_rows attribute one.now other.now ≡ Equal }
{
    if attribute == 0 {
        return true;
    }
    let number = attribute as usize - 1;
    match compare_found(one.object.get(number), other.object.get(number)) {
        Ordering::Equal => true,
        Ordering::Less | Ordering::Greater => false,
    }
}
