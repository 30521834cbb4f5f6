ghost use Rattle.std.specs.Prelude.{◌≡◌, Some};
ghost use Rattle.std.specs.Option.{option_cmp, option_copied};
ghost use Rattle.std.specs.Ordering.{is_lt};
ghost use Rattle.hx_index.specs.Orders.{compare_at, compare_rows, compare_values, rows_at, rows_with};
ghost use Rattle.hx_index.specs.Sides.{side_in, side_of, side_of_value};

use crate::looking::Side;
use hx_types::{Row, Shared, Term, Value};
use std::cmp::Ordering;

/// Texts by bytes, then numbers by size.
fn compare_values(one: &Value, other: &Value) -> Ordering
    ensures { result ≡ compare_values one.now other.now }
{
    match (one, other) {
        (Value::Text(one), Value::Text(other)) => one.cmp(other),
        (Value::Text(_), Value::Int(_)) => Ordering::Less,
        (Value::Int(_), Value::Text(_)) => Ordering::Greater,
        (Value::Int(one), Value::Int(other)) => one.cmp(other),
    }
}

/// The missing value first.
pub fn compare_found(one: Option<&Value>, other: Option<&Value>) -> Ordering
    ensures { result ≡ option_cmp compare_values (option_copied one.entry) (option_copied other.entry) }
{
    match (one, other) {
        (None, None) => Ordering::Equal,
        (None, Some(_)) => Ordering::Less,
        (Some(_), None) => Ordering::Greater,
        (Some(one), Some(other)) => compare_values(one, other),
    }
}

/// Rows by an attribute, then by their keys.
fn compare_rows(attribute: u32, one: &Row, other: &Row) -> Ordering
    ensures { result ≡ compare_rows attribute one.now other.now }
{
    if attribute == 0 {
        return one.key.cmp(&other.key);
    }
    let number = attribute as usize - 1;
    match compare_found(one.object.get(number), other.object.get(number)) {
        Ordering::Less => Ordering::Less,
        Ordering::Equal => one.key.cmp(&other.key),
        Ordering::Greater => Ordering::Greater,
    }
}

/// The row at a number.
pub fn row_at(rows: &[Option<Shared<Row>>], id: u32) -> Option<&Row>
    ensures { option_copied result ≡ rows_at rows.now id }
{
    match rows.get(id as usize) {
        Some(Some(row)) => Some(row.get()),
        _ => None,
    }
}

/// Whether a number stands before another, at which this row is, in the order of an attribute.
pub fn is_before(
    rows: &[Option<Shared<Row>>],
    attribute: u32,
    one: u32,
    other: u32,
    row: &Row,
) -> bool
    ensures { result ≡ is_lt (compare_at (rows_with other (Some row.now) (rows_at rows.now)) attribute one other) }
{
    if one == other {
        return false;
    }
    let Some(found) = row_at(rows, one) else {
        return true;
    };
    match compare_rows(attribute, found, row) {
        Ordering::Less => true,
        Ordering::Equal => one < other,
        Ordering::Greater => false,
    }
}

/// On which side of the values that meet a term a value lies; a missing one lies below.
pub fn side_of(term: &Term, found: Option<&Value>) -> Side
    ensures { result ≡ side_of term.now (option_copied found.entry) }
{
    match found {
        Some(found) => side_of_value(term, found),
        None => Side::Below,
    }
}

fn side_of_value(term: &Term, found: &Value) -> Side
    ensures { result ≡ side_of_value term.now found.now }
{
    match term {
        Term::Equal { value, .. } => match compare_values(found, value) {
            Ordering::Less => Side::Below,
            Ordering::Equal => Side::Meets,
            Ordering::Greater => Side::Above,
        },
        Term::Range { lo, hi, .. } => side_of_range(*lo, *hi, found),
    }
}

fn side_of_range(lo: i64, hi: i64, found: &Value) -> Side
    ensures { result ≡ side_in lo hi found.now }
{
    match found {
        Value::Text(_) => Side::Below,
        Value::Int(number) if *number < lo => Side::Below,
        Value::Int(number) if *number <= hi => Side::Meets,
        Value::Int(_) => Side::Above,
    }
}
