ghost use Rattle.std.specs.Prelude.{◌≡◌, ◌<◌, ◌≤◌};
ghost use Rattle.std.specs.List.{All, list_all};
ghost use Rattle.hx_model.specs.Cells.{cell_of};
ghost use Rattle.hx_model.specs.Regions.{allows, axis_cell, row_meets, row_number};
ghost use Rattle.hx_types.specs.Spaces.{ArePart, IsKind, IsSpace};
ghost use Rattle.hx_types.specs.Subspaces.{kind_at, size_of};
ghost use Rattle.hx_model.specs.Types.{Axis};
ghost use Rattle.hx_types.specs.declared.limits.TheConstants.{MOST_REGIONS};
ghost use Rattle.hx_types.specs.declared.values.Value.TheVariants as a_value;

use crate::{cell, int_cell, text_cell};
use hx_types::{Axis, Kind, Object, Space, Term, Text};

/// The cells of a key and object on these axes, read as a number of mixed radix, the first axis
/// slowest.
pub fn row(space: &Space, axes: &[Axis], key: &Text, object: &Object) -> u32
    requires space { IsSpace space.now }
    requires parts { All (λ (a : Axis). ArePart a.parts) axes.now }
    requires few { size_of axes.now ≤ MOST_REGIONS }
    ensures exact { result ≡ row_number space.now key.now object.now 0 axes.now }
    ensures within { result < size_of axes.now }
{
    let mut row = 0;
    for axis in axes {
        row = row * axis.parts + cell_on(space, *axis, key, object);
    }
    row
}

/// The cell of a key and object on an axis: 0 where they have no value for it.
fn cell_on(space: &Space, axis: Axis, key: &Text, object: &Object) -> u32
    requires space { IsSpace space.now }
    requires parts { ArePart axis.parts }
    ensures exact { result ≡ axis_cell space.now key.now object.now axis }
    ensures within { result < axis.parts }
{
    if axis.attribute == 0 {
        return text_cell(key.as_bytes(), axis.parts);
    }
    match object.get(axis.attribute as usize - 1) {
        Some(value) => cell(kind(space, axis.attribute), value, axis.parts),
        None => 0,
    }
}

/// The kind of an attribute: text for the key and for one that isn't declared.
pub fn kind(space: &Space, attribute: u32) -> Kind
    requires { IsSpace space.now }
    ensures exact { result ≡ kind_at space.now attribute }
    ensures sound { IsKind result }
{
    if attribute == 0 {
        return Kind::Text;
    }
    match space.attributes.get(attribute as usize - 1) {
        Some(declared) => declared.kind,
        None => Kind::Text,
    }
}

/// Whether on each axis the cell of this row is allowed by all terms; the axes have so many
/// regions.
pub fn row_meets(space: &Space, axes: &[Axis], row: u32, regions: u32, terms: &[Term]) -> bool
    requires space { IsSpace space.now }
    requires parts { All (λ (a : Axis). ArePart a.parts) axes.now }
    requires regions { regions ≡ size_of axes.now }
    ensures { result ≡ row_meets space.now terms.now axes.now row }
{
    let mut row = row;
    let mut regions = regions;
    for axis in axes {
        regions /= axis.parts;
        if !all_allow(space, *axis, row / regions, terms) {
            return false;
        }
        row %= regions;
    }
    true
}

fn all_allow(space: &Space, axis: Axis, cell: u32, terms: &[Term]) -> bool
    requires space { IsSpace space.now }
    requires parts { ArePart axis.parts }
    ensures { result ≡ list_all (allows space.now axis cell) terms.now }
{
    terms.iter().all(|term| allows(space, axis, cell, term))
}

/// Whether a term allows a cell of an axis; a term on another attribute allows every cell.
fn allows(space: &Space, axis: Axis, place: u32, term: &Term) -> bool
    requires space { IsSpace space.now }
    requires parts { ArePart axis.parts }
    ensures { result ≡ allows space.now axis place term.now }
{
    match term {
        Term::Equal { attribute, value } => {
            *attribute != axis.attribute
                || place == cell(kind(space, *attribute), value, axis.parts)
        }
        Term::Range { attribute, lo, hi } => {
            let kind = kind(space, *attribute);
            *attribute != axis.attribute
                || number_cell(kind, *lo, axis.parts) <= place
                    && place <= number_cell(kind, *hi, axis.parts)
        }
    }
}

/// The cell of a whole number on an axis of an attribute of the kind.
pub fn number_cell(kind: Kind, number: i64, parts: u32) -> u32
    requires kind { IsKind kind }
    requires parts { ArePart parts }
    ensures exact { result ≡ cell_of kind (a_value.Int number) parts }
    ensures within { result < parts }
{
    match kind {
        Kind::Text => 0,
        Kind::Int { lo, hi } => int_cell(number, lo, hi, parts),
    }
}
