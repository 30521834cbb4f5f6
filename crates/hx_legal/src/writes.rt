ghost use Rattle.std.specs.Prelude.{◌≡◌, ◌↔◌, ◌<◌, length, reverse, slice_get, unwrap_or, IsTrue};
ghost use Rattle.std.specs.List.{find};
ghost use Rattle.std.specs.Option.{option_copied};
ghost use Rattle.hx_legal.specs.Shown.{value_after, writes_at};
ghost use Rattle.hx_types.specs.Effects.{default_of, defaults, written};

use hx_types::{Assign, Kind, Object, Same, Space, Value};

/// Whether the object after a write is the one before it, or the object of defaults, with the
/// values of the assignments written over.
pub fn is_written(
    space: &Space,
    before: Option<&Object>,
    sets: &[Assign],
    after: Option<&Object>,
) -> bool
    ensures { IsTrue result ↔ (option_copied after.entry ≡ Some (written (unwrap_or (option_copied before.entry) (defaults space.now)) sets.now)) }
{
    match after {
        Some(object) => has_written(space, before, sets, object.as_slice()),
        None => false,
    }
}

fn has_written(space: &Space, before: Option<&Object>, sets: &[Assign], values: &[Value]) -> bool
    ensures { IsTrue result ↔ (values.now ≡ written (unwrap_or (option_copied before.entry) (defaults space.now)) sets.now) }
{
    if values.len() != len_before(space, before) {
        return false;
    }
    for (place, value) in values.iter().enumerate() {
        if !has_value(space, before, sets, place, value) {
            return false;
        }
    }
    true
}

/// How many values the object before a write has, or the object of defaults.
fn len_before(space: &Space, before: Option<&Object>) -> usize
    ensures { result ≡ length (unwrap_or (option_copied before.entry) (defaults space.now)) }
{
    match before {
        Some(object) => object.len(),
        None => space.attributes.len(),
    }
}

/// Whether the value stands at the place after the assignments: the last one to the place has it,
/// or, where there is none, it stood there before.
fn has_value(
    space: &Space,
    before: Option<&Object>,
    sets: &[Assign],
    place: usize,
    value: &Value,
) -> bool
    ensures { IsTrue result ↔ (value_after (unwrap_or (option_copied before.entry) (defaults space.now)) sets.now place ≡ Some value.now) }
{
    match last_set(sets, place) {
        Some(set) => set.value.same(value),
        None => had_value(space, before, place, value),
    }
}

/// The last assignment to the place.
fn last_set(sets: &[Assign], place: usize) -> Option<&Assign>
    ensures { option_copied result ≡ find (writes_at place) (reverse sets.now) }
{
    sets.iter()
        .rev()
        .find(|set| (set.attribute as usize).saturating_sub(1) == place)
}

/// Whether the object before a write, or the object of defaults, has the value at the place.
fn had_value(space: &Space, before: Option<&Object>, place: usize, value: &Value) -> bool
    ensures { IsTrue result ↔ (slice_get (unwrap_or (option_copied before.entry) (defaults space.now)) place ≡ Some value.now) }
{
    match before {
        Some(object) => match object.get(place) {
            Some(old) => old.same(value),
            None => false,
        },
        None => match space.attributes.get(place) {
            Some(attribute) => is_default(attribute.kind, value),
            None => false,
        },
    }
}

/// Whether the value is the default of the kind: the empty text, or the least number.
fn is_default(kind: Kind, value: &Value) -> bool
    ensures { IsTrue result ↔ (default_of kind ≡ value.now) }
{
    match (kind, value) {
        (Kind::Text, Value::Text(text)) => text.is_empty(),
        (Kind::Int { lo, .. }, Value::Int(number)) => *number == lo,
        _ => false,
    }
}

/// Whether two objects are the same, or both are absent.
pub fn same_object(left: Option<&Object>, right: Option<&Object>) -> bool
    ensures { IsTrue result ↔ (option_copied left.entry ≡ option_copied right.entry) }
{
    match (left, right) {
        (Some(left), Some(right)) => left.same(right),
        (None, None) => true,
        _ => false,
    }
}
