ghost use Rattle.std.specs.Prelude.{◌≡◌};
ghost use Rattle.hx_types.specs.Effects.{same_value};
ghost use Rattle.hx_model.specs.Matching.{in_range, term_holds};
ghost use Rattle.hx_model.specs.Matching.{matches as all_hold};
ghost use Rattle.hx_types.specs.declared.values.Value.TheVariants as a_value;

use hx_types::{Object, Same, Term, Terms, Text, Value};

/// Whether every term holds of the key and the object; no term holds of every object.
///
/// An equality compares the value of its attribute, of which 0 is the key; a range holds of a
/// number from its lower to its upper end, both included. An attribute that the object doesn't
/// have meets no term. It takes no memory.
pub fn matches(terms: &Terms, key: &Text, object: &Object) -> bool
    ensures { result ≡ all_hold terms.now key.now object.now }
{
    terms.as_slice().iter().all(|term| holds(term, key, object))
}

fn holds(term: &Term, key: &Text, object: &Object) -> bool
    ensures { result ≡ term_holds key.now object.now term.now }
{
    match term {
        Term::Equal {
            attribute: 0,
            value,
        } => is_text(value, key),
        Term::Equal { attribute, value } => match object.get(*attribute as usize - 1) {
            Some(found) => value.same(found),
            None => false,
        },
        Term::Range { attribute: 0, .. } => false,
        Term::Range { attribute, lo, hi } => match object.get(*attribute as usize - 1) {
            Some(found) => lies_in(*lo, *hi, found),
            None => false,
        },
    }
}

fn is_text(value: &Value, key: &Text) -> bool
    ensures { result ≡ same_value value.now (a_value.Text key.now) }
{
    match value {
        Value::Text(text) => text.same(key),
        Value::Int(_) => false,
    }
}

fn lies_in(lo: i64, hi: i64, value: &Value) -> bool
    ensures { result ≡ in_range lo hi value.now }
{
    match value {
        Value::Text(_) => false,
        Value::Int(number) => lo <= *number && *number <= hi,
    }
}
