ghost use Rattle.std.specs.Prelude.{◌≡◌, OnOk, IfOk, unwrap_or, slice_set};
ghost use Rattle.std.specs.Option.{option_copied};
ghost use Rattle.hx_types.specs.Effects.{changed_to, default_of, defaults, deleted, edited, effect_of, got, left_as, put_where, test_holds, tests_hold, written};

use crate::edits::{EditError, edited};
use hx_types::{
    Answer, Assign, Edit, Effect, Exact, Kind, Memory, Object, Op, Same, Space, Text, Value,
};
use std::alloc::Global;

/// The object after an operation on a key, its answer, and whether it changes.
///
/// A put writes its values over the old object, or over the defaults where there is none; a get and
/// a failed test leave the object; a del removes it. An atomic operation makes all its edits of the
/// object that is there; where one has no result the object stays, and the answer is that of the
/// first such edit, [`Answer::Overflow`] or [`Answer::TooLong`]. An operation that isn't on a key
/// leaves the object and answers [`Answer::NotFound`], as one on an absent object does that needs
/// one.
///
/// The operations are HyperDex's; the defaults (the empty text, the least number) are this
/// project's choice, and so is that one edit without a result refuses all edits of its operation.
///
/// # Errors
///
/// [`Memory`] alone.
pub fn effect(alloc: Global, space: &Space, old: Option<&Object>, op: &Op) -> Result<Effect, Memory>
    ensures { IfOk result (λ effect. effect ≡ effect_of space.now (option_copied old.entry) op.now) }
{
    match op {
        Op::Put { sets, .. } => put(alloc, space, old, sets.as_slice()),
        Op::Get { .. } => get(alloc, old),
        Op::Del { .. } => del(old),
        Op::Cput { tests, sets, .. } => put_if(alloc, old, tests.as_slice(), sets.as_slice()),
        Op::Atomic { edits, .. } => edit(alloc, old, edits.as_slice()),
        Op::Search { .. } | Op::Stop { .. } | Op::Add { .. } => left(alloc, old, Answer::NotFound),
    }
}

fn put(
    alloc: Global,
    space: &Space,
    old: Option<&Object>,
    sets: &[Assign],
) -> Result<Effect, Memory>
    ensures { IfOk result (λ effect. effect ≡ changed_to (Some (written (unwrap_or (option_copied old.entry) (defaults space.now)) sets.now))) }
{
    let mut object = match old {
        Some(object) => object.copy(alloc)?,
        None => default_object(alloc, space)?,
    };
    write_over(alloc, &mut object, sets)?;
    Ok(changed(Some(object)))
}

fn get(alloc: Global, old: Option<&Object>) -> Result<Effect, Memory>
    ensures { IfOk result (λ effect. effect ≡ got (option_copied old.entry)) }
{
    match old {
        Some(object) => {
            let found = Answer::Found(object.copy(alloc)?);
            left(alloc, old, found)
        }
        None => left(alloc, old, Answer::NotFound),
    }
}

fn del(old: Option<&Object>) -> Result<Effect, Memory>
    ensures { IfOk result (λ effect. effect ≡ deleted (option_copied old.entry)) }
{
    match old {
        Some(_) => Ok(changed(None)),
        None => Ok(Effect {
            object: None,
            answer: Answer::NotFound,
            changes: false,
        }),
    }
}

fn put_if(
    alloc: Global,
    old: Option<&Object>,
    tests: &[Assign],
    sets: &[Assign],
) -> Result<Effect, Memory>
    ensures { IfOk result (λ effect. effect ≡ put_where (option_copied old.entry) tests.now sets.now) }
{
    let Some(before) = old else {
        return left(alloc, old, Answer::NotFound);
    };
    if !tests_hold(before, tests) {
        return left(alloc, old, Answer::CmpFail);
    }
    let mut object = before.copy(alloc)?;
    write_over(alloc, &mut object, sets)?;
    Ok(changed(Some(object)))
}

fn edit(alloc: Global, old: Option<&Object>, edits: &[Edit]) -> Result<Effect, Memory>
    ensures { IfOk result (λ effect. effect ≡ edited (option_copied old.entry) edits.now) }
{
    let Some(before) = old else {
        return left(alloc, old, Answer::NotFound);
    };
    match edited(alloc, before, edits) {
        Ok(object) => Ok(changed(Some(object))),
        Err(EditError::Memory) => Err(Memory),
        Err(EditError::Overflow) => left(alloc, old, Answer::Overflow),
        Err(EditError::TooLong) => left(alloc, old, Answer::TooLong),
    }
}

fn changed(object: Option<Object>) -> Effect
    ensures { result ≡ changed_to object }
{
    Effect {
        object,
        answer: Answer::Done,
        changes: true,
    }
}

fn left(alloc: Global, old: Option<&Object>, answer: Answer) -> Result<Effect, Memory>
    ensures { IfOk result (λ effect. effect ≡ left_as (option_copied old.entry) answer) }
{
    let object = match old {
        Some(object) => Some(object.copy(alloc)?),
        None => None,
    };
    Ok(Effect {
        object,
        answer,
        changes: false,
    })
}

fn default_object(alloc: Global, space: &Space) -> Result<Object, Memory>
    ensures { IfOk result (λ object. object ≡ defaults space.now) }
{
    let mut values = Vec::with_capacity(alloc, space.attributes.len())?;
    for attribute in &space.attributes {
        values.push(default_value(alloc, attribute.kind))?;
    }
    Object::from_vec(alloc, values)
}

fn default_value(alloc: Global, kind: Kind) -> Value
    ensures { result ≡ default_of kind }
{
    match kind {
        Kind::Text => Value::Text(Text::new(alloc)),
        Kind::Int { lo, .. } => Value::Int(lo),
    }
}

/// Writes each value over that of its attribute.
#[tactic(auto, using(crate::proofs::Writing::nothing_set))]
fn write_over(alloc: Global, object: &mut Object, sets: &[Assign]) -> Result<(), Memory>
    ensures { OnOk result (object.new ≡ written object.old sets.now) }
{
    for set in sets {
        let place = (set.attribute as usize).saturating_sub(1);
        let value = set.value.copy(alloc)?;
        put_at(object, place, value)?;
    }
    Ok(())
}

/// Writes a value at a place, where the object has that place.
#[tactic(auto, using(crate::proofs::Writing::nothing_set))]
pub fn put_at(object: &mut Object, place: usize, value: Value) -> Result<(), Memory>
    ensures { OnOk result (object.new ≡ slice_set object.old place value) }
{
    if place < object.len() {
        object.set(place, value)?;
    }
    Ok(())
}

/// Whether each tested attribute has the tested value.
pub fn tests_hold(object: &Object, tests: &[Assign]) -> bool
    ensures { result ≡ tests_hold object.now tests.now }
{
    tests.iter().all(|test| holds(object, test))
}

fn holds(object: &Object, test: &Assign) -> bool
    ensures { result ≡ test_holds object.now test.now }
{
    match object.get((test.attribute as usize).saturating_sub(1)) {
        Some(value) => test.value.same(value),
        None => false,
    }
}
