ghost use Rattle.std.specs.Prelude.{◌≡◌, Ok, IfOk, IfErr, ◌++◌};
ghost use Rattle.hx_types.specs.Effects.{added, appended, edit_of, edited_from, edited_value};
ghost use Rattle.hx_rules.specs.Editing.{Fails};

use crate::effects::put_at;
use hx_types::{Edit, EditKind, Exact, LONGEST_TEXT, Memory, Object, Text, Value};
use std::alloc::Global;

/// Why edits weren't made.
#[derive(Clone, Copy)]
pub enum EditError {
    /// There was no memory for the object.
    Memory,
    /// A sum is no number of 64 bits.
    Overflow,
    /// A text would have more bytes than a text may have.
    TooLong,
}

impl From<Memory> for EditError {
    ghost use Rattle.hx_rules.specs.declared.edits.EditError.TheVariants as an_error;

    ghost from_gives = { λ _ error. error ≡ an_error.Memory };

    fn from(_: Memory) -> Self {
        EditError::Memory
    }
}

/// The object with all results of the edits, which are tried in order on the values of the object
/// before. Each attribute is edited once, so none sees the result of another.
#[tactic(auto, using(crate::proofs::Failing::fails_here))]
pub fn edited(alloc: Global, before: &Object, edits: &[Edit]) -> Result<Object, EditError>
    ensures made { IfOk result (λ object. edited_from before.now before.now edits.now ≡ Ok object) }
    ensures fails { IfErr result (Fails (edited_from before.now before.now edits.now)) }
{
    let mut object = before.copy(alloc)?;
    for edit in edits {
        let value = edit_at(alloc, before, edit)?;
        put_at(
            &mut object,
            (edit.attribute as usize).saturating_sub(1),
            value,
        )?;
    }
    Ok(object)
}

/// What an edit makes of the object's value; an attribute that the object doesn't have has the
/// edit's own.
fn edit_at(alloc: Global, before: &Object, edit: &Edit) -> Result<Value, EditError>
    ensures made { IfOk result (λ value. edit_of before.now edit.now ≡ Ok value) }
    ensures fails { IfErr result (Fails (edit_of before.now edit.now)) }
{
    match before.get((edit.attribute as usize).saturating_sub(1)) {
        Some(old) => edited_value(alloc, edit.what, old, &edit.value),
        None => Ok(edit.value.copy(alloc)?),
    }
}

fn edited_value(alloc: Global, what: EditKind, old: &Value, by: &Value) -> Result<Value, EditError>
    ensures made { IfOk result (λ value. edited_value what old.now by.now ≡ Ok value) }
    ensures fails { IfErr result (Fails (edited_value what old.now by.now)) }
{
    match (what, old, by) {
        (EditKind::Add, Value::Int(old), Value::Int(by)) => added(*old, *by),
        (EditKind::Append, Value::Text(old), Value::Text(by)) => appended(alloc, old, by),
        (EditKind::Min, Value::Int(old), Value::Int(by)) => {
            Ok(Value::Int(if *old <= *by { *old } else { *by }))
        }
        (EditKind::Max, Value::Int(old), Value::Int(by)) => {
            Ok(Value::Int(if *old <= *by { *by } else { *old }))
        }
        _ => Ok(old.copy(alloc)?),
    }
}

#[tactic(auto, using(crate::proofs::Sums::added_fits, crate::proofs::Sums::added_overflows))]
fn added(old: i64, by: i64) -> Result<Value, EditError>
    ensures made { IfOk result (λ value. added old by ≡ Ok value) }
    ensures fails { IfErr result (Fails (added old by)) }
{
    match old.checked_add(by) {
        Some(sum) => Ok(Value::Int(sum)),
        None => Err(EditError::Overflow),
    }
}

fn appended(alloc: Global, old: &Text, by: &Text) -> Result<Value, EditError>
    ensures made { IfOk result (λ value. appended old.now by.now ≡ Ok value) }
    ensures fails { IfErr result (Fails (appended old.now by.now)) }
{
    if old.len() > LONGEST_TEXT || by.len() > LONGEST_TEXT - old.len() {
        return Err(EditError::TooLong);
    }
    Ok(Value::Text(joined(alloc, old, by)?))
}

/// One text followed by another.
fn joined(alloc: Global, old: &Text, by: &Text) -> Result<Text, Memory>
    ensures { IfOk result (λ text. text ≡ old.now ++ by.now) }
{
    let mut joined = String::from_str(alloc, old.as_str())?;
    joined.push_str(by.as_str())?;
    Text::from_string(joined)
}
