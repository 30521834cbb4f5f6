ghost use Rattle.std.specs.Prelude.{◌≡◌, ◌↔◌, ◌++◌, ◌+ℤ◌, reverse, slice_get, IsTrue, Some};
ghost use Rattle.std.specs.List.{find};
ghost use Rattle.std.specs.Option.{option_copied, option_map};
ghost use Rattle.hx_legal.specs.Edited.{answer_of, edits_at, first_refused, refused, result_of, result_value, results_of};
ghost use Rattle.hx_legal.specs.Shown.{value_after};
ghost use Rattle.hx_types.specs.Effects.{added, appended, edit_of, edited_value, written};
ghost use Rattle.hx_types.specs.declared.values.Value.TheVariants as a_value;

use hx_types::{Answer, Edit, EditKind, LONGEST_TEXT, Object, Same, Text, Value};

/// Why an edit can't be made.
#[derive(Clone, Copy)]
pub enum Refusal {
    /// The sum is no number of 64 bits.
    Overflow,
    /// The text would have more bytes than a text may have.
    TooLong,
}

/// Whether the answer is that of the refusal.
pub fn is_refusal(answer: &Answer, refusal: Refusal) -> bool
    ensures { IsTrue result ↔ (answer.now ≡ answer_of refusal) }
{
    match refusal {
        Refusal::Overflow => matches!(answer, Answer::Overflow),
        Refusal::TooLong => matches!(answer, Answer::TooLong),
    }
}

/// Why the first of the edits that can't be made can't be.
pub fn first_refusal(before: &Object, edits: &[Edit]) -> Option<Refusal>
    ensures { option_map answer_of result ≡ first_refused before.now edits.now }
{
    for edit in edits {
        let refusal = edit_refusal(before, edit);
        if refusal.is_some() {
            return refusal;
        }
    }
    None
}

fn edit_refusal(before: &Object, edit: &Edit) -> Option<Refusal>
    ensures { option_map answer_of result ≡ refused (edit_of before.now edit.now) }
{
    match before.get((edit.attribute as usize).saturating_sub(1)) {
        Some(old) => value_refusal(edit.what, old, &edit.value),
        None => None,
    }
}

fn value_refusal(what: EditKind, old: &Value, by: &Value) -> Option<Refusal>
    ensures { option_map answer_of result ≡ refused (edited_value what old.now by.now) }
{
    match (what, old, by) {
        (EditKind::Add, Value::Int(old), Value::Int(by)) => sum_refusal(*old, *by),
        (EditKind::Append, Value::Text(old), Value::Text(by)) => length_refusal(old, by),
        _ => None,
    }
}

#[tactic(auto, using(hx_rules::proofs::Sums::added_fits, hx_rules::proofs::Sums::added_overflows))]
fn sum_refusal(old: i64, by: i64) -> Option<Refusal>
    ensures { option_map answer_of result ≡ refused (added old by) }
{
    match old.checked_add(by) {
        Some(_) => None,
        None => Some(Refusal::Overflow),
    }
}

fn length_refusal(old: &Text, by: &Text) -> Option<Refusal>
    ensures { option_map answer_of result ≡ refused (appended old.now by.now) }
{
    if old.len() > LONGEST_TEXT || by.len() > LONGEST_TEXT - old.len() {
        Some(Refusal::TooLong)
    } else {
        None
    }
}

/// Whether the object after is the one before with the results of all edits, each of them an edit
/// of the value before.
pub fn is_edited(before: &Object, edits: &[Edit], after: Option<&Object>) -> bool
    ensures { IsTrue result ↔ (option_copied after.entry ≡ Some (written before.now (results_of before.now edits.now))) }
{
    match after {
        Some(object) => has_results(before, edits, object.as_slice()),
        None => false,
    }
}

fn has_results(before: &Object, edits: &[Edit], values: &[Value]) -> bool
    ensures { IsTrue result ↔ (values.now ≡ written before.now (results_of before.now edits.now)) }
{
    if values.len() != before.len() {
        return false;
    }
    for (place, value) in values.iter().enumerate() {
        if !has_result(before, edits, place, value) {
            return false;
        }
    }
    true
}

/// Whether the value stands at the place after the edits: the last one of the place makes it, or,
/// where there is none, it stood there before.
#[tactic(auto, using(crate::proofs::Edited::value_after_edits))]
fn has_result(before: &Object, edits: &[Edit], place: usize, value: &Value) -> bool
    ensures { IsTrue result ↔ (value_after before.now (results_of before.now edits.now) place ≡ Some value.now) }
{
    match last_edit(edits, place) {
        Some(edit) => is_result(before, edit, value),
        None => had_value(before, place, value),
    }
}

/// The last edit of the value at the place.
fn last_edit(edits: &[Edit], place: usize) -> Option<&Edit>
    ensures { option_copied result ≡ find (edits_at place) (reverse edits.now) }
{
    edits.iter().rev().find(|edit| (edit.attribute as usize).saturating_sub(1) == place)
}

fn had_value(before: &Object, place: usize, value: &Value) -> bool
    ensures { IsTrue result ↔ (slice_get before.now place ≡ Some value.now) }
{
    match before.get(place) {
        Some(old) => old.same(value),
        None => false,
    }
}

/// Whether the edit makes the value; an attribute that the object doesn't have has the edit's own.
fn is_result(before: &Object, edit: &Edit, value: &Value) -> bool
    ensures { IsTrue result ↔ (result_of before.now edit.now ≡ value.now) }
{
    match before.get((edit.attribute as usize).saturating_sub(1)) {
        Some(old) => is_result_value(edit.what, old, &edit.value, value),
        None => edit.value.same(value),
    }
}

fn is_result_value(what: EditKind, old: &Value, by: &Value, value: &Value) -> bool
    ensures { IsTrue result ↔ (result_value what old.now by.now ≡ value.now) }
{
    match (what, old, by) {
        (EditKind::Add, Value::Int(old), Value::Int(by)) => is_sum(*old, *by, value),
        (EditKind::Append, Value::Text(old), Value::Text(by)) => is_joined(old, by, value),
        (EditKind::Min, Value::Int(old), Value::Int(by)) => {
            is_number(if *old <= *by { *old } else { *by }, value)
        }
        (EditKind::Max, Value::Int(old), Value::Int(by)) => {
            is_number(if *old <= *by { *by } else { *old }, value)
        }
        _ => old.same(value),
    }
}

fn is_number(number: i64, value: &Value) -> bool
    ensures { IsTrue result ↔ (a_value.Int number ≡ value.now) }
{
    match value {
        Value::Int(other) => number == *other,
        Value::Text(_) => false,
    }
}

fn is_sum(old: i64, by: i64, value: &Value) -> bool
    ensures { IsTrue result ↔ (a_value.Int (old +ℤ by) ≡ value.now) }
{
    match value {
        Value::Int(sum) => {
            let sum = *sum;
            match old.checked_add(by) {
                Some(number) => number == sum,
                None => false,
            }
        }
        Value::Text(_) => false,
    }
}

fn is_joined(old: &Text, by: &Text, value: &Value) -> bool
    ensures { IsTrue result ↔ (a_value.Text (old.now ++ by.now) ≡ value.now) }
{
    match value {
        Value::Text(text) => are_parts(old.as_bytes(), by.as_bytes(), text.as_bytes()),
        Value::Int(_) => false,
    }
}

/// Whether the bytes are the first ones followed by the others.
#[tactic(auto, using(crate::proofs::Edited::from_parts, crate::proofs::Edited::first_part, crate::proofs::Edited::other_part))]
fn are_parts(first: &[u8], other: &[u8], bytes: &[u8]) -> bool
    ensures { IsTrue result ↔ (first.now ++ other.now ≡ bytes.now) }
{
    match bytes.split_at_checked(first.len()) {
        Some((start, end)) => are_same(start, first) && are_same(end, other),
        None => false,
    }
}

fn are_same(left: &[u8], right: &[u8]) -> bool
    ensures { IsTrue result ↔ (left.now ≡ right.now) }
{
    left == right
}
