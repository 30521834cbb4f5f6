ghost use Rattle.std.specs.Prelude.{◌≡◌, ◌↔◌, unwrap_or, IsTrue};
ghost use Rattle.std.specs.Option.{option_copied};
ghost use Rattle.hx_legal.specs.Shown.{Shows};
ghost use Rattle.hx_model.specs.Legal.{IsEffect};
ghost use Rattle.hx_types.specs.Effects.{changed_to, defaults, deleted, edited, got, left_as, put_where, tests_hold, written};

use crate::edits::{first_refusal, is_edited, is_refusal};
use crate::writes::{is_written, same_object};
use hx_rules::tests_hold;
use hx_types::{Answer, Assign, Edit, Item, Object, Op, Same, Space};

/// Whether the item has the answer and the object of its operation's effect on the object before
/// it.
pub fn is_effect(space: &Space, before: Option<&Object>, item: &Item) -> bool
    ensures { IsTrue result ↔ IsEffect space.now (option_copied before.entry) item.now }
{
    match &item.op {
        Op::Put { sets, .. } => is_put(space, before, sets.as_slice(), item),
        Op::Get { .. } => is_get(before, item),
        Op::Del { .. } => is_del(before, item),
        Op::Cput { tests, sets, .. } => {
            is_cput(space, before, tests.as_slice(), sets.as_slice(), item)
        }
        Op::Atomic { edits, .. } => is_atomic(before, edits.as_slice(), item),
        Op::Search { .. } | Op::Stop { .. } | Op::Add { .. } => is_not_found(before, item),
    }
}

fn is_put(space: &Space, before: Option<&Object>, sets: &[Assign], item: &Item) -> bool
    ensures { IsTrue result ↔ Shows (changed_to (Some (written (unwrap_or (option_copied before.entry) (defaults space.now)) sets.now))) item.now }
{
    is_done(&item.answer) && is_written(space, before, sets, item.object.as_ref())
}

fn is_get(before: Option<&Object>, item: &Item) -> bool
    ensures { IsTrue result ↔ Shows (got (option_copied before.entry)) item.now }
{
    match before {
        Some(object) => {
            is_found(&item.answer, object) && same_object(item.object.as_ref(), before)
        }
        None => is_not_found(before, item),
    }
}

fn is_del(before: Option<&Object>, item: &Item) -> bool
    ensures { IsTrue result ↔ Shows (deleted (option_copied before.entry)) item.now }
{
    match before {
        Some(_) => is_done(&item.answer) && item.object.is_none(),
        None => is_not_found(before, item),
    }
}

fn is_cput(
    space: &Space,
    before: Option<&Object>,
    tests: &[Assign],
    sets: &[Assign],
    item: &Item,
) -> bool
    ensures { IsTrue result ↔ Shows (put_where (option_copied before.entry) tests.now sets.now) item.now }
{
    let Some(object) = before else {
        return is_not_found(before, item);
    };
    if tests_hold(object, tests) {
        is_put(space, before, sets, item)
    } else {
        is_failed(&item.answer) && same_object(item.object.as_ref(), before)
    }
}

#[tactic(auto, using(crate::proofs::Edited::edited_refused, crate::proofs::Edited::edited_made))]
fn is_atomic(before: Option<&Object>, edits: &[Edit], item: &Item) -> bool
    ensures { IsTrue result ↔ Shows (edited (option_copied before.entry) edits.now) item.now }
{
    let Some(object) = before else {
        return is_not_found(before, item);
    };
    match first_refusal(object, edits) {
        Some(refusal) => {
            is_refusal(&item.answer, refusal) && same_object(item.object.as_ref(), before)
        }
        None => is_done(&item.answer) && is_edited(object, edits, item.object.as_ref()),
    }
}

/// Whether the item is answered that there is no object, and has the object before it.
fn is_not_found(before: Option<&Object>, item: &Item) -> bool
    ensures { IsTrue result ↔ Shows (left_as (option_copied before.entry) Answer.NotFound) item.now }
{
    matches!(item.answer, Answer::NotFound) && same_object(item.object.as_ref(), before)
}

fn is_done(answer: &Answer) -> bool
    ensures { IsTrue result ↔ (answer.now ≡ Answer.Done) }
{
    matches!(answer, Answer::Done)
}

fn is_failed(answer: &Answer) -> bool
    ensures { IsTrue result ↔ (answer.now ≡ Answer.CmpFail) }
{
    matches!(answer, Answer::CmpFail)
}

fn is_found(answer: &Answer, object: &Object) -> bool
    ensures { IsTrue result ↔ (answer.now ≡ Answer.Found object.now) }
{
    match answer {
        Answer::Found(found) => found.same(object),
        _ => false,
    }
}
