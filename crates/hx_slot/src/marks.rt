ghost use Rattle.std.specs.Prelude.{◌≡◌, ◌+◌, ◌<◌, ◌≤◌, None, IfOk, Some, vec_capacity, vec_len};
ghost use Rattle.std.specs.Option.{option_copied, option_map};
ghost use Rattle.hx_model.specs.Slots.{mark_among, mark_by, with_mark};
ghost use Rattle.hx_types.specs.Words.{provided};
ghost use Rattle.hx_slot.specs.States.{call_at, call_seen};
ghost use Rattle.hx_slot.specs.MarksAndTouches.{marks_over, newer_of, newest_over, newest_with};

use crate::rooms::copy_all;
use crate::updates::AcceptedUpdate;
use hx_types::{Answer, Exact, Mark, Marks, Memory, SessionId, Update, Version, insert_within};
use std::alloc::Global;

/// The update of the session's newest call among these: of the highest call number, and of equal
/// ones the last.
pub fn newest_of(line: &[AcceptedUpdate], session: SessionId) -> Option<&Update>
    ensures { option_map mark_by (option_copied result) ≡ newest_over session None line.now }
{
    let mut newest: Option<&Update> = None;
    for taken in line {
        newest = newer_call(newest, taken.update.get(), session);
    }
    newest
}

/// The later of two updates, where it is of the session and its call number isn't lower.
fn newer_call<'a>(
    newest: Option<&'a Update>,
    update: &'a Update,
    session: SessionId,
) -> Option<&'a Update>
    ensures { option_map mark_by (option_copied result) ≡ newest_with session (mark_by update.now) (option_map mark_by (option_copied newest.entry)) }
{
    if update.caller.session != session {
        return newest;
    }
    match newest {
        Some(known) if update.caller.number < known.caller.number => Some(known),
        _ => Some(update),
    }
}

/// The mark of the session.
pub fn mark_of(marks: &[Mark], session: SessionId) -> Option<&Mark>
    ensures { option_copied result ≡ mark_among session marks.now }
{
    for mark in marks {
        if mark.session == session {
            return Some(mark);
        }
    }
    None
}

/// The call of an update and that of an older mark: of two, that of the update, unless the mark
/// has a higher call number.
pub fn newer<'a>(
    update: Option<&'a Update>,
    mark: Option<&'a Mark>,
) -> Option<(u32, Version, &'a Answer)>
    ensures { call_seen result ≡ call_at (newer_of (option_map mark_by (option_copied update.entry)) (option_copied mark.entry)) }
{
    match (update, mark) {
        (Some(update), Some(mark)) if update.caller.number >= mark.number => Some(call_of(update)),
        (Some(update), None) => Some(call_of(update)),
        (_, Some(mark)) => Some((mark.number, mark.version, &mark.answer)),
        (None, None) => None,
    }
}

fn call_of(update: &Update) -> (u32, Version, &Answer)
    ensures { call_seen (Some result) ≡ call_at (Some (mark_by update.now)) }
{
    (update.caller.number, update.version, &update.answer)
}

/// The marks after these updates, from those before them; none where marks aren't kept.
pub fn marks_over(
    alloc: Global,
    kept: bool,
    base: &Vec<Mark>,
    line: &[AcceptedUpdate],
) -> Result<Marks, Memory>
    ensures { IfOk result (λ marks. marks ≡ provided kept (marks_over base.now.items line.now)) }
{
    if !kept {
        return Ok(Marks::new(alloc));
    }
    let mut marks = copy_all(base)?;
    for taken in line {
        marks.reserve(1)?;
        put_mark(&mut marks, mark_by(alloc, &taken.update)?);
    }
    Ok(Marks::from_vec(marks))
}

/// The mark of an update's call.
pub fn mark_by(alloc: Global, update: &Update) -> Result<Mark, Memory>
    ensures { IfOk result (λ mark. mark ≡ mark_by update.now) }
{
    Ok(Mark {
        session: update.caller.session,
        number: update.caller.number,
        version: update.version,
        answer: update.answer.copy(alloc)?,
    })
}

/// Puts a mark where its session's stands, unless that one has a higher call number. There is room
/// for a mark more.
pub fn put_mark(marks: &mut Vec<Mark>, mark: Mark)
    requires room { vec_len marks.old < vec_capacity marks.old }
    ensures items { marks.new.items ≡ with_mark mark marks.old.items }
    ensures len { vec_len marks.new ≤ vec_len marks.old + 1 }
    ensures capacity { vec_capacity marks.old ≤ vec_capacity marks.new }
{
    for place in 0..marks.len() {
        let known = marks[place].session;
        if mark.session.0 < known.0 {
            insert_within(marks, place, mark);
            return;
        }
        if mark.session.0 == known.0 {
            if mark.number >= marks[place].number {
                marks[place] = mark;
            }
            return;
        }
    }
    marks.push_reserved(mark);
}
