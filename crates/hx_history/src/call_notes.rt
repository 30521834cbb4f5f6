ghost use Rattle.std.specs.Prelude.{◌≡◌, ◌+◌, ◌<◌, ◌⊎◌, ℕ, map, length, replicate, reverse, IfNone, IfSome, IfOk};
ghost use Rattle.std.specs.Option.{option_map};
ghost use Rattle.hx_types.specs.Fitting.{call_of, numbered};
ghost use Rattle.hx_trace.specs.Entries.{entry_seen};
ghost use Rattle.hx_history.specs.Calls.{after_entry, after_note, after_notes, no_notes, notes_of, shape, span_in, span_of};

use hx_trace::{EntryRef, Trace};
use hx_types::{Actor, Answer, Caller, Calls, Memory, Note, Script, SessionId, Version};
use std::alloc::Global;

/// The begin of a call.
#[derive(Clone, Copy)]
pub struct Begin {
    pub caller: Caller,
    pub entry: u64,
}

/// The end of a call, a doubt among them.
#[derive(Clone, Copy)]
pub struct End<'a> {
    pub entry: u64,
    pub version: Version,
    pub answer: &'a Answer,
}

/// What the notes say of one call.
#[derive(Clone, Copy)]
pub struct CallNotes<'a> {
    pub begin: Option<Begin>,
    pub end: Option<End<'a>>,
}

/// What the notes say of each call of a session, by number.
pub type SessionNotes<'a> = Vec<CallNotes<'a>>;

/// What nothing says yet of each call of a session.
fn empty_row<'a>(alloc: Global, calls: &Calls) -> Result<SessionNotes<'a>, Memory>
    ensures { IfOk result (λ row. row.items ≡ replicate (length calls.now) no_notes) }
{
    let none = CallNotes {
        begin: None,
        end: None,
    };
    let row = vec![in alloc; none; calls.len()]?;
    Ok(row)
}

/// A row for each session.
pub fn empty_table<'a>(alloc: Global, script: &Script) -> Result<Vec<SessionNotes<'a>>, Memory>
    ensures { IfOk result (λ table. map (λ row. row.items) table.items ≡ map (λ calls. replicate (length calls) no_notes) script.now.sessions) }
{
    let mut table = Vec::with_capacity(alloc, script.sessions.len())?;
    for calls in script.sessions.as_slice() {
        table.push(empty_row(alloc, calls)?)?;
    }
    Ok(table)
}

/// The place of the item of this number, counted from 1, among so many.
fn place_of(number: u32, count: usize) -> Option<usize>
    ensures found { IfSome result (λ place. (place + 1 ≡ number) × (place < count)) }
    ensures none { IfNone result ((number ≡ 0) ⊎ (count < number)) }
{
    let place = number.checked_sub(1)? as usize;
    if place < count { Some(place) } else { None }
}

/// Puts down what a note of the row's session says.
fn take_note<'a>(row: &mut SessionNotes<'a>, session: SessionId, entry: u64, note: &'a Note)
    ensures spans { (n : ℕ) → option_map span_of (numbered row.new.items n) ≡ option_map (after_note session entry n note.now) (option_map span_of (numbered row.old.items n)) }
    ensures len { length row.new.items ≡ length row.old.items }
{
    match note {
        Note::Began { number } => {
            if let Some(place) = place_of(*number, row.len()) {
                let caller = Caller {
                    session,
                    number: *number,
                };
                row[place].begin = Some(Begin { caller, entry });
            }
        }
        Note::Ended {
            number,
            version,
            answer,
        } => {
            if let Some(place) = place_of(*number, row.len()) {
                row[place].end = Some(End {
                    entry,
                    version: *version,
                    answer,
                });
            }
        }
        _ => {}
    }
}

/// Puts down what the notes of an entry say, so that the first of two that say the same stands.
#[tactic(auto, using(crate::proofs::Notes::after_notes_more))]
fn take_notes<'a>(row: &mut SessionNotes<'a>, session: SessionId, entry: u64, notes: &'a [Note])
    ensures spans { (n : ℕ) → option_map span_of (numbered row.new.items n) ≡ option_map (after_notes session entry n notes.now) (option_map span_of (numbered row.old.items n)) }
    ensures len { length row.new.items ≡ length row.old.items }
{
    let mut rest = notes;
    while let Some((note, before)) = rest.split_last() {
        take_note(row, session, entry, note);
        rest = before;
    }
}

/// Puts down what an entry says.
pub fn take_entry<'a>(table: &mut Vec<SessionNotes<'a>>, place: u64, entry: EntryRef<'a>)
    ensures spans { (c : Caller) → span_in (map (λ row. row.items) table.new.items) c ≡ option_map (after_entry c place (entry_seen entry.entry)) (span_in (map (λ row. row.items) table.old.items) c) }
    ensures same_shape { shape (map (λ row. row.items) table.new.items) ≡ shape (map (λ row. row.items) table.old.items) }
{
    let Actor::Session(session) = entry.actor else {
        return;
    };
    if let Some(row) = place_of(session.0, table.len()) {
        take_notes(&mut table[row], session, place, entry.notes);
    }
}

/// What the notes of a trace say of each call.
pub fn table<'a>(
    alloc: Global,
    script: &Script,
    trace: &'a Trace,
) -> Result<Vec<SessionNotes<'a>>, Memory>
    ensures spans { IfOk result (λ table. (c : Caller) → span_in (map (λ row. row.items) table.items) c ≡ option_map (λ op. notes_of c (reverse trace.now)) (call_of script.now c)) }
    ensures as_script { IfOk result (λ table. shape (map (λ row. row.items) table.items) ≡ shape script.now.sessions) }
{
    let mut table = empty_table(alloc, script)?;
    for place in 0..trace.len() {
        if let Some(entry) = trace.get(place) {
            take_entry(&mut table, place as u64 + 1, entry);
        }
    }
    Ok(table)
}
