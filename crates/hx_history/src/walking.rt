ghost use Rattle.std.specs.Prelude.{◌≡◌, ◌↔◌, [], false, map, reverse, IfOk};
ghost use Rattle.std.specs.List.{flat_map};
ghost use Rattle.std.specs.Option.{option_map};
ghost use Rattle.hx_model.specs.Types.{Caller};
ghost use Rattle.hx_types.specs.Fitting.{call_of};
ghost use Rattle.hx_model.specs.Histories.{records_of};
ghost use Rattle.hx_history.specs.Calls.{notes_of, shape, span_in};
ghost use Rattle.hx_history.specs.Events.{event_view, events_of};
ghost use Rattle.hx_history.specs.Issued.{issued_by, issued_in};
ghost use Rattle.hx_history.specs.Listed.{AreHistories, history_view};

use crate::call_notes::{SessionNotes, empty_table, take_entry};
use crate::events::{Event, push_events};
use crate::key_histories::{Histories, KeyItems, histories_from, items_by_key};
use crate::recorded::records_from;
use hx_trace::Trace;
use hx_types::{Memory, Note, Records, Script};
use std::alloc::Global;

/// What the notes of a trace say: of each call, of keys in order, and whether a configuration was
/// issued.
pub struct Gathered<'a> {
    pub table: Vec<SessionNotes<'a>>,
    pub events: Vec<Event<'a>>,
    pub has_issued: bool,
}

impl Drop for Gathered<'_> {
    fn drop(self) {
        let Gathered {
            table: _,
            events: _,
            has_issued: _,
        } = self;
    }
}

/// The records of calls, and the histories of keys.
pub struct RecordsAndHistories {
    pub records: Records,
    pub histories: Histories,
}

impl Drop for RecordsAndHistories {
    fn drop(self) {
        let RecordsAndHistories {
            records: _,
            histories: _,
        } = self;
    }
}

/// The records of calls, the histories of keys of what the trace and the script have, and whether
/// a note says that a configuration was issued.
#[derive(Drop)]
pub struct RecordsAndItems<'a> {
    pub records: Records,
    pub histories: Vec<KeyItems<'a>>,
    pub has_issued: bool,
}

/// Whether one of the notes says that a configuration was issued.
fn has_issued(notes: &[Note]) -> bool
    ensures { (result ≡ false) ↔ (flat_map issued_by notes.now ≡ []) }
{
    for note in notes {
        if let Note::Issued { .. } = note {
            return true;
        }
    }
    false
}

/// What all notes of a trace say. Entries without notes are passed over.
fn gather<'a>(alloc: Global, script: &'a Script, trace: &'a Trace) -> Result<Gathered<'a>, Memory>
    ensures spans { IfOk result (λ gathered. (c : Caller) → span_in (map (λ row. row.items) gathered.table.items) c ≡ option_map (λ op. notes_of c (reverse trace.now)) (call_of script.now c)) }
    ensures as_script { IfOk result (λ gathered. shape (map (λ row. row.items) gathered.table.items) ≡ shape script.now.sessions) }
    ensures events { IfOk result (λ gathered. map event_view gathered.events.items ≡ events_of script.now trace.now) }
    ensures issued { IfOk result (λ gathered. (gathered.has_issued ≡ false) ↔ (issued_in trace.now ≡ [])) }
{
    let mut table = empty_table(alloc, script)?;
    let mut events = Vec::new(alloc);
    let mut issued = false;
    for place in 0..trace.len() {
        if let Some(entry) = trace.noted(place) {
            take_entry(&mut table, place as u64 + 1, entry);
            push_events(&mut events, script, entry.actor, entry.notes)?;
            issued |= has_issued(entry.notes);
        }
    }
    Ok(Gathered {
        table,
        events,
        has_issued: issued,
    })
}

/// The records of [`records`](crate::records) and the histories of [`histories`](crate::histories),
/// after one walk over the trace: it is long, and most of its entries have no notes. It fails with
/// [`Memory`] alone.
pub fn records_and_histories(
    alloc: Global,
    script: &Script,
    trace: &Trace,
) -> Result<RecordsAndHistories, Memory>
    ensures records { IfOk result (λ both. both.records ≡ records_of script.now (reverse trace.now)) }
    ensures histories { IfOk result (λ both. AreHistories script.now (reverse trace.now) both.histories) }
{
    let gathered = gather(alloc, script, trace)?;
    let records = records_from(alloc, &gathered.table)?;
    let histories = histories_from(alloc, script, &gathered.events)?;
    Ok(RecordsAndHistories { records, histories })
}

/// The records and histories of a trace, of which the histories are no copies, and whether a
/// configuration was issued. It fails with [`Memory`] alone.
pub fn records_and_items<'a>(
    alloc: Global,
    script: &'a Script,
    trace: &'a Trace,
) -> Result<RecordsAndItems<'a>, Memory>
    ensures records { IfOk result (λ both. both.records ≡ records_of script.now (reverse trace.now)) }
    ensures histories { IfOk result (λ both. AreHistories script.now (reverse trace.now) (map history_view both.histories.items)) }
    ensures issued { IfOk result (λ both. (both.has_issued ≡ false) ↔ (issued_in trace.now ≡ [])) }
{
    let gathered = gather(alloc, script, trace)?;
    let records = records_from(alloc, &gathered.table)?;
    let histories = items_by_key(alloc, script, &gathered.events)?;
    Ok(RecordsAndItems {
        records,
        histories,
        has_issued: gathered.has_issued,
    })
}
