ghost use Rattle.std.specs.Prelude.{◌≡◌, ◌++◌, map, OnOk, IfOk};
ghost use Rattle.std.specs.Option.{option_map};
ghost use Rattle.hx_history.specs.Events.{End, event_of as event_by, event_view, events_in, events_of, key_of, read_of as read_at_end};

use hx_trace::Trace;
use hx_types::{Actor, Answer, Caller, Memory, Note, Op, Script, Text, Update, Version};
use std::alloc::Global;

/// A get that ended without being refused.
#[derive(Clone, Copy)]
pub struct Read<'a> {
    pub key: &'a Text,
    pub caller: Caller,
    pub version: Version,
    pub op: &'a Op,
    pub answer: &'a Answer,
}

/// What a note says of one key.
#[derive(Clone, Copy)]
pub enum Event<'a> {
    Wrote(&'a Update),
    Read(Read<'a>),
}

impl<'a> Event<'a> {
    /// The key that the event is of.
    pub fn key(&self) -> &'a Text
        ensures { result.now ≡ key_of (event_view self.now) }
    {
        match self {
            Event::Wrote(update) => &update.key,
            Event::Read(read) => read.key,
        }
    }
}

/// The get that ended with this answer, unless it was refused.
fn read_of<'a>(
    script: &'a Script,
    caller: Caller,
    version: Version,
    answer: &'a Answer,
) -> Option<Event<'a>>
    ensures { option_map event_view result ≡ option_map End (read_at_end script.now caller version answer.now) }
{
    let op = script.call(caller)?;
    match op {
        Op::Get { key } if !answer.is_refused() => Some(Event::Read(Read {
            key,
            caller,
            version,
            op,
            answer,
        })),
        _ => None,
    }
}

/// What a note in an entry of an actor says of a key.
fn event_of<'a>(script: &'a Script, actor: Actor, note: &'a Note) -> Option<Event<'a>>
    ensures { option_map event_view result ≡ event_by script.now actor note.now }
{
    match (note, actor) {
        (Note::Assigned { update }, _) => Some(Event::Wrote(update)),
        (
            Note::Ended {
                number,
                version,
                answer,
            },
            Actor::Session(session),
        ) => {
            let caller = Caller {
                session,
                number: *number,
            };
            read_of(script, caller, *version, answer)
        }
        _ => None,
    }
}

/// Adds what the notes of an entry say.
pub fn push_events<'a>(
    events: &mut Vec<Event<'a>>,
    script: &'a Script,
    actor: Actor,
    notes: &'a [Note],
) -> Result<(), Memory>
    ensures { OnOk result (map event_view events.new.items ≡ map event_view events.old.items ++ events_in script.now actor notes.now) }
{
    for note in notes {
        if let Some(event) = event_of(script, actor, note) {
            events.push(event)?;
        }
    }
    Ok(())
}

/// What all notes of a trace say of keys, in order.
pub fn events<'a>(
    alloc: Global,
    script: &'a Script,
    trace: &'a Trace,
) -> Result<Vec<Event<'a>>, Memory>
    ensures { IfOk result (λ events. map event_view events.items ≡ events_of script.now trace.now) }
{
    let mut events = Vec::new(alloc);
    for entry in trace.iter() {
        push_events(&mut events, script, entry.actor, entry.notes)?;
    }
    Ok(events)
}
