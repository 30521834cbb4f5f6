ghost use Rattle.std.specs.Prelude.{◌≡◌, ◌++◌, ℕ, List, [], map, reverse, filter, OnOk, IfOk};
ghost use Rattle.indexmap.specs.IndexMap.{get_by};
ghost use Rattle.std.specs.Option.{option_map_or};
ghost use Rattle.std.specs.Str.{bytes_eq};
ghost use Rattle.hx_model.specs.Histories.{history_of};
ghost use Rattle.hx_model.specs.Types.{Entry};
ghost use Rattle.hx_history.specs.Events.{event_view, events_of, history_by, is_at, key_of};
ghost use Rattle.hx_history.specs.Listed.{AreHistories, history_view, listed_of};

use crate::events::{Event, events};
use crate::items::{ItemRef, items_of};
use crate::placing::history_from;
use hx_trace::Trace;
use hx_types::{Exact, Items, Memory, Same, Script, Sequence, Text};
use indexmap::IndexMap;
use std::alloc::Global;

/// The history of a key: its items, the oldest first.
pub struct KeyHistory {
    pub key: Text,
    pub items: Items,
}

impl Drop for KeyHistory {
    fn drop(self) {
        let KeyHistory { key: _, items: _ } = self;
    }
}

/// Histories in byte order of keys.
pub type Histories = Sequence<KeyHistory>;

/// The history of a key: its items of what the trace and the script have, the oldest first.
#[derive(Drop)]
pub struct KeyItems<'a> {
    pub key: Text,
    pub items: Vec<ItemRef<'a>>,
}

type Groups<'a> = IndexMap<&'a str, Vec<Event<'a>>>;

/// The events of one key.
fn events_at<'a>(alloc: Global, events: &[Event<'a>], key: &Text) -> Result<Vec<Event<'a>>, Memory>
    ensures { IfOk result (λ found. found.items ≡ filter (λ e. is_at key.now (event_view e)) events.now) }
{
    let mut found = Vec::new(alloc);
    for event in events {
        if event.key().same(key) {
            found.push(*event)?;
        }
    }
    Ok(found)
}

/// The history of a key. It fails with [`Memory`] alone.
#[tactic(auto, using(crate::proofs::ByEvents::history_found))]
pub fn history(alloc: Global, script: &Script, trace: &Trace, key: &Text) -> Result<Items, Memory>
    ensures { IfOk result (λ items. items ≡ reverse (history_of script.now key.now (reverse trace.now))) }
{
    let all = events(alloc, script, trace)?;
    let found = events_at(alloc, &all, key)?;
    let items = history_from(alloc, script, &found)?;
    let copies = items_of(alloc, &items)?;
    Ok(copies)
}

/// The events of each key, in the order in which keys were first met.
fn groups<'a>(alloc: Global, events: &[Event<'a>]) -> Result<Groups<'a>, Memory>
    ensures { IfOk result (λ groups. (q : List ℕ) → option_map_or (λ g. g.items) (get_by (λ k. bytes_eq q k.now) groups) [] ≡ filter (λ e. bytes_eq q (key_of (event_view e))) events.now) }
{
    let mut groups = Groups::new(alloc);
    for event in events {
        groups
            .entry(event.key().as_str())?
            .or_default()
            .push(*event)?;
    }
    Ok(groups)
}

/// Adds the history of a key, unless it has no item.
fn push_items<'a>(
    alloc: Global,
    listed: &mut Vec<KeyItems<'a>>,
    script: &'a Script,
    key: &str,
    events: &[Event<'a>],
) -> Result<(), Memory>
    ensures { OnOk result (map history_view listed.new.items ≡ map history_view listed.old.items ++ listed_of key.now (history_by script.now (map event_view events.now))) }
{
    let items = history_from(alloc, script, events)?;
    if items.is_empty() {
        return Ok(());
    }
    let key = Text::from_str(alloc, key)?;
    listed.push(KeyItems { key, items })?;
    Ok(())
}

/// The histories of all keys of a trace's events that have one with items, in byte order of keys.
pub fn items_by_key<'a>(
    alloc: Global,
    script: &'a Script,
    events: &[Event<'a>],
) -> Result<Vec<KeyItems<'a>>, Memory>
    ensures { IfOk result (λ listed. (trace : List Entry) → map event_view events.now ≡ events_of script.now trace → AreHistories script.now (reverse trace) (map history_view listed.items)) }
{
    let mut groups = groups(alloc, events)?;
    groups.sort_keys()?;
    let mut listed = Vec::new(alloc);
    for (key, events) in groups.iter() {
        push_items(alloc, &mut listed, script, key, events)?;
    }
    Ok(listed)
}

/// Copies of histories.
fn copies_of(alloc: Global, listed: &[KeyItems<'_>]) -> Result<Histories, Memory>
    ensures { IfOk result (λ made. made ≡ map history_view listed.now) }
{
    let mut made = Histories::new(alloc);
    for history in listed {
        let key = history.key.copy(alloc)?;
        let items = items_of(alloc, &history.items)?;
        made.push(KeyHistory { key, items })?;
    }
    Ok(made)
}

/// The histories of all keys of a trace's events that have one with items, as copies.
pub fn histories_from(
    alloc: Global,
    script: &Script,
    events: &[Event<'_>],
) -> Result<Histories, Memory>
    ensures { IfOk result (λ listed. (trace : List Entry) → map event_view events.now ≡ events_of script.now trace → AreHistories script.now (reverse trace) listed) }
{
    let listed = items_by_key(alloc, script, events)?;
    let copies = copies_of(alloc, &listed)?;
    Ok(copies)
}

/// The histories of all keys that have one with items. It fails with [`Memory`] alone.
pub fn histories(alloc: Global, script: &Script, trace: &Trace) -> Result<Histories, Memory>
    ensures { IfOk result (λ listed. AreHistories script.now (reverse trace.now) listed) }
{
    let all = events(alloc, script, trace)?;
    let listed = histories_from(alloc, script, &all)?;
    Ok(listed)
}
