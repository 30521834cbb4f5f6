//! The lines of a trace: entries and their posts.

ghost use Rattle.std.specs.Prelude.{◌≡◌, ◌++◌, codes, reverse, OnOk};
ghost use Rattle.hx_trace.specs.Entries.{entry_seen, input_seen};
ghost use Rattle.hx_report.specs.Tracing.{entries_text, entry_line, field_text, input_text, message_text, post_head, post_line, posts_text, reconfiguration_text, trace_text};

use crate::labels::put_labeled;
use hx_print::{put_actor, put_bytes, put_post_name};
use hx_trace::{EntryRef, InputRef, Trace};
use hx_types::{Epoch, Memory, Message, Post, RegionId, ServerId, Version};

/// Appends a name and a number, each with a blank before it.
#[tactic(auto, unfolding(crate::specs::Tracing::field_text))]
pub fn put_field(out: &mut Vec<u8>, name: &[u8], number: u64) -> Result<(), Memory>
    ensures { OnOk result (out.new.items ≡ out.old.items ++ field_text name.now number) }
{
    put_bytes(out, b" ")?;
    put_bytes(out, name)?;
    put_labeled(out, b" ", number)
}

/// Appends the kind and the epoch of a message.
fn put_in_epoch(out: &mut Vec<u8>, kind: &[u8], epoch: Epoch) -> Result<(), Memory>
    ensures { OnOk result
        (out.new.items ≡ out.old.items ++ kind.now ++ field_text (codes "epoch") epoch.0) }
{
    put_bytes(out, kind)?;
    put_field(out, b"epoch", epoch.0)
}

/// Appends the kind of a message and the number of a call.
fn put_numbered(out: &mut Vec<u8>, kind: &[u8], number: u32) -> Result<(), Memory>
    ensures { OnOk result
        (out.new.items ≡ out.old.items ++ kind.now ++ field_text (codes "number") number) }
{
    put_bytes(out, kind)?;
    put_field(out, b"number", u64::from(number))
}

fn put_in_region(
    out: &mut Vec<u8>,
    kind: &[u8],
    epoch: Epoch,
    region: RegionId,
) -> Result<(), Memory>
    ensures { OnOk result (out.new.items ≡ out.old.items ++ kind.now
        ++ field_text (codes "epoch") epoch.0 ++ field_text (codes "region") region.0) }
{
    put_in_epoch(out, kind, epoch)?;
    put_field(out, b"region", u64::from(region.0))
}

fn put_of_version(
    out: &mut Vec<u8>,
    kind: &[u8],
    epoch: Epoch,
    region: RegionId,
    version: Version,
) -> Result<(), Memory>
    ensures { OnOk result (out.new.items ≡ out.old.items ++ kind.now
        ++ field_text (codes "epoch") epoch.0 ++ field_text (codes "region") region.0
        ++ field_text (codes "version") version.0) }
{
    put_in_region(out, kind, epoch, region)?;
    put_field(out, b"version", version.0)
}

fn put_of_search(
    out: &mut Vec<u8>,
    kind: &[u8],
    epoch: Epoch,
    number: u32,
    region: RegionId,
) -> Result<(), Memory>
    ensures { OnOk result (out.new.items ≡ out.old.items ++ kind.now
        ++ field_text (codes "epoch") epoch.0 ++ field_text (codes "number") number
        ++ field_text (codes "region") region.0) }
{
    put_in_epoch(out, kind, epoch)?;
    put_field(out, b"number", u64::from(number))?;
    put_field(out, b"region", u64::from(region.0))
}

fn put_call(out: &mut Vec<u8>, epoch: Epoch, number: u32) -> Result<(), Memory>
    ensures { OnOk result (out.new.items ≡ out.old.items ++ codes "call"
        ++ field_text (codes "epoch") epoch.0 ++ field_text (codes "number") number) }
{
    put_in_epoch(out, b"call", epoch)?;
    put_field(out, b"number", u64::from(number))
}

fn put_reply(out: &mut Vec<u8>, number: u32, version: Version) -> Result<(), Memory>
    ensures { OnOk result (out.new.items ≡ out.old.items ++ codes "reply"
        ++ field_text (codes "number") number ++ field_text (codes "version") version.0) }
{
    put_numbered(out, b"reply", number)?;
    put_field(out, b"version", version.0)
}

fn put_of_server(
    out: &mut Vec<u8>,
    kind: &[u8],
    number: u32,
    server: ServerId,
) -> Result<(), Memory>
    ensures { OnOk result (out.new.items ≡ out.old.items ++ kind.now
        ++ field_text (codes "number") number ++ field_text (codes "server") server.0) }
{
    put_numbered(out, kind, number)?;
    put_field(out, b"server", u64::from(server.0))
}

fn put_add(out: &mut Vec<u8>, number: u32, server: ServerId, region: RegionId) -> Result<(), Memory>
    ensures { OnOk result (out.new.items ≡ out.old.items ++ codes "add"
        ++ field_text (codes "number") number ++ field_text (codes "server") server.0
        ++ field_text (codes "region") region.0) }
{
    put_of_server(out, b"add", number, server)?;
    put_field(out, b"region", u64::from(region.0))
}

/// Appends the kind and the shown numbers of a message on configurations.
#[tactic(auto, unfolding(crate::specs::Tracing::reconfiguration_text))]
fn put_reconfiguration(out: &mut Vec<u8>, message: &Message) -> Result<(), Memory>
    ensures { OnOk result (out.new.items ≡ out.old.items ++ reconfiguration_text message.now) }
{
    match message {
        Message::Seal { epoch } => put_in_epoch(out, b"seal", *epoch),
        Message::Sealed { epoch } => put_in_epoch(out, b"sealed", *epoch),
        Message::Install { config } => put_in_epoch(out, b"install", config.epoch),
        Message::Die => put_bytes(out, b"die"),
        Message::Gone => put_bytes(out, b"gone"),
        Message::StopServer { number, server } => { put_of_server(out, b"stop", *number, *server) }
        Message::AddReplica {
            number,
            server,
            region,
        } => put_add(out, *number, *server, *region),
        Message::Outcome { number, .. } => put_numbered(out, b"answer", *number),
        Message::Snap { epoch, region, .. } => put_in_region(out, b"snap", *epoch, *region),
        Message::Ready { epoch, region } => put_in_region(out, b"ready", *epoch, *region),
        Message::Poll { epoch } => put_in_epoch(out, b"poll", *epoch),
        _ => Ok(()),
    }
}

/// Appends the kind of a message and the numbers that are shown of it.
#[tactic(auto, unfolding(crate::specs::Tracing::message_text))]
fn put_message(out: &mut Vec<u8>, message: &Message) -> Result<(), Memory>
    ensures { OnOk result (out.new.items ≡ out.old.items ++ message_text message.now) }
{
    match message {
        Message::Call { epoch, number, .. } => put_call(out, *epoch, *number),
        Message::Reply {
            number,
            version,
            ..
        } => put_reply(out, *number, *version),
        Message::Update {
            epoch,
            region,
            update,
        } => put_of_version(out, b"update", *epoch, *region, update.version),
        Message::Ack {
            epoch,
            region,
            version,
            ..
        } => put_of_version(out, b"ack", *epoch, *region, *version),
        Message::Ask {
            epoch,
            number,
            region,
            ..
        } => put_of_search(out, b"ask", *epoch, *number, *region),
        Message::Found {
            epoch,
            number,
            region,
            ..
        } => put_of_search(out, b"found", *epoch, *number, *region),
        _ => put_reconfiguration(out, message),
    }
}

#[tactic(auto, unfolding(crate::specs::Tracing::input_text))]
fn put_input(out: &mut Vec<u8>, input: InputRef<'_>) -> Result<(), Memory>
    ensures { OnOk result (out.new.items ≡ out.old.items ++ input_text (input_seen input.entry)) }
{
    match input {
        InputRef::Tick => put_bytes(out, b"tick"),
        InputRef::Halt => put_bytes(out, b"halt"),
        InputRef::Deliver { id, .. } => {
            put_bytes(out, b"deliver ")?;
            put_post_name(out, &id)
        }
    }
}

/// Appends the name of a post and its receiver.
#[tactic(auto, unfolding(crate::specs::Tracing::post_head, hx_print::specs::Printing::post_name))]
fn put_post_head(out: &mut Vec<u8>, entry: u64, place: u64, post: &Post) -> Result<(), Memory>
    ensures { OnOk result (out.new.items ≡ out.old.items ++ post_head entry place post.now) }
{
    put_labeled(out, b"post ", entry)?;
    put_labeled(out, b".", place)?;
    put_bytes(out, b" ")?;
    put_actor(out, &post.to)
}

#[tactic(auto, unfolding(crate::specs::Tracing::post_line))]
fn put_post(out: &mut Vec<u8>, entry: u64, place: u64, post: &Post) -> Result<(), Memory>
    ensures { OnOk result (out.new.items ≡ out.old.items ++ post_line entry place post.now) }
{
    put_post_head(out, entry, place, post)?;
    put_bytes(out, b" ")?;
    put_message(out, &post.message)?;
    put_bytes(out, b"\n")
}

#[tactic(auto, unfolding(crate::specs::Tracing::posts_text))]
fn put_posts(out: &mut Vec<u8>, entry: u64, posts: &[Post]) -> Result<(), Memory>
    ensures { OnOk result (out.new.items ≡ out.old.items ++ posts_text entry 0 posts.now) }
{
    let mut place = 0;
    let mut rest = posts;
    'posts: while let Some((post, after)) = rest.split_first() {
        put_post(out, entry, place, post)?;
        place += 1;
        rest = after;
    }
    Ok(())
}

/// Appends the line of an entry itself.
#[tactic(auto, unfolding(crate::specs::Tracing::entry_line))]
fn put_entry(out: &mut Vec<u8>, number: u64, entry: EntryRef<'_>) -> Result<(), Memory>
    ensures { OnOk result (out.new.items ≡ out.old.items ++ entry_line number (entry_seen entry.entry)) }
{
    put_labeled(out, b"entry ", number)?;
    put_bytes(out, b" ")?;
    put_actor(out, &entry.actor)?;
    put_bytes(out, b" ")?;
    put_input(out, entry.input)?;
    put_bytes(out, b"\n")
}

#[tactic(auto, unfolding(crate::specs::Tracing::entries_text))]
fn put_entries(out: &mut Vec<u8>, trace: &Trace) -> Result<(), Memory>
    ensures { OnOk result (out.new.items ≡ out.old.items ++ entries_text 1 trace.now) }
{
    for place in 0..trace.len() {
        if let Some(entry) = trace.get(place) {
            let number = place as u64 + 1;
            put_entry(out, number, entry)?;
            put_posts(out, number, entry.outputs)?;
        }
    }
    Ok(())
}

/// Appends the lines of a trace where they are wanted.
#[tactic(auto, unfolding(crate::specs::Tracing::trace_text))]
pub fn put_trace(out: &mut Vec<u8>, trace: &Trace, with_trace: bool) -> Result<(), Memory>
    ensures { OnOk result
        (out.new.items ≡ out.old.items ++ trace_text with_trace (reverse trace.now)) }
{
    if with_trace {
        put_entries(out, trace)
    } else {
        Ok(())
    }
}
