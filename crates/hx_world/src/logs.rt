ghost use Rattle.std.specs.Prelude.{◌≡◌, [], ◌++◌, ◌∷◌, ◌<◌, ◌≤◌, ◌+◌, ◌^◌, IfOk, OnOk, length, reverse};
ghost use Rattle.std.specs.Option.{option_copied};
ghost use Rattle.hx_model.specs.Runs.{MayTake, post_named};
ghost use Rattle.hx_model.specs.Schedule.{without_delivered};
ghost use Rattle.hx_trace.specs.Rooms.{IsRoomFor, LiesAt};
ghost use Rattle.hx_world.specs.Filing.{heard_entry, names_after, ticked_entry};
ghost use Rattle.hx_world.specs.Names.{AreAscending};

use crate::lending::Lent;
use crate::waiting::Queue;
use hx_trace::{GrowingTrace, Trace};
use hx_types::{Actor, Entry, Input, Memory, Notes, Post, PostId, Posts};
use std::alloc::Global;

/// The entries so far, and in ascending order the names of the posts that were never delivered;
/// names of posts to halted servers may be left out.
#[derive(Drop)]
pub struct Log {
    pub trace: Trace,
    pub waiting: Queue,
    pub lent: Lent,
}

/// No entry, and no post.
pub fn empty(alloc: Global) -> Log
    ensures trace { result.trace ≡ [] }
    ensures waiting { result.waiting.items ≡ [] }
{
    Log {
        trace: Trace::new(alloc),
        waiting: Queue::new(alloc),
        lent: Lent::new(alloc),
    }
}

/// The post of a name.
pub fn sent_post(log: &Log, id: PostId) -> Option<&Post>
    ensures { option_copied result ≡ post_named id (reverse log.now.trace) }
{
    log.trace.sent(id)
}

/// How many posts there are. More than can be numbered don't fit any memory.
#[inline(always)]
fn number_of(posts: &Posts) -> Result<u32, Memory>
    ensures { IfOk result (λ number. number ≡ length posts.now) }
{
    match u32::try_from(posts.len()) {
        Ok(number) => Ok(number),
        Err(_) => Err(Memory),
    }
}

/// Takes all memory for an entry: room at the end of the trace, and for the names of its posts.
pub fn reserve_entry(
    trace: &mut GrowingTrace,
    waiting: &mut Queue,
    entry: &Entry,
) -> Result<(), Memory>
    ensures entries { trace.new.entries ≡ trace.old.entries }
    ensures room { OnOk result (IsRoomFor trace.new.room (length entry.now.outputs) (length entry.now.notes)) }
    ensures waiting { waiting.new.items ≡ waiting.old.items }
    ensures names { OnOk result (length entry.now.outputs ≤ waiting.new.room) }
    ensures few { OnOk result (length entry.now.outputs < 2 ^ 32) }
{
    reserve_lists(trace, waiting, &entry.outputs, &entry.notes)
}

/// Takes all memory for an entry with these posts and notes. What lies in the trace stays in its
/// place.
#[inline(always)]
pub fn reserve_lists(
    trace: &mut GrowingTrace,
    waiting: &mut Queue,
    posts: &Posts,
    notes: &Notes,
) -> Result<(), Memory>
    ensures entries { trace.new.entries ≡ trace.old.entries }
    ensures filed { trace.new.filed ≡ trace.old.filed }
    ensures room { OnOk result (IsRoomFor trace.new.room (length posts.now) (length notes.now)) }
    ensures waiting { waiting.new.items ≡ waiting.old.items }
    ensures names { OnOk result (length posts.now ≤ waiting.new.room) }
    ensures few { OnOk result (length posts.now < 2 ^ 32) }
{
    let number = number_of(posts)?;
    waiting.reserve(number)?;
    trace.reserve(posts.len(), notes.len())
}

/// Puts the delivery of a post at the end of the trace, by the place where the post lies, with
/// posts and notes that move there. The post waits no longer, and the names of the entry's own
/// posts wait after the others.
#[inline(always)]
pub fn append_delivery(
    trace: &mut GrowingTrace,
    waiting: &mut Queue,
    actor: Actor,
    id: PostId,
    at: usize,
    posts: &mut Posts,
    notes: &mut Notes,
)
    requires room { IsRoomFor trace.old.room (length posts.old) (length notes.old) }
    requires lies { LiesAt trace.old id at }
    requires name_room { length posts.old ≤ waiting.old.room }
    requires few_posts { length posts.old < 2 ^ 32 }
    requires ascending { AreAscending waiting.old.items }
    ensures trace { trace.new.entries ≡ trace.old.entries ++ heard_entry actor id trace.old.entries posts.old notes.old ∷ [] }
    ensures waiting { waiting.new.items ≡ names_after (length trace.old.entries) (heard_entry actor id trace.old.entries posts.old notes.old) waiting.old.items }
    ensures posts { posts.new ≡ [] }
    ensures notes { notes.new ≡ [] }
{
    let number = posts.len() as u32;
    waiting.take_out(id);
    trace.append_delivery(actor, id, at, posts, notes);
    waiting.push(trace.len() as u64, number);
}

/// Puts an entry of an actor's own turn at the end of the trace, with posts and notes that move
/// there. The names of its posts wait after the others.
#[inline(always)]
pub fn append_tick(
    trace: &mut GrowingTrace,
    waiting: &mut Queue,
    actor: Actor,
    posts: &mut Posts,
    notes: &mut Notes,
)
    requires room { IsRoomFor trace.old.room (length posts.old) (length notes.old) }
    requires name_room { length posts.old ≤ waiting.old.room }
    requires few_posts { length posts.old < 2 ^ 32 }
    ensures trace { trace.new.entries ≡ trace.old.entries ++ ticked_entry actor posts.old notes.old ∷ [] }
    ensures waiting { waiting.new.items ≡ names_after (length trace.old.entries) (ticked_entry actor posts.old notes.old) waiting.old.items }
    ensures posts { posts.new ≡ [] }
    ensures notes { notes.new ≡ [] }
{
    let number = posts.len() as u32;
    trace.append_tick(actor, posts, notes);
    waiting.push(trace.len() as u64, number);
}

/// Puts an entry at the end of the trace. A delivery takes the name of its post out, and the names
/// of the entry's own posts wait after the others.
pub fn append_entry(trace: &mut GrowingTrace, waiting: &mut Queue, entry: Entry)
    requires room { IsRoomFor trace.old.room (length entry.outputs) (length entry.notes) }
    requires may { MayTake (reverse trace.old.entries) entry.actor entry.input }
    requires name_room { length entry.outputs ≤ waiting.old.room }
    requires few_posts { length entry.outputs < 2 ^ 32 }
    requires ascending { AreAscending waiting.old.items }
    ensures trace { trace.new.entries ≡ trace.old.entries ++ entry ∷ [] }
    ensures waiting { waiting.new.items ≡ names_after (length trace.old.entries) entry waiting.old.items }
{
    let posts = entry.outputs.len() as u32;
    drop_delivered(waiting, &entry.input);
    trace.append(entry);
    waiting.push(trace.len() as u64, posts);
}

/// The post of a delivery waits no longer.
fn drop_delivered(waiting: &mut Queue, input: &Input)
    requires { AreAscending waiting.old.items }
    ensures items { waiting.new.items ≡ without_delivered input.now waiting.old.items }
    ensures room { waiting.old.room ≤ waiting.new.room }
{
    if let Input::Deliver { id, .. } = input {
        waiting.take_out(*id);
    }
}
