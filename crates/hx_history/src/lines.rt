ghost use Rattle.hx_model.specs.Lines.{upto};
ghost use Rattle.std.specs.Prelude.{◌≡◌, ◌-◌, ◌<◌, ◌≤◌, ◌∷◌, map, reverse, filter, not, length, slice_index_or, IfOk, OnOk};
ghost use Rattle.std.specs.Borrow.{Bor};
ghost use Rattle.std.specs.List.Sorted.{IsNonDecreasingBy};
ghost use Rattle.hx_types.specs.Fitting.{is_refused};
ghost use Rattle.hx_history.specs.Events.{event_view, line_by, read_view, reads_by, updates_at, version_at};

use crate::events::{Event, Read};
use hx_types::{Memory, Update, Version};
use std::alloc::Global;

/// Takes the updates from this version on off the end of a line.
#[tactic(auto, using(crate::proofs::Newest::newest_push))]
fn cut(line: &mut Vec<&Update>, version: Version)
    ensures exact { reverse (updates_at line.new.items) ≡ upto (version.0 - 1) (reverse (updates_at line.old.items)) }
    ensures sorted { IsNonDecreasingBy version_at line.old.items → IsNonDecreasingBy version_at line.new.items }
    ensures below { (d : Bor Update) → 0 < length line.new.items → version_at (slice_index_or line.new.items (length line.new.items - 1) d) ≤ version.0 }
{
    let before = version.0.saturating_sub(1);
    while let Some(last) = line.last() {
        if last.version.0 <= before {
            break;
        }
        line.pop();
    }
}

/// Puts an update on a line: it cuts what stands after the version before it.
#[tactic(auto, using(crate::proofs::Newest::newest_push))]
fn assign<'a>(line: &mut Vec<&'a Update>, update: &'a Update) -> Result<(), Memory>
    ensures exact { OnOk result (reverse (updates_at line.new.items) ≡ update.now ∷ upto (update.now.version.0 - 1) (reverse (updates_at line.old.items))) }
    ensures sorted { OnOk result (IsNonDecreasingBy version_at line.old.items → IsNonDecreasingBy version_at line.new.items) }
{
    cut(line, update.version);
    line.push(update)?;
    Ok(())
}

/// The line of a key.
pub fn updates_of_key<'a>(alloc: Global, events: &[Event<'a>]) -> Result<Vec<&'a Update>, Memory>
    ensures exact { IfOk result (λ line. reverse (updates_at line.items) ≡ line_by (map event_view events.now)) }
    ensures sorted { IfOk result (λ line. IsNonDecreasingBy version_at line.items) }
{
    let mut line = Vec::with_capacity(alloc, events.len())?;
    for event in events {
        if let Event::Wrote(update) = event {
            assign(&mut line, update)?;
        }
    }
    Ok(line)
}

/// The writes of a line that were not refused.
pub fn writes_of<'a>(alloc: Global, line: &[&'a Update]) -> Result<Vec<&'a Update>, Memory>
    ensures { IfOk result (λ writes. writes.items ≡ filter (λ u. not (is_refused u.now.answer)) line.now) }
{
    let mut writes = Vec::with_capacity(alloc, line.len())?;
    for update in line {
        if !update.answer.is_refused() {
            writes.push(*update)?;
        }
    }
    Ok(writes)
}

/// The ended gets among the events of a key.
pub fn reads_of<'a>(alloc: Global, events: &[Event<'a>]) -> Result<Vec<Read<'a>>, Memory>
    ensures { IfOk result (λ reads. map read_view reads.items ≡ reads_by (map event_view events.now)) }
{
    let mut reads = Vec::with_capacity(alloc, events.len())?;
    for event in events {
        if let Event::Read(read) = event {
            reads.push(*read)?;
        }
    }
    Ok(reads)
}
