//! The lines of histories.

ghost use Rattle.std.specs.Prelude.{◌≡◌, ◌++◌, map, OnOk};
ghost use Rattle.std.specs.Option.{option_copied};
ghost use Rattle.std.specs.List.{flat_map};
ghost use Rattle.hx_history.specs.Events.{item_view};
ghost use Rattle.hx_history.specs.Listed.{history_view};
ghost use Rattle.hx_report.specs.Reporting.{history_lines, item_line, item_text, state_text, word_of};

use crate::labels::put_labeled;
use crate::objects::put_object;
use hx_history::{ItemRef, KeyItems};
use hx_print::{put_bytes, put_caller, put_text};
use hx_types::{Answer, Memory, Object, Space};

/// The word for the answer of an item.
#[tactic(auto, unfolding(crate::specs::Reporting::word_of))]
fn word_of(answer: &Answer) -> &'static [u8]
    ensures { result.now ≡ word_of answer.now }
{
    match answer {
        Answer::Done => b"done".as_slice(),
        Answer::NotFound => b"notfound".as_slice(),
        Answer::CmpFail => b"cmpfail".as_slice(),
        Answer::Overflow => b"overflow".as_slice(),
        Answer::TooLong => b"toolong".as_slice(),
        Answer::Found(_) => b"found".as_slice(),
        _ => b"".as_slice(),
    }
}

/// Appends the object after a call, or that there is none. It fails for want of memory alone.
#[tactic(auto, unfolding(crate::specs::Reporting::state_text))]
pub fn put_state(out: &mut Vec<u8>, space: &Space, object: &Option<Object>) -> Result<(), Memory>
    ensures { OnOk result (out.new.items ≡ out.old.items ++ state_text space.now object.now) }
{
    put_state_of(out, space, object.as_ref())
}

/// Appends the state of an object that is lent, or that there is none.
#[tactic(auto, unfolding(crate::specs::Reporting::state_text))]
fn put_state_of(out: &mut Vec<u8>, space: &Space, object: Option<&Object>) -> Result<(), Memory>
    ensures { OnOk result (out.new.items ≡ out.old.items ++ state_text space.now (option_copied object.entry)) }
{
    match object {
        Some(object) => {
            put_bytes(out, b"present")?;
            put_object(out, &space.attributes, object)
        }
        None => put_bytes(out, b"absent"),
    }
}

#[tactic(auto, unfolding(crate::specs::Reporting::item_text))]
fn put_item_head(out: &mut Vec<u8>, item: &ItemRef<'_>) -> Result<(), Memory>
    ensures { OnOk result (out.new.items ≡ out.old.items ++ item_text (item_view item.now)) }
{
    put_labeled(out, b"item ", item.version.0)?;
    put_bytes(out, b" ")?;
    put_caller(out, &item.caller)
}

#[tactic(auto, unfolding(crate::specs::Reporting::item_line))]
fn put_item(out: &mut Vec<u8>, space: &Space, item: &ItemRef<'_>) -> Result<(), Memory>
    ensures { OnOk result (out.new.items ≡ out.old.items ++ item_line space.now (item_view item.now)) }
{
    put_item_head(out, item)?;
    put_bytes(out, b" ")?;
    put_bytes(out, word_of(item.answer))?;
    put_bytes(out, b" ")?;
    put_state_of(out, space, item.object)?;
    put_bytes(out, b"\n")
}

fn put_items(out: &mut Vec<u8>, space: &Space, items: &[ItemRef<'_>]) -> Result<(), Memory>
    ensures { OnOk result
        (out.new.items ≡ out.old.items ++ flat_map (item_line space.now) (map item_view items.now)) }
{
    for item in items {
        put_item(out, space, item)?;
    }
    Ok(())
}

#[tactic(auto, unfolding(crate::specs::Reporting::history_lines))]
fn put_history(out: &mut Vec<u8>, space: &Space, history: &KeyItems<'_>) -> Result<(), Memory>
    ensures { OnOk result (out.new.items ≡ out.old.items ++ history_lines space.now (history_view history.now)) }
{
    put_bytes(out, b"history ")?;
    put_text(out, &history.key)?;
    put_bytes(out, b"\n")?;
    put_items(out, space, &history.items)
}

/// Appends the histories of keys.
pub fn put_histories(
    out: &mut Vec<u8>,
    space: &Space,
    histories: &[KeyItems<'_>],
) -> Result<(), Memory>
    ensures { OnOk result
        (out.new.items ≡ out.old.items ++ flat_map (history_lines space.now) (map history_view histories.now)) }
{
    for history in histories {
        put_history(out, space, history)?;
    }
    Ok(())
}
