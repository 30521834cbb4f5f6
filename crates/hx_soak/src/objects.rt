//! The objects in which histories end.

ghost use Rattle.std.specs.Prelude.{◌≡◌, ◌++◌, map, OnOk, IfOk};
ghost use Rattle.std.specs.Option.{option_copied};
ghost use Rattle.hx_soak.specs.Present.{key_object};
ghost use Rattle.hx_soak.specs.Tallying.{last_object, object_of, objects_of};

use hx_history::{Histories, KeyHistory};
use hx_types::{Item, Memory, Object, Text};
use std::alloc::Global;

/// An object that is present, and its key.
#[derive(Clone, Copy)]
pub struct Present<'a> {
    pub key: &'a Text,
    pub object: &'a Object,
}

/// The object after the last item, if it is present.
fn last_object(items: &[Item]) -> Option<&Object>
    ensures { option_copied result ≡ last_object items.now }
{
    match items.split_last() {
        Some((last, _)) => last.object.as_ref(),
        None => None,
    }
}

/// Adds the object in which a history ends, if it is present.
fn push_present<'a>(made: &mut Vec<Present<'a>>, history: &'a KeyHistory) -> Result<(), Memory>
    ensures { OnOk result (map key_object made.new.items ≡ map key_object made.old.items ++ object_of history.now) }
{
    if let Some(object) = last_object(history.items.as_slice()) {
        made.push(Present {
            key: &history.key,
            object,
        })?;
    }
    Ok(())
}

/// The objects in which histories end, in the order of these.
pub fn present_objects<'a>(
    alloc: Global,
    histories: &'a Histories,
) -> Result<Vec<Present<'a>>, Memory>
    ensures { IfOk result (λ made. map key_object made.items ≡ objects_of histories.now) }
{
    let mut made = Vec::new(alloc);
    for history in histories.as_slice() {
        push_present(&mut made, history)?;
    }
    Ok(made)
}
