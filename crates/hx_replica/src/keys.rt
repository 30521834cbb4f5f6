ghost use Rattle.std.specs.Prelude.{◌≡◌, IfOk, OnOk};
ghost use Rattle.hx_types.specs.Words.{text_below};
ghost use Rattle.hx_model.specs.ServerSteps.{keys_of, with_key};
ghost use Rattle.hx_replica.specs.Installing.{texts};

use hx_types::{Memory, Same, Text, Updates};
use std::alloc::Global;

/// The keys of updates, in byte order, each once.
pub fn keys_of(alloc: Global, updates: &Updates) -> Result<Vec<&Text>, Memory>
    ensures { IfOk result (λ keys. texts keys.items ≡ keys_of updates.now) }
{
    let mut keys = Vec::new(alloc);
    let mut rest = updates.as_slice();
    'updates: while let Some((update, before)) = rest.split_last() {
        add_key(&mut keys, &update.key)?;
        rest = before;
    }
    Ok(keys)
}

/// Puts a key at its place among others, unless it is there.
fn add_key<'a>(keys: &mut Vec<&'a Text>, key: &'a Text) -> Result<(), Memory>
    ensures { OnOk result (texts keys.new.items ≡ with_key key.now (texts keys.old.items)) }
{
    for number in 0..keys.len() {
        let other = keys[number];
        if key.same(other) {
            return Ok(());
        }
        if is_below(key, other) {
            keys.insert(number, key)?;
            return Ok(());
        }
    }
    keys.push(key)?;
    Ok(())
}

/// Whether a text stands before another in byte order.
fn is_below(text: &Text, other: &Text) -> bool
    ensures { result ≡ text_below text.now other.now }
{
    text.as_str() < other.as_str()
}
