ghost use Rattle.std.specs.Prelude.{◌≡◌, ◌<◌, ◌≤◌, IfErr, OnOk, not};
ghost use Rattle.hx_types.specs.declared.limits.TheConstants.{MOST_ENTRIES};
ghost use Rattle.hx_world.specs.declared.ends.DrainError.TheVariants.{Worn};
ghost use Rattle.hx_world.specs.Turns.{entry_does_something};

use crate::ends::DrainError;
use hx_types::{Actor, Entry, Input, MOST_ENTRIES};

/// No actor makes more than 1,048,576 entries. It takes no memory.
#[inline(always)]
pub fn refuse_worn(actor: Actor, entries: u32) -> Result<(), DrainError>
    ensures fresh { OnOk result (entries < MOST_ENTRIES) }
    ensures worn { IfErr result (λ e. (e ≡ Worn actor) × (MOST_ENTRIES ≤ entries)) }
{
    if entries >= MOST_ENTRIES {
        return Err(DrainError::Worn(actor));
    }
    Ok(())
}

/// Whether the entry is a tick that makes nothing: then it isn't made.
pub fn makes_nothing(entry: &Entry) -> bool
    ensures { result ≡ not (entry_does_something entry.now) }
{
    match entry.input {
        Input::Tick => entry.outputs.is_empty() && entry.notes.is_empty(),
        _ => false,
    }
}
