//! What is reckoned of a block before a clause is judged in it.

ghost use Rattle.std.specs.Prelude.{IfOk};
ghost use Rattle.hx_audit.specs.Latest.{AreLatestFor};
ghost use Rattle.hx_audit.specs.Notes.{AreNotesFor};
ghost use Rattle.hx_audit.specs.Walking.{IsOrdered};

use crate::latest::{LatestChanges, latest_of};
use crate::standing::marked_for;
use crate::verdicts::Clause;
use hx_report_lines::Block;
use hx_types::Memory;
use std::alloc::Global;
use std::collections::BTreeSet;

/// What a clause asks for of a block again and again; nothing of what it doesn't ask for.
#[derive(Drop)]
pub struct Notes<'a> {
    /// The places of the calls that stand in the histories of their keys.
    pub marked: BTreeSet<usize>,
    /// For each history the changes that were the latest for a while.
    pub latest: Vec<LatestChanges<'a>>,
}

/// The latest changes where the clause asks for them; else none.
fn latest_for<'a>(
    alloc: Global,
    clause: Clause,
    block: &'a Block,
) -> Result<Vec<LatestChanges<'a>>, Memory>
    requires { IsOrdered block.now }
    ensures { IfOk result (λ histories. AreLatestFor clause block.now histories.items) }
{
    match clause {
        Clause::Whole => latest_of(alloc, block),
        Clause::Foreign | Clause::Legal | Clause::Missing | Clause::Order | Clause::True => {
            Ok(Vec::new(alloc))
        }
    }
}

/// What the clause asks for of the block.
pub fn notes_for<'a>(alloc: Global, clause: Clause, block: &'a Block) -> Result<Notes<'a>, Memory>
    requires { IsOrdered block.now }
    ensures { IfOk result (AreNotesFor clause block.now) }
{
    let marked = marked_for(alloc, clause, block)?;
    let latest = latest_for(alloc, clause, block)?;
    Ok(Notes { marked, latest })
}
