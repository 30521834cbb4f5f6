//! Edits in a line.

ghost use Rattle.std.specs.Prelude.{◌≡◌, [], ◌≤◌, length};
ghost use Rattle.hx_types.specs.declared.limits.TheConstants.{MOST_ATTRIBUTES};
ghost use Rattle.hx_script.specs.Readers.{Reads, Gives, repeat};
ghost use Rattle.hx_script.specs.declared.line.Until.TheVariants as until;
ghost use Rattle.hx_script.specs.Edits.{edit_kind, edit_word, has_edit, unedited_attribute, is_edit_of, edit_value, edit, one_more_edit, some_edits};

use crate::errors::{Reason, Stop};
use crate::keyword::is;
use crate::line::{Line, Part, Until};
use crate::values::value;
use crate::words::{declared_number, kind_at, named};
use hx_types::{Edit, EditKind, Edits, Kind, Space, Value};
use std::alloc::Global;

fn edit_kind(word: &str) -> Result<EditKind, Stop>
    ensures { Gives (λ what. what) result (edit_kind word.now) }
{
    if is(word.as_bytes(), b"add") {
        Ok(EditKind::Add)
    } else if is(word.as_bytes(), b"append") {
        Ok(EditKind::Append)
    } else if is(word.as_bytes(), b"min") {
        Ok(EditKind::Min)
    } else if is(word.as_bytes(), b"max") {
        Ok(EditKind::Max)
    } else {
        Err(Stop::Fault(Reason::Order))
    }
}

/// `add`, `append`, `min` or `max`.
#[tactic(auto, unfolding(crate::specs::Edits::edit_word))]
fn edit_word(line: &mut Line<'_>) -> Result<EditKind, Stop>
    ensures { Reads (λ what. what) result line.new (edit_word line.old) }
{
    let word = line.word()?;
    edit_kind(word)
}

fn has_edit(edits: &Edits, attribute: u32) -> bool
    ensures { result ≡ has_edit edits.now attribute }
{
    edits
        .as_slice()
        .iter()
        .any(|edit| edit.attribute == attribute)
}

/// A declared attribute that isn't edited yet, by its name.
#[tactic(auto, unfolding(crate::specs::Edits::unedited_attribute))]
fn unedited_attribute(space: &Space, edits: &Edits, line: &mut Line<'_>) -> Result<u32, Stop>
    requires few { length space.now.attributes ≤ MOST_ATTRIBUTES }
    ensures { Reads (λ a. a) result line.new (unedited_attribute space.now edits.now line.old) }
{
    let word = named(line)?;
    let attribute = declared_number(space, word)?;
    if has_edit(edits, attribute) {
        return Err(Stop::Fault(Reason::Twice));
    }
    Ok(attribute)
}

fn is_edit_of(what: EditKind, kind: Kind) -> bool
    ensures { result ≡ is_edit_of what kind }
{
    match (what, kind) {
        (EditKind::Append, Kind::Text) => true,
        (EditKind::Add | EditKind::Min | EditKind::Max, Kind::Int { .. }) => true,
        _ => false,
    }
}

/// A value by which a value of the kind can be edited so.
#[tactic(auto, unfolding(crate::specs::Edits::edit_value, crate::specs::Values::value))]
fn edit_value(alloc: Global, what: EditKind, kind: Kind, line: &mut Line<'_>) -> Result<Value, Stop>
    ensures { Reads (λ v. v) result line.new (edit_value what kind line.old) }
{
    if is_edit_of(what, kind) {
        return value(alloc, kind, line);
    }
    match line.next() {
        Some(Part::Number(_)) => Err(Stop::Fault(Reason::TypeOf)),
        Some(Part::Text(_)) => Err(Stop::Fault(Reason::TypeOf)),
        _ => Err(Stop::Fault(Reason::Order)),
    }
}

/// One edit.
#[tactic(auto, unfolding(crate::specs::Edits::edit))]
fn edit(alloc: Global, space: &Space, edits: &Edits, line: &mut Line<'_>) -> Result<Edit, Stop>
    requires few { length space.now.attributes ≤ MOST_ATTRIBUTES }
    ensures { Reads (λ e. e) result line.new (edit space.now edits.now line.old) }
{
    let what = edit_word(line)?;
    let attribute = unedited_attribute(space, edits, line)?;
    line.sign(b"=")?;
    let value = edit_value(alloc, what, kind_at(space, attribute), line)?;
    Ok(Edit {
        what,
        attribute,
        value,
    })
}

/// More edits behind those that are there, up to the end of the line.
#[tactic(auto, using(crate::proofs::Editing::edits_go_on, crate::proofs::Editing::edit_shrinks, crate::proofs::Editing::edits_end))]
fn more_edits(
    alloc: Global,
    space: &Space,
    edits: &mut Edits,
    line: &mut Line<'_>,
) -> Result<(), Stop>
    requires few { length space.now.attributes ≤ MOST_ATTRIBUTES }
    ensures { Reads (λ _. edits.new) result line.new
        (repeat until.End (one_more_edit space.now) edits.old line.old) }
{
    'edits: while !line.is_at(Until::End) {
        let edit = edit(alloc, space, edits, line)?;
        edits.push(edit)?;
    }
    Ok(())
}

/// One edit or more up to the end of the line, into an empty list.
#[tactic(auto, unfolding(crate::specs::Edits::some_edits, crate::specs::Edits::one_more_edit))]
pub(crate) fn some_edits(
    alloc: Global,
    space: &Space,
    edits: &mut Edits,
    line: &mut Line<'_>,
) -> Result<(), Stop>
    requires few { length space.now.attributes ≤ MOST_ATTRIBUTES }
    requires empty { edits.old ≡ [] }
    ensures { Reads (λ _. edits.new) result line.new (some_edits space.now line.old) }
{
    let first = edit(alloc, space, edits, line)?;
    edits.push(first)?;
    more_edits(alloc, space, edits, line)
}
