//! Calls of a session.

ghost use Rattle.std.specs.Prelude.{◌≡◌, ◌++◌, IfOk, OnErr, OnOk};
ghost use Rattle.std.specs.List.{flat_map};
ghost use Rattle.hx_print.specs.Prefixes.{IsPrefix};
ghost use Rattle.hx_print.specs.Printing.{add_text, assigns_text, cput_text, edit_text, edit_word, edits_text, name_of, op_text, range_text, term_text, terms_text};

use crate::numbers::{put_number, put_signed};
use crate::texts::{put_bytes, put_named, put_text};
use hx_types::{
    Assigns, Edit, EditKind, Edits, Memory, Op, RegionId, ServerId, Space, Term, Terms, Text,
};
use std::alloc::Global;

/// The name of an attribute: 0 is the key, i the i-th declared; no byte where there is none.
pub fn name_of(space: &Space, attribute: u32) -> &[u8]
    ensures { result.now ≡ name_of space.now attribute }
{
    if attribute == 0 {
        return space.key_name.as_bytes();
    }
    match space.attributes.get(attribute as usize - 1) {
        Some(declared) => declared.name.as_bytes(),
        None => b"".as_slice(),
    }
}

/// Appends each assignment with a blank before it.
#[tactic(auto, using(crate::proofs::Prefixes::same, crate::proofs::Prefixes::further))]
pub fn put_assigns(out: &mut Vec<u8>, space: &Space, assigns: &Assigns) -> Result<(), Memory>
    ensures appends { OnOk result (out.new.items ≡ out.old.items ++ assigns_text space.now assigns.now) }
    ensures prefix { OnErr result (IsPrefix out.old.items out.new.items) }
{
    for assign in assigns.as_slice() {
        put_named(out, name_of(space, assign.attribute), &assign.value)?;
    }
    Ok(())
}

#[tactic(auto, unfolding(crate::specs::Printing::range_text), using(crate::proofs::Prefixes::same, crate::proofs::Prefixes::further))]
fn put_range(out: &mut Vec<u8>, name: &[u8], lo: i64, hi: i64) -> Result<(), Memory>
    ensures appends { OnOk result (out.new.items ≡ out.old.items ++ range_text name.now lo hi) }
    ensures prefix { OnErr result (IsPrefix out.old.items out.new.items) }
{
    put_bytes(out, b" ")?;
    put_bytes(out, name)?;
    put_bytes(out, b"=")?;
    put_signed(out, lo)?;
    put_bytes(out, b"..")?;
    put_signed(out, hi)
}

#[tactic(auto, using(crate::proofs::Prefixes::same, crate::proofs::Prefixes::further))]
fn put_term(out: &mut Vec<u8>, space: &Space, term: &Term) -> Result<(), Memory>
    ensures appends { OnOk result (out.new.items ≡ out.old.items ++ term_text space.now term.now) }
    ensures prefix { OnErr result (IsPrefix out.old.items out.new.items) }
{
    match term {
        Term::Equal { attribute, value } => { put_named(out, name_of(space, *attribute), value) }
        Term::Range { attribute, lo, hi } => {
            put_range(out, name_of(space, *attribute), *lo, *hi)
        }
    }
}

/// Appends each term with a blank before it.
#[tactic(auto, using(crate::proofs::Prefixes::same, crate::proofs::Prefixes::further))]
pub fn put_terms(out: &mut Vec<u8>, space: &Space, terms: &Terms) -> Result<(), Memory>
    ensures appends { OnOk result (out.new.items ≡ out.old.items ++ terms_text space.now terms.now) }
    ensures prefix { OnErr result (IsPrefix out.old.items out.new.items) }
{
    for term in terms.as_slice() {
        put_term(out, space, term)?;
    }
    Ok(())
}

#[tactic(auto, unfolding(crate::specs::Printing::cput_text), using(crate::proofs::Prefixes::same, crate::proofs::Prefixes::further))]
fn put_cput(
    out: &mut Vec<u8>,
    space: &Space,
    key: &Text,
    tests: &Assigns,
    sets: &Assigns,
) -> Result<(), Memory>
    ensures appends { OnOk result
        (out.new.items ≡ out.old.items ++ cput_text space.now key.now tests.now sets.now) }
    ensures prefix { OnErr result (IsPrefix out.old.items out.new.items) }
{
    put_bytes(out, b"cput ")?;
    put_text(out, key)?;
    put_bytes(out, b" if")?;
    put_assigns(out, space, tests)?;
    put_bytes(out, b" set")?;
    put_assigns(out, space, sets)
}

#[tactic(auto, unfolding(crate::specs::Printing::add_text), using(crate::proofs::Prefixes::same, crate::proofs::Prefixes::further))]
fn put_add(out: &mut Vec<u8>, server: ServerId, region: RegionId) -> Result<(), Memory>
    ensures appends { OnOk result (out.new.items ≡ out.old.items ++ add_text server region) }
    ensures prefix { OnErr result (IsPrefix out.old.items out.new.items) }
{
    put_bytes(out, b"add ")?;
    put_number(out, u64::from(server.0))?;
    put_bytes(out, b" ")?;
    put_number(out, u64::from(region.0))
}

fn edit_word(what: EditKind) -> &'static [u8]
    ensures { result.now ≡ edit_word what }
{
    match what {
        EditKind::Add => b"add".as_slice(),
        EditKind::Append => b"append".as_slice(),
        EditKind::Min => b"min".as_slice(),
        EditKind::Max => b"max".as_slice(),
    }
}

#[tactic(auto, unfolding(crate::specs::Printing::edit_text), using(crate::proofs::Prefixes::same, crate::proofs::Prefixes::further))]
fn put_edit(out: &mut Vec<u8>, space: &Space, edit: &Edit) -> Result<(), Memory>
    ensures appends { OnOk result (out.new.items ≡ out.old.items ++ edit_text space.now edit.now) }
    ensures prefix { OnErr result (IsPrefix out.old.items out.new.items) }
{
    put_bytes(out, b" ")?;
    put_bytes(out, edit_word(edit.what))?;
    put_named(out, name_of(space, edit.attribute), &edit.value)
}

/// Appends each edit with a blank before it.
#[tactic(auto, using(crate::proofs::Prefixes::same, crate::proofs::Prefixes::further))]
pub(crate) fn put_edits(out: &mut Vec<u8>, space: &Space, edits: &Edits) -> Result<(), Memory>
    ensures appends { OnOk result (out.new.items ≡ out.old.items ++ edits_text space.now edits.now) }
    ensures prefix { OnErr result (IsPrefix out.old.items out.new.items) }
{
    for edit in edits.as_slice() {
        put_edit(out, space, edit)?;
    }
    Ok(())
}

/// Appends a call without a newline. It fails for want of memory alone, and then what was there
/// stays in front.
#[tactic(auto, unfolding(crate::specs::Printing::op_text), using(crate::proofs::Prefixes::same, crate::proofs::Prefixes::further))]
pub fn put_op(out: &mut Vec<u8>, space: &Space, op: &Op) -> Result<(), Memory>
    ensures appends { OnOk result (out.new.items ≡ out.old.items ++ op_text space.now op.now) }
    ensures prefix { OnErr result (IsPrefix out.old.items out.new.items) }
{
    match op {
        Op::Put { key, sets } => {
            put_bytes(out, b"put ")?;
            put_text(out, key)?;
            put_assigns(out, space, sets)
        }
        Op::Get { key } => {
            put_bytes(out, b"get ")?;
            put_text(out, key)
        }
        Op::Del { key } => {
            put_bytes(out, b"del ")?;
            put_text(out, key)
        }
        Op::Cput { key, tests, sets } => put_cput(out, space, key, tests, sets),
        Op::Search { terms } => {
            put_bytes(out, b"search")?;
            put_terms(out, space, terms)
        }
        Op::Stop { server } => {
            put_bytes(out, b"stop ")?;
            put_number(out, u64::from(server.0))
        }
        Op::Add { server, region } => put_add(out, *server, *region),
        Op::Atomic { key, edits } => {
            put_bytes(out, b"atomic ")?;
            put_text(out, key)?;
            put_edits(out, space, edits)
        }
    }
}

/// The call as [`crate::print`] writes it, without a newline. It fails for want of memory alone.
pub fn print_op(alloc: Global, space: &Space, op: &Op) -> Result<Vec<u8>, Memory>
    ensures { IfOk result (λ bytes. bytes.items ≡ op_text space.now op.now) }
{
    let mut out = Vec::new(alloc);
    put_op(&mut out, space, op)?;
    Ok(out)
}
