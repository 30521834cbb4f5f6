//! The lines of a space.

ghost use Rattle.std.specs.Prelude.{◌≡◌, ◌++◌, IfOk, OnErr, OnOk};
ghost use Rattle.std.specs.List.{flat_map};
ghost use Rattle.hx_print.specs.Prefixes.{IsPrefix};
ghost use Rattle.hx_print.specs.Printing.{attribute_line, axes_text, axis_text, bounds_text, int_line, key_line, next_axis_text, servers_line, space_line, space_text, string_line, subspace_line, tolerate_line};

use crate::calls::name_of;
use crate::numbers::{put_number, put_signed};
use crate::texts::put_bytes;
use hx_types::{Attribute, Attributes, Axes, Axis, Kind, Memory, Space, Subspaces};
use std::alloc::Global;

#[tactic(auto, unfolding(crate::specs::Printing::string_line), using(crate::proofs::Prefixes::same, crate::proofs::Prefixes::further))]
fn put_string(out: &mut Vec<u8>, name: &[u8]) -> Result<(), Memory>
    ensures appends { OnOk result (out.new.items ≡ out.old.items ++ string_line name.now) }
    ensures prefix { OnErr result (IsPrefix out.old.items out.new.items) }
{
    put_bytes(out, b"string ")?;
    put_bytes(out, name)?;
    put_bytes(out, b"\n")
}

#[tactic(auto, unfolding(crate::specs::Printing::bounds_text), using(crate::proofs::Prefixes::same, crate::proofs::Prefixes::further))]
fn put_bounds(out: &mut Vec<u8>, lo: i64, hi: i64) -> Result<(), Memory>
    ensures appends { OnOk result (out.new.items ≡ out.old.items ++ bounds_text lo hi) }
    ensures prefix { OnErr result (IsPrefix out.old.items out.new.items) }
{
    put_bytes(out, b" ")?;
    put_signed(out, lo)?;
    put_bytes(out, b" ")?;
    put_signed(out, hi)
}

#[tactic(auto, unfolding(crate::specs::Printing::int_line), using(crate::proofs::Prefixes::same, crate::proofs::Prefixes::further))]
fn put_int(out: &mut Vec<u8>, name: &[u8], lo: i64, hi: i64) -> Result<(), Memory>
    ensures appends { OnOk result (out.new.items ≡ out.old.items ++ int_line name.now lo hi) }
    ensures prefix { OnErr result (IsPrefix out.old.items out.new.items) }
{
    put_bytes(out, b"int ")?;
    put_bytes(out, name)?;
    put_bounds(out, lo, hi)?;
    put_bytes(out, b"\n")
}

#[tactic(auto, using(crate::proofs::Prefixes::same, crate::proofs::Prefixes::further))]
fn put_attribute(out: &mut Vec<u8>, attribute: &Attribute) -> Result<(), Memory>
    ensures appends { OnOk result (out.new.items ≡ out.old.items ++ attribute_line attribute.now) }
    ensures prefix { OnErr result (IsPrefix out.old.items out.new.items) }
{
    match &attribute.kind {
        Kind::Text => put_string(out, attribute.name.as_bytes()),
        Kind::Int { lo, hi } => put_int(out, attribute.name.as_bytes(), *lo, *hi),
    }
}

#[tactic(auto, using(crate::proofs::Prefixes::same, crate::proofs::Prefixes::further))]
pub(crate) fn put_attributes(out: &mut Vec<u8>, all: &Attributes) -> Result<(), Memory>
    ensures appends { OnOk result (out.new.items ≡ out.old.items ++ flat_map attribute_line all.now) }
    ensures prefix { OnErr result (IsPrefix out.old.items out.new.items) }
{
    for attribute in all.as_slice() {
        put_attribute(out, attribute)?;
    }
    Ok(())
}

#[tactic(auto, unfolding(crate::specs::Printing::axis_text), using(crate::proofs::Prefixes::same, crate::proofs::Prefixes::further))]
fn put_axis(out: &mut Vec<u8>, space: &Space, axis: &Axis) -> Result<(), Memory>
    ensures appends { OnOk result (out.new.items ≡ out.old.items ++ axis_text space.now axis.now) }
    ensures prefix { OnErr result (IsPrefix out.old.items out.new.items) }
{
    put_bytes(out, name_of(space, axis.attribute))?;
    put_bytes(out, b" ")?;
    put_number(out, u64::from(axis.parts))
}

#[tactic(auto, unfolding(crate::specs::Printing::next_axis_text), using(crate::proofs::Prefixes::same, crate::proofs::Prefixes::further))]
fn put_next_axes(out: &mut Vec<u8>, space: &Space, axes: &[Axis]) -> Result<(), Memory>
    ensures appends { OnOk result
        (out.new.items ≡ out.old.items ++ flat_map (next_axis_text space.now) axes.now) }
    ensures prefix { OnErr result (IsPrefix out.old.items out.new.items) }
{
    for axis in axes {
        put_bytes(out, b", ")?;
        put_axis(out, space, axis)?;
    }
    Ok(())
}

#[tactic(auto, unfolding(crate::specs::Printing::axes_text), using(crate::proofs::Prefixes::same, crate::proofs::Prefixes::further))]
fn put_axes(out: &mut Vec<u8>, space: &Space, axes: &[Axis]) -> Result<(), Memory>
    ensures appends { OnOk result (out.new.items ≡ out.old.items ++ axes_text space.now axes.now) }
    ensures prefix { OnErr result (IsPrefix out.old.items out.new.items) }
{
    match axes.split_first() {
        None => Ok(()),
        Some((first, rest)) => {
            put_bytes(out, b" ")?;
            put_axis(out, space, first)?;
            put_next_axes(out, space, rest)
        }
    }
}

#[tactic(auto, unfolding(crate::specs::Printing::subspace_line), using(crate::proofs::Prefixes::same, crate::proofs::Prefixes::further))]
fn put_subspace(out: &mut Vec<u8>, space: &Space, axes: &Axes) -> Result<(), Memory>
    ensures appends { OnOk result (out.new.items ≡ out.old.items ++ subspace_line space.now axes.now) }
    ensures prefix { OnErr result (IsPrefix out.old.items out.new.items) }
{
    put_bytes(out, b"subspace")?;
    put_axes(out, space, axes.as_slice())?;
    put_bytes(out, b"\n")
}

#[tactic(auto, using(crate::proofs::Prefixes::same, crate::proofs::Prefixes::further))]
pub(crate) fn put_subspaces(out: &mut Vec<u8>, space: &Space, all: &Subspaces) -> Result<(), Memory>
    ensures appends { OnOk result
        (out.new.items ≡ out.old.items ++ flat_map (subspace_line space.now) all.now) }
    ensures prefix { OnErr result (IsPrefix out.old.items out.new.items) }
{
    for axes in all.as_slice() {
        put_subspace(out, space, axes)?;
    }
    Ok(())
}

#[tactic(auto, unfolding(crate::specs::Printing::space_line), using(crate::proofs::Prefixes::same, crate::proofs::Prefixes::further))]
pub(crate) fn put_space_line(out: &mut Vec<u8>, name: &[u8]) -> Result<(), Memory>
    ensures appends { OnOk result (out.new.items ≡ out.old.items ++ space_line name.now) }
    ensures prefix { OnErr result (IsPrefix out.old.items out.new.items) }
{
    put_bytes(out, b"space ")?;
    put_bytes(out, name)?;
    put_bytes(out, b"\n")
}

#[tactic(auto, unfolding(crate::specs::Printing::key_line), using(crate::proofs::Prefixes::same, crate::proofs::Prefixes::further))]
pub(crate) fn put_key_line(out: &mut Vec<u8>, name: &[u8], parts: u32) -> Result<(), Memory>
    ensures appends { OnOk result (out.new.items ≡ out.old.items ++ key_line name.now parts) }
    ensures prefix { OnErr result (IsPrefix out.old.items out.new.items) }
{
    put_bytes(out, b"key ")?;
    put_bytes(out, name)?;
    put_bytes(out, b" ")?;
    put_number(out, u64::from(parts))?;
    put_bytes(out, b"\n")
}

#[tactic(auto, unfolding(crate::specs::Printing::servers_line), using(crate::proofs::Prefixes::same, crate::proofs::Prefixes::further))]
pub(crate) fn put_servers_line(out: &mut Vec<u8>, servers: u32) -> Result<(), Memory>
    ensures appends { OnOk result (out.new.items ≡ out.old.items ++ servers_line servers) }
    ensures prefix { OnErr result (IsPrefix out.old.items out.new.items) }
{
    put_bytes(out, b"servers ")?;
    put_number(out, u64::from(servers))?;
    put_bytes(out, b"\n")
}

#[tactic(auto, unfolding(crate::specs::Printing::tolerate_line), using(crate::proofs::Prefixes::same, crate::proofs::Prefixes::further))]
pub(crate) fn put_tolerate_line(out: &mut Vec<u8>, tolerate: u32) -> Result<(), Memory>
    ensures appends { OnOk result (out.new.items ≡ out.old.items ++ tolerate_line tolerate) }
    ensures prefix { OnErr result (IsPrefix out.old.items out.new.items) }
{
    put_bytes(out, b"tolerate ")?;
    put_number(out, u64::from(tolerate))?;
    put_bytes(out, b"\n")
}

/// Appends the lines from `space` to `tolerate`. It fails for want of memory alone, and then what
/// was there stays in front.
#[tactic(auto, unfolding(crate::specs::Printing::space_text), using(crate::proofs::Prefixes::same, crate::proofs::Prefixes::further))]
pub fn put_space(out: &mut Vec<u8>, space: &Space) -> Result<(), Memory>
    ensures appends { OnOk result (out.new.items ≡ out.old.items ++ space_text space.now) }
    ensures prefix { OnErr result (IsPrefix out.old.items out.new.items) }
{
    put_space_line(out, space.name.as_bytes())?;
    put_key_line(out, space.key_name.as_bytes(), space.key_parts)?;
    put_attributes(out, &space.attributes)?;
    put_subspaces(out, space, &space.subspaces)?;
    put_servers_line(out, space.servers)?;
    put_tolerate_line(out, space.tolerate)
}

/// The lines from `space` to `tolerate`. It fails for want of memory alone.
pub fn print_space(alloc: Global, space: &Space) -> Result<Vec<u8>, Memory>
    ensures { IfOk result (λ bytes. bytes.items ≡ space_text space.now) }
{
    let mut out = Vec::new(alloc);
    put_space(&mut out, space)?;
    Ok(out)
}
