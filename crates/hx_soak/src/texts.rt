//! The lines of objects, and their hash.

ghost use Rattle.std.specs.Prelude.{◌≡◌, ◌++◌, map, OnOk, IfOk};
ghost use Rattle.hx_soak.specs.Present.{key_object};
ghost use Rattle.hx_soak.specs.Summing.{digest_line, hexadecimal, object_line, object_lines, objects_text};

use crate::counting::put_count;
use crate::objects::Present;
use hx_print::{put_bytes, put_text};
use hx_region::fnv;
use hx_report::put_object;
use hx_types::{Memory, Space};
use std::alloc::Global;

/// Appends the line of an object.
#[tactic(auto, unfolding(crate::specs::Summing::object_line))]
fn put_line(out: &mut Vec<u8>, space: &Space, present: &Present<'_>) -> Result<(), Memory>
    ensures { OnOk result (out.new.items ≡ out.old.items ++ object_line space.now (key_object present.now)) }
{
    put_text(out, present.key)?;
    put_object(out, &space.attributes, present.object)?;
    put_bytes(out, b"\n")
}

/// The lines of objects.
fn lines(alloc: Global, space: &Space, objects: &[Present<'_>]) -> Result<Vec<u8>, Memory>
    ensures { IfOk result (λ bytes. bytes.items ≡ object_lines space.now (map key_object objects.now)) }
{
    let mut out = Vec::new(alloc);
    for present in objects {
        put_line(&mut out, space, present)?;
    }
    Ok(out)
}

/// Appends a number in 16 hexadecimal digits.
fn put_hexadecimal(alloc: Global, out: &mut Vec<u8>, number: u64) -> Result<(), Memory>
    ensures { OnOk result (out.new.items ≡ out.old.items ++ hexadecimal number) }
{
    let digits = hex::encode(alloc, number.to_be_bytes())?;
    put_bytes(out, digits.as_bytes())
}

/// Appends the hash of the lines of objects.
#[tactic(auto, unfolding(crate::specs::Summing::digest_line))]
fn put_digest(
    alloc: Global,
    out: &mut Vec<u8>,
    space: &Space,
    objects: &[Present<'_>],
) -> Result<(), Memory>
    ensures { OnOk result (out.new.items ≡ out.old.items ++ digest_line space.now (map key_object objects.now)) }
{
    let lines = lines(alloc, space, objects)?;
    put_bytes(out, b"digest ")?;
    put_hexadecimal(alloc, out, fnv(&lines))?;
    put_bytes(out, b"\n")
}

/// Appends how many objects there are, and the hash of their lines.
#[tactic(auto, unfolding(crate::specs::Summing::objects_text))]
pub fn put_objects(
    alloc: Global,
    out: &mut Vec<u8>,
    space: &Space,
    objects: &[Present<'_>],
) -> Result<(), Memory>
    ensures { OnOk result (out.new.items ≡ out.old.items ++ objects_text space.now (map key_object objects.now)) }
{
    put_count(out, b"objects", objects.len() as u64)?;
    put_digest(alloc, out, space, objects)
}
