//! Texts in quotes, and values.

ghost use Rattle.std.specs.Prelude.{◌≡◌, ◌++◌, IfOk, OnErr, OnOk};
ghost use Rattle.std.specs.List.{flat_map, list_all};
ghost use Rattle.hx_print.specs.Plain.{is_plain};
ghost use Rattle.hx_print.specs.Prefixes.{IsPrefix};
ghost use Rattle.hx_print.specs.Printing.{escape, named_text, quoted, value_text};

use crate::numbers::put_signed;
use hx_types::{Memory, Text, Value};
use std::alloc::Global;

/// Appends bytes as they are. It fails for want of memory alone, and then what was there stays in
/// front.
#[tactic(auto, using(crate::proofs::Prefixes::same, crate::proofs::Prefixes::further))]
pub fn put_bytes(out: &mut Vec<u8>, bytes: &[u8]) -> Result<(), Memory>
    ensures appends { OnOk result (out.new.items ≡ out.old.items ++ bytes.now) }
    ensures prefix { OnErr result (IsPrefix out.old.items out.new.items) }
{
    out.extend_from_slice(bytes)?;
    Ok(())
}

#[tactic(auto, using(crate::proofs::Prefixes::same, crate::proofs::Prefixes::further))]
fn put_escaped(out: &mut Vec<u8>, byte: u8) -> Result<(), Memory>
    ensures appends { OnOk result (out.new.items ≡ out.old.items ++ escape byte) }
    ensures prefix { OnErr result (IsPrefix out.old.items out.new.items) }
{
    match byte {
        b'"' => put_bytes(out, b"\\\""),
        b'\\' => put_bytes(out, b"\\\\"),
        b'\n' => put_bytes(out, b"\\n"),
        b'\t' => put_bytes(out, b"\\t"),
        _ => put_bytes(out, &[byte]),
    }
}

/// Whether a byte stands between quotes as it is.
fn is_plain(byte: u8) -> bool
    ensures { result ≡ is_plain byte }
{
    !matches!(byte, b'"' | b'\\' | b'\n' | b'\t')
}

/// Whether all bytes stand between quotes as they are. It looks at all of them, since many are
/// looked at together.
fn are_plain(bytes: &[u8]) -> bool
    ensures { result ≡ list_all is_plain bytes.now }
{
    let mut are = true;
    for byte in bytes {
        are &= is_plain(*byte);
    }
    are
}

/// Appends the bytes of a text, as they stand between quotes: at once where all stand as they are.
#[tactic(auto, using(crate::proofs::Prefixes::same, crate::proofs::Prefixes::further))]
fn put_between(out: &mut Vec<u8>, bytes: &[u8]) -> Result<(), Memory>
    ensures appends { OnOk result (out.new.items ≡ out.old.items ++ flat_map escape bytes.now) }
    ensures prefix { OnErr result (IsPrefix out.old.items out.new.items) }
{
    if are_plain(bytes) {
        return put_bytes(out, bytes);
    }
    for byte in bytes {
        put_escaped(out, *byte)?;
    }
    Ok(())
}

/// Appends a text in quotes. It fails for want of memory alone, and then what was there stays in
/// front.
#[tactic(auto, unfolding(crate::specs::Printing::quoted), using(crate::proofs::Prefixes::same, crate::proofs::Prefixes::further))]
pub fn put_text(out: &mut Vec<u8>, text: &Text) -> Result<(), Memory>
    ensures appends { OnOk result (out.new.items ≡ out.old.items ++ quoted text.now) }
    ensures prefix { OnErr result (IsPrefix out.old.items out.new.items) }
{
    put_bytes(out, b"\"")?;
    put_between(out, text.as_bytes())?;
    put_bytes(out, b"\"")
}

/// Appends a value: a text in quotes or a number.
#[tactic(auto, unfolding(crate::specs::Printing::value_text), using(crate::proofs::Prefixes::same, crate::proofs::Prefixes::further))]
pub fn put_value(out: &mut Vec<u8>, value: &Value) -> Result<(), Memory>
    ensures appends { OnOk result (out.new.items ≡ out.old.items ++ value_text value.now) }
    ensures prefix { OnErr result (IsPrefix out.old.items out.new.items) }
{
    match value {
        Value::Text(text) => put_text(out, text),
        Value::Int(number) => put_signed(out, *number),
    }
}

/// Appends a blank, the name, `=` and the value. It fails for want of memory alone, and then what
/// was there stays in front.
#[tactic(auto, unfolding(crate::specs::Printing::named_text), using(crate::proofs::Prefixes::same, crate::proofs::Prefixes::further))]
pub fn put_named(out: &mut Vec<u8>, name: &[u8], value: &Value) -> Result<(), Memory>
    ensures appends { OnOk result (out.new.items ≡ out.old.items ++ named_text name.now value.now) }
    ensures prefix { OnErr result (IsPrefix out.old.items out.new.items) }
{
    put_bytes(out, b" ")?;
    put_bytes(out, name)?;
    put_bytes(out, b"=")?;
    put_value(out, value)
}

/// The text in quotes, with `\"`, `\\`, `\n` and `\t` for the quote, the backslash, the newline
/// and the tab. It fails for want of memory alone.
pub fn print_text(alloc: Global, text: &Text) -> Result<Vec<u8>, Memory>
    ensures { IfOk result (λ bytes. bytes.items ≡ quoted text.now) }
{
    let mut out = Vec::new(alloc);
    put_text(&mut out, text)?;
    Ok(out)
}
