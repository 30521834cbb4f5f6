//! The call that a draw stands for.

ghost use Rattle.std.specs.Prelude.{◌≡◌, ◌++◌, ◌∷◌, [], IfOk, OnOk};
ghost use Rattle.std.specs.Fmt.{decimal};
ghost use Rattle.std.specs.String.{string_bytes};
ghost use Rattle.hx_types.specs.declared.calls.Op.TheVariants as an_op;
ghost use Rattle.hx_soak.specs.Calling.{call_drawn, color_drawn, key_drawn, size_drawn, sizes_drawn};

use hx_types::{Assign, Assigns, Memory, Op, Term, Terms, Text, Value};
use itoa::Buffer;
use std::alloc::Global;

/// The call of a session that a draw stands for: of eight, four are puts, and one each is a get, a
/// del, a conditional put and a search.
pub fn call_drawn(alloc: Global, session: u32, draw: u64) -> Result<Op, Memory>
    ensures { IfOk result (λ op. op ≡ call_drawn session draw) }
{
    match (draw >> 8) % 8 {
        0..=3 => put_drawn(alloc, session, draw),
        4 => Ok(Op::Get {
            key: key_drawn(alloc, session, draw)?,
        }),
        5 => Ok(Op::Del {
            key: key_drawn(alloc, session, draw)?,
        }),
        6 => cput_drawn(alloc, session, draw),
        _ => Ok(Op::Search {
            terms: sizes(alloc, draw)?,
        }),
    }
}

/// A put of a color and a size.
fn put_drawn(alloc: Global, session: u32, draw: u64) -> Result<Op, Memory>
    ensures { IfOk result (λ op. op ≡ an_op.Put (key_drawn session draw) (color_drawn draw ∷ size_drawn draw ∷ [])) }
{
    let key = key_drawn(alloc, session, draw)?;
    let sets = color_and_size(alloc, draw)?;
    Ok(Op::Put { key, sets })
}

/// A put of a size where the color is the drawn one.
fn cput_drawn(alloc: Global, session: u32, draw: u64) -> Result<Op, Memory>
    ensures { IfOk result (λ op. op ≡ an_op.Cput (key_drawn session draw) (color_drawn draw ∷ []) (size_drawn draw ∷ [])) }
{
    let key = key_drawn(alloc, session, draw)?;
    let tests = one(alloc, color_drawn(alloc, draw)?)?;
    let sets = one(alloc, size_drawn(draw))?;
    Ok(Op::Cput { key, tests, sets })
}

/// One of the 64 keys of a session.
fn key_drawn(alloc: Global, session: u32, draw: u64) -> Result<Text, Memory>
    ensures { IfOk result (λ key. key ≡ key_drawn session draw) }
{
    let mut text = String::new(alloc);
    put_numbered(&mut text, "s", u64::from(session))?;
    put_numbered(&mut text, "k", draw % 64)?;
    Text::from_string(text)
}

/// Appends a name and a number.
fn put_numbered(text: &mut String, name: &str, number: u64) -> Result<(), Memory>
    ensures { OnOk result (string_bytes text.new ≡ string_bytes text.old ++ name.now ++ decimal number) }
{
    text.push_str(name)?;
    text.push_str(Buffer::new().format(number))?;
    Ok(())
}

/// One of four colors, for attribute 1.
fn color_drawn(alloc: Global, draw: u64) -> Result<Assign, Memory>
    ensures { IfOk result (λ assign. assign ≡ color_drawn draw) }
{
    let mut text = String::new(alloc);
    put_numbered(&mut text, "c", (draw >> 16) % 4)?;
    Ok(Assign {
        attribute: 1,
        value: Value::Text(Text::from_string(text)?),
    })
}

/// A size from 0 to 999, for attribute 2. It takes no memory.
fn size_drawn(draw: u64) -> Assign
    ensures { result ≡ size_drawn draw }
{
    Assign {
        attribute: 2,
        value: Value::Int(((draw >> 24) % 1000) as i64),
    }
}

fn one(alloc: Global, assign: Assign) -> Result<Assigns, Memory>
    ensures { IfOk result (λ assigns. assigns ≡ assign ∷ []) }
{
    let mut assigns = Assigns::new(alloc);
    assigns.push(assign)?;
    Ok(assigns)
}

fn color_and_size(alloc: Global, draw: u64) -> Result<Assigns, Memory>
    ensures { IfOk result (λ assigns. assigns ≡ color_drawn draw ∷ size_drawn draw ∷ []) }
{
    let mut assigns = one(alloc, color_drawn(alloc, draw)?)?;
    assigns.push(size_drawn(draw))?;
    Ok(assigns)
}

/// A hundred sizes in a row.
fn sizes(alloc: Global, draw: u64) -> Result<Terms, Memory>
    ensures { IfOk result (λ terms. terms ≡ sizes_drawn draw ∷ []) }
{
    let lo = ((draw >> 24) % 900) as i64;
    let mut terms = Terms::new(alloc);
    terms.push(Term::Range {
        attribute: 2,
        lo,
        hi: lo + 99,
    })?;
    Ok(terms)
}
