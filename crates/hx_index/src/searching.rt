ghost use Rattle.std.specs.Prelude.{◌≡◌, ◌<◌, ◌≤◌, ◌+◌, ◌-◌, IfOk, IsSome, if◌then◌else◌, length, nat_lt};
ghost use Rattle.std.specs.List.{All, filter};
ghost use Rattle.hx_types.specs.Spaces.{attribute_of};
ghost use Rattle.hx_index.specs.Invariant.{IsEnd, is_part};
ghost use Rattle.hx_index.specs.Looks.{HaveCounted, digits_of};
ghost use Rattle.hx_index.specs.Orders.{IsOrder};
ghost use Rattle.hx_index.specs.Sides.{matches_at, side_at};

use crate::looking::{Ids, Look, Side};
use hx_types::{Memory, Term, Terms};
use std::alloc::Global;

/// Part of the order of an attribute, from the first place to the end.
#[derive(Clone, Copy)]
pub struct Span {
    pub attribute: usize,
    pub first: u32,
    pub end: u32,
}

/// The part with fewer numbers, the other one where they have as many.
pub fn shorter(one: Span, other: Span) -> Span
    requires one { one.first ≤ one.end }
    requires other { other.first ≤ other.end }
    ensures { result ≡ (if nat_lt (one.end - one.first) (other.end - other.first) then one else other) }
{
    if one.end - one.first < other.end - other.first {
        one
    } else {
        other
    }
}

/// Whether a value stands before those that meet a term, or with `past` before those above.
fn is_part(past: bool, side: Side) -> bool
    ensures { result ≡ is_part past side }
{
    match side {
        Side::Below => true,
        Side::Meets => past,
        Side::Above => false,
    }
}

/// How many numbers of an order stand before those that meet a term, or with `past` before those
/// above. A look halves what is left.
pub fn end_of_part<L: Look>(order: &[u32], look: &mut L, term: &Term, past: bool) -> usize
    requires order { IsOrder (L.rows look.old) (attribute_of term.now) order.now }
    requires value { 0 < attribute_of term.now }
    ensures end { IsEnd (λ i. is_part past (side_at (L.rows look.old) term.now i)) order.now result }
    ensures rows { L.rows look.new ≡ L.rows look.old }
    ensures counted { L.looks look.old ≤ L.looks look.new }
    ensures looks { L.looks look.new ≤ L.looks look.old + digits_of (length order.now) }
{
    let mut low = 0;
    let mut high = order.len();
    while low < high {
        let middle = low + (high - low) / 2;
        let side = look.side(order[middle], term);
        if is_part(past, side) {
            low = middle + 1;
        } else {
            high = middle;
        }
    }
    low
}

/// Those of the numbers at whose objects every term holds. It looks at each once.
#[tactic(auto, using(crate::proofs::Halving::counted_one))]
pub fn matching<L: Look>(
    alloc: Global,
    numbers: &[u32],
    look: &mut L,
    terms: &Terms,
) -> Result<Ids, Memory>
    requires { All (λ i. IsSome (L.rows look.old i)) numbers.now }
    ensures found { IfOk result (λ ids. ids.items ≡ filter (matches_at (L.rows look.old) terms.now) numbers.now) }
    ensures rows { L.rows look.new ≡ L.rows look.old }
    ensures counted { L.looks look.old ≤ L.looks look.new }
    ensures looks { L.looks look.new ≤ L.looks look.old + length numbers.now }
    ensures each { IfOk result (λ ids. HaveCounted (length numbers.now) (L.looks look.old) (L.looks look.new)) }
{
    let mut found = Vec::new(alloc);
    for id in numbers {
        if look.matches(*id, terms) {
            found.push(*id)?;
        }
    }
    Ok(found)
}
