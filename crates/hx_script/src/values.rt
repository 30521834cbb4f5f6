//! Values, assignments and terms in a line.

ghost use Rattle.std.specs.Prelude.{◌≡◌, [], ◌≤◌, length};
ghost use Rattle.hx_types.specs.Spaces.{attribute_of};
ghost use Rattle.hx_types.specs.declared.limits.TheConstants.{MOST_ATTRIBUTES};
ghost use Rattle.hx_script.specs.Readers.{Reads};
ghost use Rattle.hx_script.specs.Values.{short_text, value, has_assign, free_attribute, assign, more_assigns, some_assigns, has_term, free_known, range, rest_of_term, term, all_terms};

use crate::errors::{Reason, Stop};
use crate::line::{Line, Part, Until};
use crate::words::{declared_number, kind_at, known_number, named};
use hx_types::{Assign, Assigns, Exact, Kind, LONGEST_TEXT, Space, Term, Terms, Text, Value};
use std::alloc::Global;

/// A text of at most 1,024 bytes.
#[tactic(auto, unfolding(crate::specs::Values::short_text))]
pub(crate) fn short_text(alloc: Global, line: &mut Line<'_>) -> Result<Text, Stop>
    ensures { Reads (λ t. t) result line.new (short_text line.old) }
{
    let text = line.text()?;
    if text.len() > LONGEST_TEXT {
        return Err(Stop::Fault(Reason::Limit));
    }
    Ok(text.copy(alloc)?)
}

/// A value of the kind.
#[tactic(auto, unfolding(crate::specs::Values::value))]
pub(crate) fn value(alloc: Global, kind: Kind, line: &mut Line<'_>) -> Result<Value, Stop>
    ensures { Reads (λ v. v) result line.new (value kind line.old) }
{
    match line.next() {
        Some(Part::Number(n)) => match kind {
            Kind::Int { .. } => Ok(Value::Int(n)),
            Kind::Text => Err(Stop::Fault(Reason::TypeOf)),
        },
        Some(Part::Text(text)) => match kind {
            Kind::Int { .. } => Err(Stop::Fault(Reason::TypeOf)),
            Kind::Text if text.len() > LONGEST_TEXT => Err(Stop::Fault(Reason::Limit)),
            Kind::Text => Ok(Value::Text(text.copy(alloc)?)),
        },
        _ => Err(Stop::Fault(Reason::Order)),
    }
}

fn has_assign(assigns: &Assigns, attribute: u32) -> bool
    ensures { result ≡ has_assign assigns.now attribute }
{
    assigns
        .as_slice()
        .iter()
        .any(|assign| assign.attribute == attribute)
}

/// A declared attribute that isn't assigned yet, by its name.
#[tactic(auto, unfolding(crate::specs::Values::free_attribute))]
fn free_attribute(space: &Space, assigns: &Assigns, line: &mut Line<'_>) -> Result<u32, Stop>
    requires few { length space.now.attributes ≤ MOST_ATTRIBUTES }
    ensures { Reads (λ a. a) result line.new (free_attribute space.now assigns.now line.old) }
{
    let word = named(line)?;
    let attribute = declared_number(space, word)?;
    if has_assign(assigns, attribute) {
        return Err(Stop::Fault(Reason::Twice));
    }
    Ok(attribute)
}

/// One assignment.
#[tactic(auto, unfolding(crate::specs::Values::assign))]
fn assign(
    alloc: Global,
    space: &Space,
    assigns: &Assigns,
    line: &mut Line<'_>,
) -> Result<Assign, Stop>
    requires few { length space.now.attributes ≤ MOST_ATTRIBUTES }
    ensures { Reads (λ a. a) result line.new (assign space.now assigns.now line.old) }
{
    let attribute = free_attribute(space, assigns, line)?;
    line.sign(b"=")?;
    let value = value(alloc, kind_at(space, attribute), line)?;
    Ok(Assign { attribute, value })
}

/// More assignments behind those that are there.
#[tactic(auto, using(crate::proofs::Assigning::assigns_go_on, crate::proofs::Assigning::assign_shrinks, crate::proofs::Assigning::assigns_end))]
pub(crate) fn more_assigns(
    alloc: Global,
    space: &Space,
    until: Until,
    assigns: &mut Assigns,
    line: &mut Line<'_>,
) -> Result<(), Stop>
    requires few { length space.now.attributes ≤ MOST_ATTRIBUTES }
    ensures { Reads (λ _. assigns.new) result line.new (more_assigns space.now until assigns.old line.old) }
{
    'assigns: while !line.is_at(until) {
        let assign = assign(alloc, space, assigns, line)?;
        assigns.push(assign)?;
    }
    Ok(())
}

/// One assignment or more, into an empty list.
#[tactic(auto, unfolding(crate::specs::Values::some_assigns, crate::specs::Values::one_more))]
pub(crate) fn some_assigns(
    alloc: Global,
    space: &Space,
    until: Until,
    assigns: &mut Assigns,
    line: &mut Line<'_>,
) -> Result<(), Stop>
    requires few { length space.now.attributes ≤ MOST_ATTRIBUTES }
    requires empty { assigns.old ≡ [] }
    ensures { Reads (λ _. assigns.new) result line.new (some_assigns space.now until line.old) }
{
    let first = assign(alloc, space, assigns, line)?;
    assigns.push(first)?;
    more_assigns(alloc, space, until, assigns, line)
}

fn attribute_of(term: &Term) -> u32
    ensures { result ≡ attribute_of term.now }
{
    match term {
        Term::Equal { attribute, .. } | Term::Range { attribute, .. } => *attribute,
    }
}

fn has_term(terms: &Terms, attribute: u32) -> bool
    ensures { result ≡ has_term terms.now attribute }
{
    terms
        .as_slice()
        .iter()
        .any(|term| attribute_of(term) == attribute)
}

/// The key or a declared attribute of which nothing is asked yet, by its name.
#[tactic(auto, unfolding(crate::specs::Values::free_known))]
fn free_known(space: &Space, terms: &Terms, line: &mut Line<'_>) -> Result<u32, Stop>
    requires few { length space.now.attributes ≤ MOST_ATTRIBUTES }
    ensures { Reads (λ a. a) result line.new (free_known space.now terms.now line.old) }
{
    let word = named(line)?;
    let attribute = known_number(space, word)?;
    if has_term(terms, attribute) {
        return Err(Stop::Fault(Reason::Twice));
    }
    Ok(attribute)
}

#[tactic(auto, unfolding(crate::specs::Values::range))]
fn range(attribute: u32, lo: i64, line: &mut Line<'_>) -> Result<Term, Stop>
    ensures { Reads (λ t. t) result line.new (range attribute lo line.old) }
{
    line.sign(b"..")?;
    let hi = line.number_from(lo)?;
    Ok(Term::Range { attribute, lo, hi })
}

/// A term whose first value was read.
fn rest_of_term(attribute: u32, value: Value, line: &mut Line<'_>) -> Result<Term, Stop>
    ensures { Reads (λ t. t) result line.new (rest_of_term attribute value line.old) }
{
    match &value {
        Value::Int(lo) if line.is_at_dots() => range(attribute, *lo, line),
        _ => Ok(Term::Equal { attribute, value }),
    }
}

/// One term.
#[tactic(auto, unfolding(crate::specs::Values::term))]
fn term(alloc: Global, space: &Space, terms: &Terms, line: &mut Line<'_>) -> Result<Term, Stop>
    requires few { length space.now.attributes ≤ MOST_ATTRIBUTES }
    ensures { Reads (λ t. t) result line.new (term space.now terms.now line.old) }
{
    let attribute = free_known(space, terms, line)?;
    line.sign(b"=")?;
    let value = value(alloc, kind_at(space, attribute), line)?;
    rest_of_term(attribute, value, line)
}

/// Terms up to the end of the line, into an empty list.
#[tactic(auto, using(crate::proofs::Asking::terms_go_on, crate::proofs::Asking::term_shrinks, crate::proofs::Asking::terms_end))]
pub(crate) fn all_terms(
    alloc: Global,
    space: &Space,
    terms: &mut Terms,
    line: &mut Line<'_>,
) -> Result<(), Stop>
    requires few { length space.now.attributes ≤ MOST_ATTRIBUTES }
    requires empty { terms.old ≡ [] }
    ensures { Reads (λ _. terms.new) result line.new (all_terms space.now line.old) }
{
    'terms: while !line.is_at(Until::End) {
        let term = term(alloc, space, terms, line)?;
        terms.push(term)?;
    }
    Ok(())
}
