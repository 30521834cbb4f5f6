//! Names of a space in a line.

ghost use Rattle.std.specs.Prelude.{◌≡◌, ◌≤◌, length, IfSome, ◌<◌};
ghost use Rattle.std.specs.Str.{bytes_eq};
ghost use Rattle.hx_types.specs.Subspaces.{kind_at};
ghost use Rattle.hx_types.specs.declared.limits.TheConstants.{MOST_ATTRIBUTES};
ghost use Rattle.hx_script.specs.Readers.{Reads, Gives};
ghost use Rattle.hx_script.specs.Words.{named, name, new_name, has_attribute, is_declared, place_of, declared_number, known_number};

use crate::errors::{Reason, Stop};
use crate::keyword::is;
use crate::line::Line;
use hx_types::{Attribute, Kind, Space};

/// A word that stands where a name is wanted.
#[tactic(auto, unfolding(crate::specs::Words::named))]
pub(crate) fn named<'a>(line: &mut Line<'a>) -> Result<&'a str, Stop>
    ensures { Reads (λ w. w.now) result line.new (named line.old) }
{
    let word = line.word()?;
    if is(word.as_bytes(), b"if") || is(word.as_bytes(), b"set") {
        return Err(Stop::Fault(Reason::Order));
    }
    Ok(word)
}

/// The name of something new, where no other name is in the way.
#[tactic(auto, unfolding(crate::specs::Words::name))]
pub(crate) fn name<'a>(line: &mut Line<'a>) -> Result<&'a str, Stop>
    ensures { Reads (λ w. w.now) result line.new (name line.old) }
{
    let word = named(line)?;
    if word.len() > 32 {
        return Err(Stop::Fault(Reason::Limit));
    }
    Ok(word)
}

fn is_named(attribute: &Attribute, name: &str) -> bool
    ensures { result ≡ bytes_eq attribute.now.name name.now }
{
    attribute.name.as_bytes() == name.as_bytes()
}

fn has_attribute(space: &Space, name: &str) -> bool
    ensures { result ≡ has_attribute space.now name.now }
{
    space
        .attributes
        .as_slice()
        .iter()
        .any(|a| is_named(a, name))
}

/// Whether the key or an attribute has that name.
fn is_declared(space: &Space, name: &str) -> bool
    ensures { result ≡ is_declared space.now name.now }
{
    space.key_name.as_bytes() == name.as_bytes() || has_attribute(space, name)
}

/// A name that nothing declared has.
#[tactic(auto, unfolding(crate::specs::Words::new_name))]
pub(crate) fn new_name<'a>(space: &Space, line: &mut Line<'a>) -> Result<&'a str, Stop>
    ensures { Reads (λ w. w.now) result line.new (new_name space.now line.old) }
{
    let word = named(line)?;
    if is_declared(space, word) {
        return Err(Stop::Fault(Reason::Twice));
    }
    if word.len() > 32 {
        return Err(Stop::Fault(Reason::Limit));
    }
    Ok(word)
}

/// The place of a declared attribute, from 0.
fn place_of(space: &Space, name: &str) -> Option<usize>
    ensures place { result ≡ place_of space.now name.now }
    ensures within { IfSome result (λ place. place < length space.now.attributes) }
{
    space
        .attributes
        .as_slice()
        .iter()
        .position(|a| is_named(a, name))
}

/// The number of a declared attribute, from 1.
pub(crate) fn declared_number(space: &Space, name: &str) -> Result<u32, Stop>
    requires few { length space.now.attributes ≤ MOST_ATTRIBUTES }
    ensures { Gives (λ a. a) result (declared_number space.now name.now) }
{
    match place_of(space, name) {
        None => Err(Stop::Fault(Reason::Unknown)),
        Some(place) => Ok(place as u32 + 1),
    }
}

/// The number of a declared attribute, or 0 for the key.
pub(crate) fn known_number(space: &Space, name: &str) -> Result<u32, Stop>
    requires few { length space.now.attributes ≤ MOST_ATTRIBUTES }
    ensures { Gives (λ a. a) result (known_number space.now name.now) }
{
    if space.key_name.as_bytes() == name.as_bytes() {
        return Ok(0);
    }
    declared_number(space, name)
}

/// The kind of an attribute; the key's is a text.
pub(crate) fn kind_at(space: &Space, attribute: u32) -> Kind
    ensures { result ≡ kind_at space.now attribute }
{
    if attribute == 0 {
        return Kind::Text;
    }
    match space.attributes.get(attribute as usize - 1) {
        Some(a) => a.kind,
        None => Kind::Text,
    }
}
