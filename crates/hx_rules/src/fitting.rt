ghost use Rattle.std.specs.Prelude.{◌≡◌, ◌↔◌, ◌<◌, ◌≤◌, ◌≢◌, IsTrue, length, map};
ghost use Rattle.std.specs.List.{All};
ghost use Rattle.hx_types.specs.Spaces.{AllDiffer, AssignFits, AssignsFit, EditFits, EditsFit, Fits, IsEditOf, IsAttribute, IsIntKind, IsOfKind, IsRegionOf, IsServerOf, KeyFits, TermFits, TermsFit, attribute_of};
ghost use Rattle.hx_types.specs.declared.values.Assign.{Assign};
ghost use Rattle.hx_types.specs.declared.values.Edit.{Edit};
ghost use Rattle.hx_types.specs.declared.values.Term.{Term};
ghost use Rattle.hx_types.specs.Spaces.{IsSpace};

use crate::starting::count_regions;
use hx_types::{
    Assign, Edit, EditKind, Kind, LONGEST_TEXT, Op, RegionId, ServerId, Space, Term, Text, Value,
};

/// Whether an operation belongs to a space.
///
/// Every attribute that it names is declared (in a search the key, attribute 0, too), and stands
/// once in each group of assignments, tests or terms; every value is of its attribute's kind; no
/// text is longer than [`LONGEST_TEXT`] and no range has its first number above its second; a
/// conditional put has a test and an assignment at least; servers and regions exist. A number may
/// lie outside its attribute's range. The limits are this project's choice.
pub fn fits(space: &Space, op: &Op) -> bool
    requires { IsSpace space.now }
    ensures { IsTrue result ↔ Fits space.now op.now }
{
    match op {
        Op::Put { key, sets } => key_fits(key) && assigns_fit(space, sets.as_slice()),
        Op::Get { key } | Op::Del { key } => key_fits(key),
        Op::Cput { key, tests, sets } => {
            key_fits(key)
                && assigns_fit(space, tests.as_slice())
                && assigns_fit(space, sets.as_slice())
                && !tests.is_empty()
                && !sets.is_empty()
        }
        Op::Search { terms } => terms_fit(space, terms.as_slice()),
        Op::Stop { server } => is_server_of(space, *server),
        Op::Add { server, region } => {
            is_server_of(space, *server) && is_region_of(space, *region)
        }
        Op::Atomic { key, edits } => {
            key_fits(key) && edits_fit(space, edits.as_slice()) && !edits.is_empty()
        }
    }
}

fn edits_fit(space: &Space, edits: &[Edit]) -> bool
    ensures { IsTrue result ↔ EditsFit space.now edits.now }
{
    edits.iter().all(|edit| edit_fits(space, edit)) && edited_once(edits)
}

fn edit_fits(space: &Space, edit: &Edit) -> bool
    ensures { IsTrue result ↔ EditFits space.now edit.now }
{
    if edit.attribute == 0 {
        return false;
    }
    match space.attributes.get(edit.attribute as usize - 1) {
        Some(declared) => is_edit_of(edit.what, declared.kind)
            && is_of_kind(declared.kind, &edit.value),
        None => false,
    }
}

fn is_edit_of(what: EditKind, kind: Kind) -> bool
    ensures { IsTrue result ↔ IsEditOf what kind }
{
    match (what, kind) {
        (EditKind::Append, Kind::Text) => true,
        (EditKind::Add | EditKind::Min | EditKind::Max, Kind::Int { .. }) => true,
        _ => false,
    }
}

/// Whether no attribute is edited twice.
fn edited_once(edits: &[Edit]) -> bool
    ensures { IsTrue result ↔ AllDiffer (map (λ (e : Edit). e.attribute) edits.now) }
{
    match edits.split_first() {
        None => true,
        Some((first, rest)) => lacks_edit(rest, first.attribute) && edited_once(rest),
    }
}

fn lacks_edit(edits: &[Edit], attribute: u32) -> bool
    ensures { IsTrue result ↔ All (λ (e : Edit). e.attribute ≢ attribute) edits.now }
{
    edits.iter().all(|edit| edit.attribute != attribute)
}

fn key_fits(key: &Text) -> bool
    ensures { IsTrue result ↔ KeyFits key.now }
{
    key.len() <= LONGEST_TEXT
}

fn is_server_of(space: &Space, server: ServerId) -> bool
    ensures { IsTrue result ↔ IsServerOf space.now server }
{
    0 < server.0 && server.0 <= space.servers
}

fn is_region_of(space: &Space, region: RegionId) -> bool
    requires { IsSpace space.now }
    ensures { IsTrue result ↔ IsRegionOf space.now region }
{
    region.0 < count_regions(space)
}

fn is_of_kind(kind: Kind, value: &Value) -> bool
    ensures { IsTrue result ↔ IsOfKind kind value.now }
{
    match (kind, value) {
        (Kind::Text, Value::Text(text)) => text.len() <= LONGEST_TEXT,
        (Kind::Int { .. }, Value::Int(_)) => true,
        _ => false,
    }
}

fn assign_fits(space: &Space, assign: &Assign) -> bool
    ensures { IsTrue result ↔ AssignFits space.now assign.now }
{
    if assign.attribute == 0 {
        return false;
    }
    match space.attributes.get(assign.attribute as usize - 1) {
        Some(declared) => is_of_kind(declared.kind, &assign.value),
        None => false,
    }
}

fn assigns_fit(space: &Space, assigns: &[Assign]) -> bool
    ensures { IsTrue result ↔ AssignsFit space.now assigns.now }
{
    assigns.iter().all(|assign| assign_fits(space, assign)) && assigned_once(assigns)
}

/// Whether no attribute stands twice.
fn assigned_once(assigns: &[Assign]) -> bool
    ensures { IsTrue result ↔ AllDiffer (map (λ (a : Assign). a.attribute) assigns.now) }
{
    match assigns.split_first() {
        None => true,
        Some((first, rest)) => lacks_assign(rest, first.attribute) && assigned_once(rest),
    }
}

fn lacks_assign(assigns: &[Assign], attribute: u32) -> bool
    ensures { IsTrue result ↔ All (λ (a : Assign). a.attribute ≢ attribute) assigns.now }
{
    assigns.iter().all(|assign| assign.attribute != attribute)
}

fn terms_fit(space: &Space, terms: &[Term]) -> bool
    ensures { IsTrue result ↔ TermsFit space.now terms.now }
{
    terms.iter().all(|term| term_fits(space, term)) && asked_once(terms)
}

fn term_fits(space: &Space, term: &Term) -> bool
    ensures { IsTrue result ↔ TermFits space.now term.now }
{
    match term {
        Term::Equal { attribute, value } => {
            is_attribute(space, *attribute) && is_of_kind(space.kind(*attribute), value)
        }
        Term::Range { attribute, lo, hi } => {
            is_attribute(space, *attribute) && is_int_kind(space.kind(*attribute)) && *lo <= *hi
        }
    }
}

fn is_attribute(space: &Space, attribute: u32) -> bool
    ensures { IsTrue result ↔ IsAttribute space.now attribute }
{
    attribute as usize <= space.attributes.len()
}

fn is_int_kind(kind: Kind) -> bool
    ensures { IsTrue result ↔ IsIntKind kind }
{
    match kind {
        Kind::Text => false,
        Kind::Int { .. } => true,
    }
}

/// Whether nothing is asked twice of an attribute.
fn asked_once(terms: &[Term]) -> bool
    ensures { IsTrue result ↔ AllDiffer (map attribute_of terms.now) }
{
    match terms.split_first() {
        None => true,
        Some((first, rest)) => lacks_term(rest, first.attribute()) && asked_once(rest),
    }
}

fn lacks_term(terms: &[Term], attribute: u32) -> bool
    ensures { IsTrue result ↔ All (λ (t : Term). attribute_of t ≢ attribute) terms.now }
{
    terms.iter().all(|term| term.attribute() != attribute)
}
