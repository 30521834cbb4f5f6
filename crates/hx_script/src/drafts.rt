//! The spaces of a bundle as far as their lines were read.

ghost use Rattle.std.specs.Prelude.{◌≡◌, ◌++◌, ◌∷◌, [], ◌<◌, ◌≤◌, IfOk, IfSome, OnOk, length, map, position};
ghost use Rattle.std.specs.List.{All, list_any};
ghost use Rattle.hx_types.specs.declared.limits.TheConstants.{MOST_ATTRIBUTES};
ghost use Rattle.hx_bundle.specs.declared.limits.TheConstants.{MOST_SPACES};
ghost use Rattle.hx_script.specs.declared.draft.Draft.{Draft};
ghost use Rattle.hx_script.specs.BundleGrammar.{have_keys, has_key, in_last_space, in_space, is_space, named_draft, space_number, with_session};
ghost use Rattle.hx_script.specs.BundleTexts.{script_so_far};
ghost use Rattle.hx_script.specs.Grammar.{call_line, heading_line};
ghost use Rattle.hx_script.specs.Readers.{Gives, Reads};

use crate::draft::{Draft, Section};
use crate::errors::{Reason, Stop};
use crate::keyword::{CallWord, Heading};
use crate::line::Line;
use hx_bundle::Scripts;
use hx_types::{Attributes, Calls, Memory, Sessions, Space, Steps, Subspaces, Text};
use std::alloc::Global;
use std::marker::Model;

/// The drafts of the spaces in order; the last one was named last. Contracts see that list.
pub struct Drafts {
    items: Vec<Draft>,
}

impl Drop for Drafts {
    fn drop(self) {
        let Drafts { items: _ } = self;
    }
}

impl Model for Drafts {
    ghost use Rattle.std.specs.Prelude.{List};
    ghost use Rattle.hx_script.specs.declared.draft.Draft.{Draft};

    ghost Value = { List Draft };

    ghost view = { λ s. s.items.items };
}

/// A space of which only the name was read.
fn named_draft(alloc: Global, servers: u32, tolerate: u32, name: &str) -> Result<Draft, Memory>
    ensures { IfOk result (λ d. d ≡ named_draft servers tolerate name.now) }
{
    let name = Text::from_str(alloc, name)?;
    Ok(Draft {
        section: Section::Keying,
        space: Space {
            name,
            key_name: Text::new(alloc),
            key_parts: 0,
            attributes: Attributes::new(alloc),
            subspaces: Subspaces::new(alloc),
            servers,
            tolerate,
        },
        regions: 0,
        sessions: Sessions::new(alloc),
        calls: 0,
        steps: Steps::new(alloc),
    })
}

fn is_space(draft: &Draft, name: &str) -> bool
    ensures { result ≡ is_space name.now draft.now }
{
    draft.space.name.as_bytes() == name.as_bytes()
}

fn has_key(draft: &Draft) -> bool
    ensures { result ≡ has_key draft.now }
{
    !matches!(draft.section, Section::Keying)
}

/// One more session, which has no calls yet.
fn begin_session(alloc: Global, draft: &mut Draft) -> Result<(), Memory>
    ensures { OnOk result (draft.new ≡ with_session draft.old) }
{
    draft.sessions.push(Calls::new(alloc))?;
    draft.section = Section::Calls;
    Ok(())
}

fn begin_sessions(alloc: Global, drafts: &mut [Draft]) -> Result<(), Memory>
    ensures { OnOk result (drafts.new ≡ map with_session drafts.old) }
{
    for draft in drafts.iter_mut() {
        begin_session(alloc, draft)?;
    }
    Ok(())
}

/// The script of each draft. There are few, so each is taken from the front.
fn scripts_of(alloc: Global, drafts: Vec<Draft>) -> Result<Scripts, Memory>
    ensures { IfOk result (λ scripts. scripts ≡ map script_so_far drafts.items) }
{
    let mut left = drafts;
    let mut scripts = Scripts::new(alloc);
    'drafts: while !left.is_empty() {
        let draft = left.remove(0);
        scripts.push(draft.into_script())?;
    }
    Ok(scripts)
}

/// Reads a line of the head of the draft at a place.
fn head_line_at(
    alloc: Global,
    drafts: &mut Vec<Draft>,
    place: usize,
    heading: Heading,
    line: &mut Line<'_>,
) -> Result<(), Stop>
    requires within { place < length drafts.old.items }
    requires attributes { All (λ (d : Draft). length d.space.attributes ≤ MOST_ATTRIBUTES) drafts.old.items }
    ensures { Reads (λ _. drafts.new.items) result line.new (in_space drafts.old.items place (λ d. heading_line d d.section heading) line.old) }
{
    drafts[place].heading_line(alloc, heading, line)
}

/// Reads a call of the draft at a place, as one more of its last session.
fn call_line_at(
    alloc: Global,
    drafts: &mut Vec<Draft>,
    place: usize,
    word: CallWord,
    line: &mut Line<'_>,
) -> Result<(), Stop>
    requires within { place < length drafts.old.items }
    requires attributes { All (λ (d : Draft). length d.space.attributes ≤ MOST_ATTRIBUTES) drafts.old.items }
    ensures { Reads (λ _. drafts.new.items) result line.new (in_space drafts.old.items place (λ d. call_line d word) line.old) }
{
    drafts[place].call_line(alloc, word, line)
}

impl Drafts {
    pub(crate) fn new(alloc: Global) -> Drafts
        ensures { result ≡ [] }
    {
        Drafts {
            items: Vec::new(alloc),
        }
    }

    pub(crate) fn len(&self) -> usize
        ensures { result ≡ length self.now }
    {
        self.items.len()
    }

    pub(crate) fn has_space(&self, name: &str) -> bool
        ensures { result ≡ list_any (is_space name.now) self.now }
    {
        self.items
            .as_slice()
            .iter()
            .any(|draft| is_space(draft, name))
    }

    /// The place of a declared space, from 0.
    fn place_of(&self, name: &str) -> Option<usize>
        ensures place { result ≡ position (is_space name.now) self.now }
        ensures within { IfSome result (λ k. k < length self.now) }
    {
        self.items
            .as_slice()
            .iter()
            .position(|draft| is_space(draft, name))
    }

    /// The number of a declared space, from 0.
    pub(crate) fn space_number(&self, name: &str) -> Result<u32, Stop>
        requires few { length self.now ≤ MOST_SPACES }
        ensures number { Gives (λ k. k) result (space_number self.now name.now) }
        ensures within { IfOk result (λ k. k < length self.now) }
    {
        match self.place_of(name) {
            None => Err(Stop::Fault(Reason::Unknown)),
            Some(place) => Ok(place as u32),
        }
    }

    /// Whether the line `key` was read of each space.
    pub(crate) fn have_keys(&self) -> bool
        ensures { result ≡ have_keys self.now }
    {
        self.items.as_slice().iter().all(|draft| has_key(draft))
    }

    /// Adds a space of which only the name was read.
    pub(crate) fn add(
        &mut self,
        alloc: Global,
        servers: u32,
        tolerate: u32,
        name: &str,
    ) -> Result<(), Memory>
        ensures { OnOk result (self.new ≡ self.old ++ named_draft servers tolerate name.now ∷ []) }
    {
        let draft = named_draft(alloc, servers, tolerate, name)?;
        self.items.push(draft)?;
        Ok(())
    }

    /// Reads a line of the head of the space that was named last.
    pub(crate) fn head_line(
        &mut self,
        alloc: Global,
        heading: Heading,
        line: &mut Line<'_>,
    ) -> Result<(), Stop>
        requires attributes { All (λ (d : Draft). length d.space.attributes ≤ MOST_ATTRIBUTES) self.old }
        ensures { Reads (λ _. self.new) result line.new (in_last_space self.old heading line.old) }
    {
        let Some(place) = self.items.len().checked_sub(1) else {
            return Err(Stop::Fault(Reason::Order));
        };
        head_line_at(alloc, &mut self.items, place, heading, line)
    }

    /// Reads a call of the space of that number, as one more of the last session.
    pub(crate) fn call_line(
        &mut self,
        alloc: Global,
        place: usize,
        word: CallWord,
        line: &mut Line<'_>,
    ) -> Result<(), Stop>
        requires within { place < length self.old }
        requires attributes { All (λ (d : Draft). length d.space.attributes ≤ MOST_ATTRIBUTES) self.old }
        ensures { Reads (λ _. self.new) result line.new (in_space self.old place (λ d. call_line d word) line.old) }
    {
        call_line_at(alloc, &mut self.items, place, word, line)
    }

    /// One more session has no calls to any space yet.
    pub(crate) fn begin_session(&mut self, alloc: Global) -> Result<(), Memory>
        ensures { OnOk result (self.new ≡ map with_session self.old) }
    {
        begin_sessions(alloc, self.items.as_mut_slice())
    }

    /// The script of each space.
    pub(crate) fn into_scripts(self, alloc: Global) -> Result<Scripts, Memory>
        ensures { IfOk result (λ scripts. scripts ≡ map script_so_far self) }
    {
        let Drafts { items } = self;
        scripts_of(alloc, items)
    }
}
