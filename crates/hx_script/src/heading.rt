//! The lines of a script's head and those that begin its sections.

ghost use Rattle.std.specs.Prelude.{◌≤◌, length};
ghost use Rattle.hx_types.specs.declared.limits.TheConstants.{MOST_ATTRIBUTES};
ghost use Rattle.hx_script.specs.Readers.{Reads};
ghost use Rattle.hx_script.specs.Grammar.{hx_line, space_line, key_line, string_attribute, int_attribute, attribute_line};
ghost use Rattle.hx_script.specs.Grammar.{subspace_line, servers_line, tolerate_line, session_line, steps_line, heading_line};

use crate::axes::subspace;
use crate::draft::{Draft, Section};
use crate::errors::{Reason, Stop};
use crate::keyword::Heading;
use crate::line::Line;
use crate::words::{name, new_name};
use hx_types::{
    Attribute, Calls, Kind, MOST_ATTRIBUTES, MOST_FAILURES, MOST_PARTS, MOST_SERVERS,
    MOST_SESSIONS, MOST_SUBSPACES, Space, Text,
};
use std::alloc::Global;

#[tactic(auto, unfolding(crate::specs::Grammar::string_attribute))]
fn string_attribute(alloc: Global, space: &Space, line: &mut Line<'_>) -> Result<Attribute, Stop>
    ensures { Reads (λ a. a) result line.new (string_attribute space.now line.old) }
{
    let name = new_name(space, line)?;
    line.end()?;
    let name = Text::from_str(alloc, name)?;
    Ok(Attribute {
        name,
        kind: Kind::Text,
    })
}

#[tactic(auto, unfolding(crate::specs::Grammar::int_attribute))]
fn int_attribute(alloc: Global, space: &Space, line: &mut Line<'_>) -> Result<Attribute, Stop>
    ensures { Reads (λ a. a) result line.new (int_attribute space.now line.old) }
{
    let name = new_name(space, line)?;
    let lo = line.number()?;
    let hi = line.number_from(lo)?;
    line.end()?;
    let name = Text::from_str(alloc, name)?;
    Ok(Attribute {
        name,
        kind: Kind::Int { lo, hi },
    })
}

impl Draft {
    #[tactic(auto, unfolding(crate::specs::Grammar::hx_line))]
    fn hx_line(&mut self, line: &mut Line<'_>) -> Result<(), Stop>
        ensures { Reads (λ _. self.new) result line.new (hx_line self.old line.old) }
    {
        line.number_in(1, 1)?;
        line.end()?;
        self.section = Section::Naming;
        Ok(())
    }

    #[tactic(auto, unfolding(crate::specs::Grammar::space_line))]
    fn space_line(&mut self, alloc: Global, line: &mut Line<'_>) -> Result<(), Stop>
        ensures { Reads (λ _. self.new) result line.new (space_line self.old line.old) }
    {
        let name = name(line)?;
        line.end()?;
        self.space.name = Text::from_str(alloc, name)?;
        self.section = Section::Keying;
        Ok(())
    }

    #[tactic(auto, unfolding(crate::specs::Grammar::key_line))]
    fn key_line(&mut self, alloc: Global, line: &mut Line<'_>) -> Result<(), Stop>
        ensures { Reads (λ _. self.new) result line.new (key_line self.old line.old) }
    {
        let name = name(line)?;
        let parts = line.number_in(1, MOST_PARTS)?;
        line.end()?;
        self.space.key_name = Text::from_str(alloc, name)?;
        self.space.key_parts = parts;
        self.regions = parts;
        self.section = Section::Attributes;
        Ok(())
    }

    #[tactic(auto, unfolding(crate::specs::Grammar::attribute_line))]
    fn string_line(&mut self, alloc: Global, line: &mut Line<'_>) -> Result<(), Stop>
        ensures { Reads (λ _. self.new) result line.new (attribute_line self.old string_attribute line.old) }
    {
        if self.space.attributes.len() >= MOST_ATTRIBUTES {
            return Err(Stop::Fault(Reason::Limit));
        }
        let attribute = string_attribute(alloc, &self.space, line)?;
        self.space.attributes.push(attribute)?;
        Ok(())
    }

    #[tactic(auto, unfolding(crate::specs::Grammar::attribute_line))]
    fn int_line(&mut self, alloc: Global, line: &mut Line<'_>) -> Result<(), Stop>
        ensures { Reads (λ _. self.new) result line.new (attribute_line self.old int_attribute line.old) }
    {
        if self.space.attributes.len() >= MOST_ATTRIBUTES {
            return Err(Stop::Fault(Reason::Limit));
        }
        let attribute = int_attribute(alloc, &self.space, line)?;
        self.space.attributes.push(attribute)?;
        Ok(())
    }

    #[tactic(auto, unfolding(crate::specs::Grammar::subspace_line))]
    fn subspace_line(&mut self, alloc: Global, line: &mut Line<'_>) -> Result<(), Stop>
        requires attributes { length self.old.space.attributes ≤ MOST_ATTRIBUTES }
        ensures { Reads (λ _. self.new) result line.new (subspace_line self.old line.old) }
    {
        if self.space.subspaces.len() >= MOST_SUBSPACES {
            return Err(Stop::Fault(Reason::Limit));
        }
        let axes_draft = subspace(alloc, &self.space, self.regions, line)?;
        self.regions += axes_draft.size;
        self.space.subspaces.push(axes_draft.axes)?;
        self.section = Section::Subspaces;
        Ok(())
    }

    #[tactic(auto, unfolding(crate::specs::Grammar::servers_line))]
    fn servers_line(&mut self, line: &mut Line<'_>) -> Result<(), Stop>
        ensures { Reads (λ _. self.new) result line.new (servers_line self.old line.old) }
    {
        let servers = line.number_in(1, MOST_SERVERS)?;
        line.end()?;
        self.space.servers = servers;
        self.section = Section::Tolerance;
        Ok(())
    }

    #[tactic(auto, unfolding(crate::specs::Grammar::tolerate_line))]
    fn tolerate_line(&mut self, line: &mut Line<'_>) -> Result<(), Stop>
        ensures { Reads (λ _. self.new) result line.new (tolerate_line self.old line.old) }
    {
        let most = self.space.servers.saturating_sub(1).min(MOST_FAILURES);
        let tolerate = line.number_in(0, most)?;
        line.end()?;
        self.space.tolerate = tolerate;
        self.section = Section::Sessions;
        Ok(())
    }

    #[tactic(auto, unfolding(crate::specs::Grammar::session_line))]
    fn session_line(&mut self, alloc: Global, line: &mut Line<'_>) -> Result<(), Stop>
        ensures { Reads (λ _. self.new) result line.new (session_line self.old line.old) }
    {
        let count = self.sessions.len();
        if count >= MOST_SESSIONS {
            return Err(Stop::Fault(Reason::Limit));
        }
        let next = count as u32 + 1;
        line.number_in(next, next)?;
        line.end()?;
        self.sessions.push(Calls::new(alloc))?;
        self.section = Section::Calls;
        Ok(())
    }

    #[tactic(auto, unfolding(crate::specs::Grammar::steps_line))]
    fn steps_line(&mut self, line: &mut Line<'_>) -> Result<(), Stop>
        ensures { Reads (λ _. self.new) result line.new (steps_line self.old line.old) }
    {
        line.end()?;
        self.section = Section::Steps;
        Ok(())
    }

    /// A line of the head or of a section.
    pub(crate) fn heading_line(
        &mut self,
        alloc: Global,
        heading: Heading,
        line: &mut Line<'_>,
    ) -> Result<(), Stop>
        requires attributes { length self.old.space.attributes ≤ MOST_ATTRIBUTES }
        ensures { Reads (λ _. self.new) result line.new (heading_line self.old self.old.section heading line.old) }
    {
        match (self.section, heading) {
            (Section::Start, Heading::Hx) => self.hx_line(line),
            (Section::Naming, Heading::Space) => self.space_line(alloc, line),
            (Section::Keying, Heading::Key) => self.key_line(alloc, line),
            (Section::Attributes, Heading::String) => self.string_line(alloc, line),
            (Section::Attributes, Heading::Int) => self.int_line(alloc, line),
            (Section::Attributes | Section::Subspaces, Heading::Subspace) => {
                self.subspace_line(alloc, line)
            }
            (Section::Attributes | Section::Subspaces, Heading::Servers) => {
                self.servers_line(line)
            }
            (Section::Tolerance, Heading::Tolerate) => self.tolerate_line(line),
            (Section::Sessions | Section::Calls, Heading::Session) => {
                self.session_line(alloc, line)
            }
            (Section::Sessions | Section::Calls, Heading::Steps) => self.steps_line(line),
            _ => Err(Stop::Fault(Reason::Order)),
        }
    }
}
