//! A script of several spaces as far as its lines were read.

ghost use Rattle.std.specs.Prelude.{◌≡◌, ◌<◌, ◌≤◌, IfOk, length};
ghost use Rattle.std.specs.List.{All};
ghost use Rattle.hx_types.specs.declared.limits.TheConstants.{MOST_ATTRIBUTES, MOST_SESSIONS};
ghost use Rattle.hx_bundle.specs.declared.limits.TheConstants.{MOST_SPACES};
ghost use Rattle.hx_script.specs.declared.draft.Draft.{Draft};
ghost use Rattle.hx_script.specs.BundleGrammar.{all_servers_line, all_steps_line, all_tolerate_line, behind_keys, bundle_command, bundle_heading_line, bundle_line_of, last_space_line, new_space_name, next_session_line, next_space_line, second_hx_line, space_call_line, space_named, space_step_line, spaces_line};
ghost use Rattle.hx_script.specs.BundleTexts.{TextAnswers, bundle_finished, bundle_may_end, empty_bundle_draft};
ghost use Rattle.hx_script.specs.Readers.{Gives, Reads};

use crate::draft::push_turn;
use crate::drafts::Drafts;
use crate::errors::{Reason, ScriptError, Stop};
use crate::keyword::{CallWord, Heading, Keyword, StepWord, keyword_of};
use crate::line::{Line, tokens_in};
use crate::ops::step;
use crate::words::named;
use hx_bundle::{Bundle, BundleStep, BundleSteps, MOST_SPACES, Turns};
use hx_types::{
    LONGEST_NAME, MOST_CALLS, MOST_FAILURES, MOST_SERVERS, MOST_SESSIONS, MOST_STEPS, Memory,
    Sequence,
};
use std::alloc::Global;

/// Which lines may come next. Among those of [`Spaces`](BundleSection::Spaces) the draft of the
/// space that was named last chooses.
#[derive(Clone, Copy)]
pub enum BundleSection {
    Start,
    Serving,
    Tolerance,
    Naming,
    Spaces,
    Calls,
    Steps,
}

/// What was read, with how many calls there are in all spaces.
pub struct BundleDraft {
    pub section: BundleSection,
    pub servers: u32,
    pub tolerate: u32,
    pub spaces: Drafts,
    pub turns: Turns,
    pub calls: u32,
    pub steps: BundleSteps,
}

impl Drop for BundleDraft {
    fn drop(self) {
        let BundleDraft {
            section: _,
            servers: _,
            tolerate: _,
            spaces: _,
            turns: _,
            calls: _,
            steps: _,
        } = self;
    }
}

/// A declared space, by its name.
#[tactic(auto, unfolding(crate::specs::BundleGrammar::space_named))]
fn space_named(spaces: &Drafts, line: &mut Line<'_>) -> Result<u32, Stop>
    requires few { length spaces.now ≤ MOST_SPACES }
    ensures reads { Reads (λ k. k) result line.new (space_named spaces.now line.old) }
    ensures within { IfOk result (λ k. k < length spaces.now) }
{
    let word = named(line)?;
    spaces.space_number(word)
}

/// A name that no space has.
#[tactic(auto, unfolding(crate::specs::BundleGrammar::new_space_name))]
fn new_space_name<'a>(spaces: &Drafts, line: &mut Line<'a>) -> Result<&'a str, Stop>
    ensures { Reads (λ w. w.now) result line.new (new_space_name spaces.now line.old) }
{
    let word = named(line)?;
    if spaces.has_space(word) {
        return Err(Stop::Fault(Reason::Twice));
    }
    if word.len() > LONGEST_NAME {
        return Err(Stop::Fault(Reason::Limit));
    }
    Ok(word)
}

impl BundleDraft {
    #[tactic(auto, unfolding(crate::specs::BundleGrammar::second_hx_line))]
    fn hx_line(&mut self, line: &mut Line<'_>) -> Result<(), Stop>
        ensures { Reads (λ _. self.new) result line.new (second_hx_line self.old line.old) }
    {
        line.number_in(2, 2)?;
        line.end()?;
        self.section = BundleSection::Serving;
        Ok(())
    }

    #[tactic(auto, unfolding(crate::specs::BundleGrammar::all_servers_line))]
    fn servers_line(&mut self, line: &mut Line<'_>) -> Result<(), Stop>
        ensures { Reads (λ _. self.new) result line.new (all_servers_line self.old line.old) }
    {
        let servers = line.number_in(1, MOST_SERVERS)?;
        line.end()?;
        self.servers = servers;
        self.section = BundleSection::Tolerance;
        Ok(())
    }

    #[tactic(auto, unfolding(crate::specs::BundleGrammar::all_tolerate_line))]
    fn tolerate_line(&mut self, line: &mut Line<'_>) -> Result<(), Stop>
        ensures { Reads (λ _. self.new) result line.new (all_tolerate_line self.old line.old) }
    {
        let most = self.servers.saturating_sub(1).min(MOST_FAILURES);
        let tolerate = line.number_in(0, most)?;
        line.end()?;
        self.tolerate = tolerate;
        self.section = BundleSection::Naming;
        Ok(())
    }

    #[tactic(auto, unfolding(crate::specs::BundleGrammar::next_space_line))]
    fn space_line(&mut self, alloc: Global, line: &mut Line<'_>) -> Result<(), Stop>
        ensures { Reads (λ _. self.new) result line.new (next_space_line self.old line.old) }
    {
        if self.spaces.len() >= MOST_SPACES {
            return Err(Stop::Fault(Reason::Limit));
        }
        let name = new_space_name(&self.spaces, line)?;
        line.end()?;
        self.spaces.add(alloc, self.servers, self.tolerate, name)?;
        self.section = BundleSection::Spaces;
        Ok(())
    }

    /// A line of the head of the space that was named last.
    #[tactic(auto, unfolding(crate::specs::BundleGrammar::last_space_line))]
    fn head_line(
        &mut self,
        alloc: Global,
        heading: Heading,
        line: &mut Line<'_>,
    ) -> Result<(), Stop>
        requires attributes { All (λ (d : Draft). length d.space.attributes ≤ MOST_ATTRIBUTES) self.old.spaces }
        ensures { Reads (λ _. self.new) result line.new (last_space_line self.old heading line.old) }
    {
        self.spaces.head_line(alloc, heading, line)
    }

    #[tactic(auto, unfolding(crate::specs::BundleGrammar::next_session_line))]
    fn session_line(&mut self, alloc: Global, line: &mut Line<'_>) -> Result<(), Stop>
        ensures { Reads (λ _. self.new) result line.new (next_session_line self.old line.old) }
    {
        let count = self.turns.len();
        if count >= MOST_SESSIONS {
            return Err(Stop::Fault(Reason::Limit));
        }
        let next = count as u32 + 1;
        line.number_in(next, next)?;
        line.end()?;
        self.spaces.begin_session(alloc)?;
        self.turns.push(Sequence::new(alloc))?;
        self.section = BundleSection::Calls;
        Ok(())
    }

    #[tactic(auto, unfolding(crate::specs::BundleGrammar::all_steps_line))]
    fn steps_line(&mut self, line: &mut Line<'_>) -> Result<(), Stop>
        ensures { Reads (λ _. self.new) result line.new (all_steps_line self.old line.old) }
    {
        line.end()?;
        self.section = BundleSection::Steps;
        Ok(())
    }

    /// One more call of the last session, in the space that is named behind the first word.
    #[tactic(auto, unfolding(crate::specs::BundleGrammar::space_call_line))]
    fn call_line(&mut self, alloc: Global, word: CallWord, line: &mut Line<'_>) -> Result<(), Stop>
        requires spaces { length self.old.spaces ≤ MOST_SPACES }
        requires attributes { All (λ (d : Draft). length d.space.attributes ≤ MOST_ATTRIBUTES) self.old.spaces }
        ensures { Reads (λ _. self.new) result line.new (space_call_line self.old word line.old) }
    {
        if self.calls as usize >= MOST_CALLS {
            return Err(Stop::Fault(Reason::Limit));
        }
        let space = space_named(&self.spaces, line)?;
        self.spaces.call_line(alloc, space as usize, word, line)?;
        push_turn(&mut self.turns, space)?;
        self.calls += 1;
        Ok(())
    }

    /// One more step in the space that is named behind the first word, on the line of that number.
    #[tactic(auto, unfolding(crate::specs::BundleGrammar::space_step_line))]
    fn step_line(&mut self, number: u64, word: StepWord, line: &mut Line<'_>) -> Result<(), Stop>
        requires spaces { length self.old.spaces ≤ MOST_SPACES }
        requires sessions { length self.old.turns ≤ MOST_SESSIONS }
        ensures { Reads (λ _. self.new) result line.new (space_step_line number self.old word line.old) }
    {
        if self.steps.len() >= MOST_STEPS {
            return Err(Stop::Fault(Reason::Limit));
        }
        let space = space_named(&self.spaces, line)?;
        let step = step(self.servers, self.turns.len() as u32, word, line)?;
        self.steps.push(BundleStep {
            line: number,
            space,
            step,
        })?;
        Ok(())
    }

    /// A line that may come behind the key of each space.
    #[tactic(auto, unfolding(crate::specs::BundleGrammar::behind_keys))]
    fn behind_keys(
        &mut self,
        alloc: Global,
        heading: Heading,
        line: &mut Line<'_>,
    ) -> Result<(), Stop>
        ensures { Reads (λ _. self.new) result line.new (behind_keys self.old heading line.old) }
    {
        if !self.spaces.have_keys() {
            return Err(Stop::Fault(Reason::Order));
        }
        match heading {
            Heading::Space => self.space_line(alloc, line),
            Heading::Session => self.session_line(alloc, line),
            Heading::Steps => self.steps_line(line),
            _ => Err(Stop::Fault(Reason::Order)),
        }
    }

    /// A line of the spaces, once the first was named.
    fn spaces_line(
        &mut self,
        alloc: Global,
        heading: Heading,
        line: &mut Line<'_>,
    ) -> Result<(), Stop>
        requires attributes { All (λ (d : Draft). length d.space.attributes ≤ MOST_ATTRIBUTES) self.old.spaces }
        ensures { Reads (λ _. self.new) result line.new (spaces_line self.old heading line.old) }
    {
        match heading {
            Heading::Key | Heading::String | Heading::Int | Heading::Subspace => {
                self.head_line(alloc, heading, line)
            }
            _ => self.behind_keys(alloc, heading, line),
        }
    }

    /// A line of the head or of a section.
    fn heading_line(
        &mut self,
        alloc: Global,
        heading: Heading,
        line: &mut Line<'_>,
    ) -> Result<(), Stop>
        requires attributes { All (λ (d : Draft). length d.space.attributes ≤ MOST_ATTRIBUTES) self.old.spaces }
        ensures { Reads (λ _. self.new) result line.new (bundle_heading_line self.old self.old.section heading line.old) }
    {
        match (self.section, heading) {
            (BundleSection::Start, Heading::Hx) => self.hx_line(line),
            (BundleSection::Serving, Heading::Servers) => self.servers_line(line),
            (BundleSection::Tolerance, Heading::Tolerate) => self.tolerate_line(line),
            (BundleSection::Naming, Heading::Space) => self.space_line(alloc, line),
            (BundleSection::Spaces, heading) => self.spaces_line(alloc, heading, line),
            (BundleSection::Calls, Heading::Session) => self.session_line(alloc, line),
            (BundleSection::Calls, Heading::Steps) => self.steps_line(line),
            _ => Err(Stop::Fault(Reason::Order)),
        }
    }

    /// A line that isn't empty.
    #[tactic(auto, unfolding(crate::specs::BundleGrammar::bundle_command))]
    fn command(&mut self, alloc: Global, number: u64, line: &mut Line<'_>) -> Result<(), Stop>
        requires spaces { length self.old.spaces ≤ MOST_SPACES }
        requires sessions { length self.old.turns ≤ MOST_SESSIONS }
        requires attributes { All (λ (d : Draft). length d.space.attributes ≤ MOST_ATTRIBUTES) self.old.spaces }
        ensures { Reads (λ _. self.new) result line.new (bundle_command number self.old line.old) }
    {
        let word = line.word()?;
        match (self.section, keyword_of(word.as_bytes())) {
            (_, Some(Keyword::Heading(heading))) => self.heading_line(alloc, heading, line),
            (BundleSection::Calls, Some(Keyword::Call(word))) => self.call_line(alloc, word, line),
            (BundleSection::Steps, Some(Keyword::Step(word))) => {
                self.step_line(number, word, line)
            }
            _ => Err(Stop::Fault(Reason::Order)),
        }
    }

    /// Reads the line of that number, which is given without its newline.
    pub(crate) fn read_line(&mut self, alloc: Global, number: u64, line: &[u8]) -> Result<(), Stop>
        requires spaces { length self.old.spaces ≤ MOST_SPACES }
        requires sessions { length self.old.turns ≤ MOST_SESSIONS }
        requires attributes { All (λ (d : Draft). length d.space.attributes ≤ MOST_ATTRIBUTES) self.old.spaces }
        ensures { Gives (λ _. self.new) result (bundle_line_of number self.old line.now) }
    {
        let tokens = tokens_in(alloc, line)?;
        let mut rest = Line::new(line, tokens.as_slice());
        if rest.is_empty() {
            return Ok(());
        }
        self.command(alloc, number, &mut rest)
    }

    pub(crate) fn new(alloc: Global) -> BundleDraft
        ensures { result ≡ empty_bundle_draft }
    {
        BundleDraft {
            section: BundleSection::Start,
            servers: 0,
            tolerate: 0,
            spaces: Drafts::new(alloc),
            turns: Turns::new(alloc),
            calls: 0,
            steps: BundleSteps::new(alloc),
        }
    }

    /// Whether the text may end here.
    fn may_end(&self) -> bool
        ensures { result ≡ bundle_may_end self.now.section self.now.spaces }
    {
        match self.section {
            BundleSection::Spaces => self.spaces.have_keys(),
            BundleSection::Calls | BundleSection::Steps => true,
            _ => false,
        }
    }

    /// The bundle, where the text may end after the lines before that one.
    pub(crate) fn finish(self, alloc: Global, line: u64) -> Result<Bundle, ScriptError>
        ensures { TextAnswers result (bundle_finished line self) }
    {
        if !self.may_end() {
            drop(self);
            return Err(ScriptError::Refused {
                line,
                reason: Reason::Order,
            });
        }
        let BundleDraft {
            section: _,
            servers: _,
            tolerate: _,
            spaces,
            turns,
            calls: _,
            steps,
        } = self;
        match spaces.into_scripts(alloc) {
            Ok(spaces) => Ok(Bundle {
                spaces,
                turns,
                steps,
            }),
            Err(Memory) => Err(ScriptError::Memory),
        }
    }
}
