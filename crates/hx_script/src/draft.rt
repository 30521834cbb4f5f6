//! A script as far as its lines were read.

ghost use Rattle.std.specs.Prelude.{◌≡◌, OnOk, ◌≤◌, length};
ghost use Rattle.hx_types.specs.declared.limits.TheConstants.{MOST_ATTRIBUTES, MOST_SESSIONS};
ghost use Rattle.hx_script.specs.Readers.{Reads, Gives};
ghost use Rattle.hx_script.specs.Grammar.{push_to_last, call_line, step_line, command, line_of};
ghost use Rattle.hx_script.specs.BundleTexts.{script_so_far};
ghost use Rattle.hx_script.specs.Texts.{empty_draft, finished, may_end};

use crate::errors::{Reason, ScriptError, Stop};
use crate::keyword::{CallWord, Keyword, StepWord, keyword_of};
use crate::line::{Line, tokens_in};
use crate::ops::{call, step};
use hx_bundle::Turns;
use hx_types::{
    Attributes, MOST_CALLS, MOST_STEPS, Memory, Op, Script, Sessions, Space, Steps, Subspaces, Text,
};
use std::alloc::Global;

/// Which lines may come next.
#[derive(Clone, Copy)]
pub enum Section {
    Start,
    Naming,
    Keying,
    Attributes,
    Subspaces,
    Tolerance,
    Sessions,
    Calls,
    Steps,
}

/// What was read, with how many regions the space has and how many calls there are.
pub struct Draft {
    pub section: Section,
    pub space: Space,
    pub regions: u32,
    pub sessions: Sessions,
    pub calls: u32,
    pub steps: Steps,
}

impl Drop for Draft {
    fn drop(self) {
        let Draft {
            section: _,
            space: _,
            regions: _,
            sessions: _,
            calls: _,
            steps: _,
        } = self;
    }
}

/// Puts an item at the end of the last list.
#[tactic(auto, using(crate::proofs::Lists::push_at_last_place, crate::proofs::Lists::no_last))]
fn push_to_last(sessions: &mut Sessions, op: Op) -> Result<(), Memory>
    ensures { OnOk result (sessions.new ≡ push_to_last sessions.old op) }
{
    let Some(last) = sessions.last_mut() else {
        drop(op);
        return Ok(());
    };
    last.push(op)?;
    Ok(())
}

/// Puts the space of one more call at the end of the last session's turns.
#[tactic(auto, using(crate::proofs::Lists::push_at_last_place, crate::proofs::Lists::no_last))]
pub(crate) fn push_turn(turns: &mut Turns, space: u32) -> Result<(), Memory>
    ensures { OnOk result (turns.new ≡ push_to_last turns.old space) }
{
    let Some(last) = turns.last_mut() else {
        return Ok(());
    };
    last.push(space)?;
    Ok(())
}

impl Draft {
    /// One more call of the last session.
    #[tactic(auto, unfolding(crate::specs::Grammar::call_line))]
    pub(crate) fn call_line(
        &mut self,
        alloc: Global,
        word: CallWord,
        line: &mut Line<'_>,
    ) -> Result<(), Stop>
        requires attributes { length self.old.space.attributes ≤ MOST_ATTRIBUTES }
        ensures { Reads (λ _. self.new) result line.new (call_line self.old word line.old) }
    {
        if self.calls as usize >= MOST_CALLS {
            return Err(Stop::Fault(Reason::Limit));
        }
        let op = call(alloc, &self.space, self.regions, word, line)?;
        push_to_last(&mut self.sessions, op)?;
        self.calls += 1;
        Ok(())
    }

    /// One more step, which stands on the line of that number.
    #[tactic(auto, unfolding(crate::specs::Grammar::step_line))]
    fn step_line(&mut self, number: u64, word: StepWord, line: &mut Line<'_>) -> Result<(), Stop>
        requires sessions { length self.old.sessions ≤ MOST_SESSIONS }
        ensures { Reads (λ _. self.new) result line.new (step_line number self.old word line.old) }
    {
        if self.steps.len() >= MOST_STEPS {
            return Err(Stop::Fault(Reason::Limit));
        }
        let sessions = self.sessions.len() as u32;
        let step = step(self.space.servers, sessions, word, line)?;
        self.steps.push((number, step))?;
        Ok(())
    }

    /// A line that isn't empty.
    #[tactic(auto, unfolding(crate::specs::Grammar::command))]
    fn command(&mut self, alloc: Global, number: u64, line: &mut Line<'_>) -> Result<(), Stop>
        requires sessions { length self.old.sessions ≤ MOST_SESSIONS }
        requires attributes { length self.old.space.attributes ≤ MOST_ATTRIBUTES }
        ensures { Reads (λ _. self.new) result line.new (command number self.old line.old) }
    {
        let word = line.word()?;
        match (self.section, keyword_of(word.as_bytes())) {
            (_, Some(Keyword::Heading(heading))) => self.heading_line(alloc, heading, line),
            (Section::Calls, Some(Keyword::Call(word))) => self.call_line(alloc, word, line),
            (Section::Steps, Some(Keyword::Step(word))) => self.step_line(number, word, line),
            _ => Err(Stop::Fault(Reason::Order)),
        }
    }

    /// Reads the line of that number, which is given without its newline.
    pub(crate) fn read_line(&mut self, alloc: Global, number: u64, line: &[u8]) -> Result<(), Stop>
        requires sessions { length self.old.sessions ≤ MOST_SESSIONS }
        requires attributes { length self.old.space.attributes ≤ MOST_ATTRIBUTES }
        ensures { Gives (λ _. self.new) result (line_of number self.old line.now) }
    {
        let tokens = tokens_in(alloc, line)?;
        let mut rest = Line::new(line, tokens.as_slice());
        if rest.is_empty() {
            return Ok(());
        }
        self.command(alloc, number, &mut rest)
    }

    pub(crate) fn new(alloc: Global) -> Draft
        ensures { result ≡ empty_draft }
    {
        Draft {
            section: Section::Start,
            space: Space {
                name: Text::new(alloc),
                key_name: Text::new(alloc),
                key_parts: 0,
                attributes: Attributes::new(alloc),
                subspaces: Subspaces::new(alloc),
                servers: 0,
                tolerate: 0,
            },
            regions: 0,
            sessions: Sessions::new(alloc),
            calls: 0,
            steps: Steps::new(alloc),
        }
    }

    /// Whether the text may end here.
    fn may_end(&self) -> bool
        ensures { result ≡ may_end self.now.section }
    {
        match self.section {
            Section::Sessions | Section::Calls | Section::Steps => true,
            _ => false,
        }
    }

    /// The script, where the text may end after the lines before that one.
    pub(crate) fn finish(self, line: u64) -> Result<Script, ScriptError>
        ensures { result ≡ finished line self }
    {
        if !self.may_end() {
            drop(self);
            return Err(ScriptError::Refused {
                line,
                reason: Reason::Order,
            });
        }
        let Draft {
            section: _,
            space,
            regions: _,
            sessions,
            calls: _,
            steps,
        } = self;
        Ok(Script {
            space,
            sessions,
            steps,
        })
    }

    /// What was read, as a script.
    pub(crate) fn into_script(self) -> Script
        ensures { result ≡ script_so_far self }
    {
        let Draft {
            section: _,
            space,
            regions: _,
            sessions,
            calls: _,
            steps,
        } = self;
        Script {
            space,
            sessions,
            steps,
        }
    }
}
