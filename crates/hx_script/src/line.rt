//! The tokens of a line that are left, taken from the front.

ghost use Rattle.std.specs.Prelude.{◌≡◌, [], ◌∷◌, MatchOption, MatchBool, ◌<◌, length, map, IfOk};
ghost use Rattle.std.specs.List.{AllByRecursion};
ghost use Rattle.hx_lex.specs.Letters.{IsWord};
ghost use Rattle.hx_lex.specs.Lines.{tokens_of};
ghost use Rattle.hx_lex.specs.Spelling.{IsTokenOf};
ghost use Rattle.hx_script.specs.Toks.{meaning};
ghost use Rattle.hx_script.specs.Grammar.{toks_from};
ghost use Rattle.hx_script.specs.Readers.{Reads, Gives, word, number, number_in, natural, number_from, text, end, sign, fixed, is_at};
ghost use Rattle.hx_script.specs.Values.{is_dots};
ghost use Rattle.hx_script.specs.Parts.{said};

use crate::errors::{Reason, Stop};
use crate::keyword::is;
use hx_lex::{LexError, Token, TokenKind, Tokens, tokens};
use hx_types::Text;
use std::alloc::Global;
use std::marker::Model;
use std::str;

/// What a token says.
#[derive(Clone, Copy)]
pub(crate) enum Part<'a> {
    Word(&'a str),
    Number(i64),
    Text(&'a Text),
    Sign(&'a [u8]),
}

/// Where a repetition ends: at the end of the line, or also before the word `set`.
#[derive(Clone, Copy)]
pub enum Until {
    End,
    Set,
}

/// The tokens of a line that weren't taken yet.
#[derive(Drop)]
pub(crate) struct Line<'a> {
    line: &'a [u8],
    tokens: &'a [Token],
}

impl<'a> Model for Line<'a> {
    ghost use Rattle.std.specs.Prelude.{List, map};
    ghost use Rattle.std.specs.List.{AllByRecursion};
    ghost use Rattle.hx_lex.specs.Spelling.{IsTokenOf};
    ghost use Rattle.hx_script.specs.Toks.{Tok, meaning};

    ghost Value = { List Tok };

    ghost view = { λ l. map (meaning l.line.now) l.tokens.now };

    ghost invariant = { λ l. AllByRecursion (IsTokenOf l.line.now) l.tokens.now };
}

/// The tokens of a line in order.
pub(crate) fn tokens_in(alloc: Global, line: &[u8]) -> Result<Tokens, Stop>
    ensures toks { Gives (λ ts. map (meaning line.now) ts) result (toks_from line.now (tokens_of line.now)) }
    ensures spelled { IfOk result (λ ts. AllByRecursion (IsTokenOf line.now) ts) }
{
    match tokens(alloc, line) {
        Ok(tokens) => Ok(tokens),
        Err(LexError::Memory) => Err(Stop::Memory),
        Err(_) => Err(Stop::Fault(Reason::Token)),
    }
}

/// A word is ASCII, so a text. That is proved, and so isn't looked at.
#[tactic(auto, using(crate::proofs::Spelled::word_is_text))]
fn word_text(bytes: &[u8]) -> &str
    requires { IsWord bytes.now }
    ensures { result.now ≡ bytes.now }
{
    unsafe { str::from_utf8_unchecked(bytes) }
}

impl<'a> Line<'a> {
    pub(crate) fn new(line: &'a [u8], tokens: &'a [Token]) -> Line<'a>
        requires { AllByRecursion (IsTokenOf line.now) tokens.now }
        ensures { result ≡ map (meaning line.now) tokens.now }
    {
        Line { line, tokens }
    }

    pub(crate) fn is_empty(&self) -> bool
        ensures { MatchBool result (self.now ≡ []) (0 < length self.now) }
    {
        self.tokens.is_empty()
    }

    pub(crate) fn next(&mut self) -> Option<Part<'a>>
        ensures { MatchOption result ((self.old ≡ []) × (self.new ≡ [])) (λ p. self.old ≡ said p ∷ self.new) }
    {
        let (token, rest) = self.tokens.split_first()?;
        let slice = &self.line[token.start..token.end];
        self.tokens = rest;
        Some(match &token.kind {
            TokenKind::Word => Part::Word(word_text(slice)),
            TokenKind::Number(n) => Part::Number(*n),
            TokenKind::Text(t) => Part::Text(t),
            TokenKind::Sign => Part::Sign(slice),
        })
    }

    pub(crate) fn word(&mut self) -> Result<&'a str, Stop>
        ensures { Reads (λ w. w.now) result self.new (word self.old) }
    {
        match self.next() {
            Some(Part::Word(w)) => Ok(w),
            _ => Err(Stop::Fault(Reason::Order)),
        }
    }

    pub(crate) fn number(&mut self) -> Result<i64, Stop>
        ensures { Reads (λ n. n) result self.new (number self.old) }
    {
        match self.next() {
            Some(Part::Number(n)) => Ok(n),
            _ => Err(Stop::Fault(Reason::Order)),
        }
    }

    pub(crate) fn text(&mut self) -> Result<&'a Text, Stop>
        ensures { Reads (λ t. t.now) result self.new (text self.old) }
    {
        match self.next() {
            Some(Part::Text(t)) => Ok(t),
            _ => Err(Stop::Fault(Reason::Order)),
        }
    }

    #[tactic(auto, unfolding(crate::specs::Readers::number_in))]
    pub(crate) fn number_in(&mut self, lo: u32, hi: u32) -> Result<u32, Stop>
        ensures { Reads (λ n. n) result self.new (number_in lo hi self.old) }
    {
        let n = self.number()?;
        if n < i64::from(lo) || n > i64::from(hi) {
            return Err(Stop::Fault(Reason::Bounds));
        }
        Ok(n as u32)
    }

    /// A number that is 0 or more.
    #[tactic(auto, unfolding(crate::specs::Readers::natural))]
    pub(crate) fn natural(&mut self) -> Result<u64, Stop>
        ensures { Reads (λ n. n) result self.new (natural self.old) }
    {
        let n = self.number()?;
        if n < 0 {
            return Err(Stop::Fault(Reason::Bounds));
        }
        Ok(n as u64)
    }

    /// A number that is `lo` or more.
    #[tactic(auto, unfolding(crate::specs::Readers::number_from))]
    pub(crate) fn number_from(&mut self, lo: i64) -> Result<i64, Stop>
        ensures { Reads (λ n. n) result self.new (number_from lo self.old) }
    {
        let hi = self.number()?;
        if lo > hi {
            return Err(Stop::Fault(Reason::Bounds));
        }
        Ok(hi)
    }

    pub(crate) fn sign(&mut self, wanted: &[u8]) -> Result<(), Stop>
        ensures { Reads (λ u. u) result self.new (sign wanted.now self.old) }
    {
        match self.next() {
            Some(Part::Sign(s)) if s == wanted => Ok(()),
            _ => Err(Stop::Fault(Reason::Order)),
        }
    }

    /// That very word.
    pub(crate) fn fixed(&mut self, wanted: &[u8]) -> Result<(), Stop>
        ensures { Reads (λ u. u) result self.new (fixed wanted.now self.old) }
    {
        match self.next() {
            Some(Part::Word(w)) if w.as_bytes() == wanted => Ok(()),
            _ => Err(Stop::Fault(Reason::Order)),
        }
    }

    pub(crate) fn end(&mut self) -> Result<(), Stop>
        ensures { Reads (λ u. u) result self.new (end self.old) }
    {
        match self.next() {
            None => Ok(()),
            Some(_) => Err(Stop::Fault(Reason::Order)),
        }
    }

    /// Whether a repetition ends here.
    pub(crate) fn is_at(&self, until: Until) -> bool
        ensures { result ≡ is_at until self.now }
    {
        let Some((token, _)) = self.tokens.split_first() else {
            return true;
        };
        match (until, &token.kind) {
            (Until::Set, TokenKind::Word) => is(&self.line[token.start..token.end], b"set"),
            _ => false,
        }
    }

    /// Whether `..` comes next.
    pub(crate) fn is_at_dots(&self) -> bool
        ensures { result ≡ is_dots self.now }
    {
        let Some((token, _)) = self.tokens.split_first() else {
            return false;
        };
        match &token.kind {
            TokenKind::Sign => is(&self.line[token.start..token.end], b".."),
            _ => false,
        }
    }
}
