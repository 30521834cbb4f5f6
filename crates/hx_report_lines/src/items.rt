//! Reading the lines of histories.

ghost use Rattle.std.specs.Prelude.{◌≡◌, ◌++◌, ◌∷◌, []};
ghost use Rattle.std.specs.Str.{bytes_eq};
ghost use Rattle.hx_types.specs.Spaces.{IsSpace};
ghost use Rattle.hx_report_lines.specs.Readers.{Gives, Reads};
ghost use Rattle.hx_report_lines.specs.Parts.{caller, item_answer, item_front, item_in, item_of, item_word, key_in, key_of};

use crate::cursor::Cursor;
use crate::errors::Stop;
use crate::histories::{ItemLine, ItemWord};
use crate::printing::{put_item, put_key};
use crate::values::{is, state, text};
use hx_types::{Caller, SessionId, Space, Text, Version};
use std::alloc::Global;

/// Whether a line was printed so, with its newline.
#[tactic(auto, using(crate::proofs::Lengths::printed_so, crate::proofs::Lengths::printed_not))]
pub(crate) fn is_line(printed: &[u8], line: &[u8]) -> bool
    ensures { result ≡ bytes_eq printed.now (line.now ++ 10 ∷ []) }
{
    let Some((last, front)) = printed.split_last() else {
        return false;
    };
    let ends = *last == b'\n';
    let same = is(front, line);
    ends && same
}

/// Takes a caller.
#[tactic(auto, unfolding(crate::specs::Parts::caller))]
pub(crate) fn caller(left: &mut Cursor<'_>) -> Result<Caller, Stop>
    ensures { Reads (λ c. c) result left.new (caller left.old) }
{
    left.word(b"u")?;
    let session = left.short_number()?;
    left.word(b".")?;
    let number = left.short_number()?;
    if session == 0 || number == 0 {
        return Err(Stop::Unread);
    }
    Ok(Caller {
        session: SessionId(session),
        number,
    })
}

fn item_word(word: &[u8]) -> Option<ItemWord>
    ensures { result ≡ item_word word.now }
{
    if is(word, b"done") {
        Some(ItemWord::Done)
    } else if is(word, b"notfound") {
        Some(ItemWord::NotFound)
    } else if is(word, b"cmpfail") {
        Some(ItemWord::CmpFail)
    } else if is(word, b"found") {
        Some(ItemWord::Found)
    } else if is(word, b"overflow") {
        Some(ItemWord::Overflow)
    } else if is(word, b"toolong") {
        Some(ItemWord::TooLong)
    } else {
        None
    }
}

#[tactic(auto, unfolding(crate::specs::Parts::item_answer))]
fn item_answer(left: &mut Cursor<'_>) -> Result<ItemWord, Stop>
    ensures { Reads (λ w. w) result left.new (item_answer left.old) }
{
    left.word(b" ")?;
    let Some(word) = item_word(left.piece()) else {
        return Err(Stop::Unread);
    };
    left.word(b" ")?;
    Ok(word)
}

/// Takes an item up to its object, which is left out.
#[tactic(auto, unfolding(crate::specs::Parts::item_front))]
fn item_front(left: &mut Cursor<'_>) -> Result<ItemLine, Stop>
    ensures { Reads (λ x. x) result left.new (item_front left.old) }
{
    left.word(b"item ")?;
    let version = Version(left.number()?);
    left.word(b" ")?;
    let caller = caller(left)?;
    let word = item_answer(left)?;
    Ok(ItemLine {
        version,
        caller,
        word,
        object: None,
    })
}

fn item_in(alloc: Global, space: &Space, line: &[u8]) -> Result<ItemLine, Stop>
    requires { IsSpace space.now }
    ensures { Gives (λ x. x) result (item_in space.now line.now) }
{
    let mut left = Cursor::new(line);
    let mut item = item_front(&mut left)?;
    item.object = state(alloc, space, left.rest())?;
    Ok(item)
}

/// The item of a line.
#[tactic(auto, unfolding(crate::specs::Parts::item_of))]
pub(crate) fn item_of(alloc: Global, space: &Space, line: &[u8]) -> Result<ItemLine, Stop>
    requires { IsSpace space.now }
    ensures { Gives (λ x. x) result (item_of space.now line.now) }
{
    let item = item_in(alloc, space, line)?;
    let mut printed = Vec::new(alloc);
    put_item(&mut printed, space, &item)?;
    if is_line(&printed, line) {
        Ok(item)
    } else {
        Err(Stop::Unread)
    }
}

#[tactic(auto, unfolding(crate::specs::Parts::key_in))]
fn key_in(alloc: Global, space: &Space, line: &[u8]) -> Result<Text, Stop>
    requires { IsSpace space.now }
    ensures { Gives (λ t. t) result (key_in space.now line.now) }
{
    let mut left = Cursor::new(line);
    left.word(b"history ")?;
    text(alloc, space, left.rest())
}

/// The key of a history's first line.
#[tactic(auto, unfolding(crate::specs::Parts::key_of))]
pub(crate) fn key_of(alloc: Global, space: &Space, line: &[u8]) -> Result<Text, Stop>
    requires { IsSpace space.now }
    ensures { Gives (λ t. t) result (key_of space.now line.now) }
{
    let key = key_in(alloc, space, line)?;
    let mut printed = Vec::new(alloc);
    put_key(&mut printed, &key)?;
    if is_line(&printed, line) {
        Ok(key)
    } else {
        Err(Stop::Unread)
    }
}
