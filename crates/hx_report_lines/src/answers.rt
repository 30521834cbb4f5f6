//! Reading what a call was answered.

ghost use Rattle.std.specs.Prelude.{◌≡◌, ◌<◌, ◌^◌, true};
ghost use Rattle.hx_types.specs.Spaces.{IsSpace};
ghost use Rattle.hx_report_lines.specs.Calling.{answer_in, answer_of, answer_word, answered, counted, first_number, labeled, names_region, region_exists, second_number, word_and_numbers};
ghost use Rattle.hx_report_lines.specs.Readers.{Gives, Reads};

use crate::cursor::Cursor;
use crate::errors::Stop;
use crate::values::{is, object};
use hx_rules::count_regions;
use hx_types::{Answer, Epoch, Object, RegionId, Rows, Space, Version};
use std::alloc::Global;

/// The first word of an answer.
#[derive(Clone, Copy)]
pub enum AnswerWord {
    Open,
    Done,
    NotFound,
    CmpFail,
    Overflow,
    TooLong,
    Found,
    Rows,
    Refused,
    Doubt,
    Issued,
    Stopped,
    Member,
    Joining,
    Lost,
}

/// What a call was answered, with the version that its answer names and how many rows follow.
#[derive(Drop)]
pub struct Answered {
    pub version: Version,
    pub answer: Option<Answer>,
    pub rows: u64,
}

fn answer_word(word: &[u8]) -> Option<AnswerWord>
    ensures { result ≡ answer_word word.now }
{
    if is(word, b"open") {
        Some(AnswerWord::Open)
    } else if is(word, b"done") {
        Some(AnswerWord::Done)
    } else if is(word, b"notfound") {
        Some(AnswerWord::NotFound)
    } else if is(word, b"cmpfail") {
        Some(AnswerWord::CmpFail)
    } else if is(word, b"overflow") {
        Some(AnswerWord::Overflow)
    } else if is(word, b"toolong") {
        Some(AnswerWord::TooLong)
    } else if is(word, b"found") {
        Some(AnswerWord::Found)
    } else if is(word, b"rows") {
        Some(AnswerWord::Rows)
    } else if is(word, b"refused") {
        Some(AnswerWord::Refused)
    } else if is(word, b"doubt") {
        Some(AnswerWord::Doubt)
    } else if is(word, b"issued") {
        Some(AnswerWord::Issued)
    } else if is(word, b"stopped") {
        Some(AnswerWord::Stopped)
    } else if is(word, b"member") {
        Some(AnswerWord::Member)
    } else if is(word, b"joining") {
        Some(AnswerWord::Joining)
    } else if is(word, b"lost") {
        Some(AnswerWord::Lost)
    } else {
        None
    }
}

/// Takes a blank, any word, a blank and a number. That the word is the right one is seen when the
/// line is printed again.
#[tactic(auto, unfolding(crate::specs::Calling::labeled))]
fn labeled(left: &mut Cursor<'_>) -> Result<u64, Stop>
    ensures { Reads (λ n. n) result left.new (labeled left.old) }
{
    left.word(b" ")?;
    left.piece();
    left.word(b" ")?;
    left.number()
}

#[tactic(auto, unfolding(crate::specs::Calling::counted))]
fn counted(left: &mut Cursor<'_>) -> Result<u64, Stop>
    ensures { Reads (λ n. n) result left.new (counted left.old) }
{
    left.word(b" ")?;
    left.number()
}

fn first_number(left: &mut Cursor<'_>, word: AnswerWord) -> Result<u64, Stop>
    ensures { Reads (λ n. n) result left.new (first_number word left.old) }
{
    match word {
        AnswerWord::Open => Ok(0),
        AnswerWord::Rows => counted(left),
        _ => labeled(left),
    }
}

fn names_region(word: AnswerWord) -> bool
    ensures { result ≡ names_region word }
{
    matches!(word, AnswerWord::Refused | AnswerWord::Doubt)
}

fn second_number(left: &mut Cursor<'_>, word: AnswerWord) -> Result<u64, Stop>
    ensures { Reads (λ n. n) result left.new (second_number word left.old) }
{
    if names_region(word) {
        labeled(left)
    } else {
        Ok(0)
    }
}

/// An answer that stands with a number.
fn with_number(version: u64, answer: Answer) -> Answered
    ensures { result ≡ answered version answer }
{
    Answered {
        version: Version(version),
        answer: Some(answer),
        rows: 0,
    }
}

/// The answer of a word and its numbers, without an object and without rows.
fn answer_of(alloc: Global, word: AnswerWord, first: u64, second: u64) -> Answered
    requires region { names_region word ≡ true → first < 2 ^ 32 }
    ensures { result ≡ answer_of word first second }
{
    let epoch = Epoch(first);
    match word {
        AnswerWord::Open => Answered {
            version: Version(0),
            answer: None,
            rows: 0,
        },
        AnswerWord::Done => with_number(first, Answer::Done),
        AnswerWord::NotFound => with_number(first, Answer::NotFound),
        AnswerWord::CmpFail => with_number(first, Answer::CmpFail),
        AnswerWord::Overflow => with_number(first, Answer::Overflow),
        AnswerWord::TooLong => with_number(first, Answer::TooLong),
        AnswerWord::Found => with_number(first, Answer::Found(Object::new(alloc))),
        AnswerWord::Rows => Answered {
            version: Version(0),
            answer: Some(Answer::Rows(Rows::new(alloc))),
            rows: first,
        },
        AnswerWord::Refused => with_number(
            0,
            Answer::Refused {
                region: RegionId(first as u32),
                epoch: Epoch(second),
            },
        ),
        AnswerWord::Doubt => with_number(
            0,
            Answer::Doubt {
                region: RegionId(first as u32),
                epoch: Epoch(second),
            },
        ),
        AnswerWord::Issued => with_number(0, Answer::Issued { epoch }),
        AnswerWord::Stopped => with_number(0, Answer::Stopped { epoch }),
        AnswerWord::Member => with_number(0, Answer::Member { epoch }),
        AnswerWord::Joining => with_number(0, Answer::Joining { epoch }),
        AnswerWord::Lost => with_number(0, Answer::Lost { epoch }),
    }
}

/// Whether the region exists, where one is named.
fn region_exists(space: &Space, word: AnswerWord, region: u64) -> bool
    requires { IsSpace space.now }
    ensures exact { result ≡ region_exists space.now word region }
    ensures short { names_region word ≡ true → result ≡ true → region < 2 ^ 32 }
{
    !names_region(word) || region < u64::from(count_regions(space))
}

/// Takes an answer up to its object, which is left out.
#[tactic(auto, unfolding(crate::specs::Calling::word_and_numbers))]
fn word_and_numbers(
    alloc: Global,
    space: &Space,
    left: &mut Cursor<'_>,
) -> Result<(AnswerWord, Answered), Stop>
    requires { IsSpace space.now }
    ensures { Reads (λ x. x) result left.new (word_and_numbers space.now left.old) }
{
    let Some(word) = answer_word(left.piece()) else {
        return Err(Stop::Unread);
    };
    let first = first_number(left, word)?;
    if !region_exists(space, word, first) {
        return Err(Stop::Unread);
    }
    let second = second_number(left, word)?;
    Ok((word, answer_of(alloc, word, first, second)))
}

/// What a call was answered.
pub(crate) fn answer_in(alloc: Global, space: &Space, bytes: &[u8]) -> Result<Answered, Stop>
    requires { IsSpace space.now }
    ensures { Gives (λ a. a) result (answer_in space.now bytes.now) }
{
    let mut left = Cursor::new(bytes);
    let (word, mut answered) = word_and_numbers(alloc, space, &mut left)?;
    if matches!(word, AnswerWord::Found) {
        answered.answer = Some(Answer::Found(object(alloc, space, left.rest())?));
    }
    Ok(answered)
}
