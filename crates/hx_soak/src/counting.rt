//! How many calls ended, and how.

ghost use Rattle.std.specs.Prelude.{◌≡◌, ◌++◌, [], OnOk};
ghost use Rattle.hx_soak.specs.Summing.{count_line, counts_text};
ghost use Rattle.hx_soak.specs.Tallying.{how_many, is_counted, tally_of};

use hx_print::{put_bytes, put_number};
use hx_types::{Answer, Memory, Record};

/// Which calls are counted: those that ended, or those of them that were answered so.
#[derive(Clone, Copy)]
pub enum Counted {
    Ended,
    Done,
    NotFound,
    CmpFail,
    Found,
    /// Searches that ended with rows.
    Search,
}

/// Whether the call is counted. A call in doubt has no end.
fn is_counted(call: &Record, what: Counted) -> bool
    ensures { result ≡ is_counted what call.now }
{
    if call.end.is_none() {
        return false;
    }
    match what {
        Counted::Ended => true,
        Counted::Done => matches!(call.answer, Some(Answer::Done)),
        Counted::NotFound => matches!(call.answer, Some(Answer::NotFound)),
        Counted::CmpFail => matches!(call.answer, Some(Answer::CmpFail)),
        Counted::Found => matches!(call.answer, Some(Answer::Found(_))),
        Counted::Search => matches!(call.answer, Some(Answer::Rows(_))),
    }
}

/// How many of the calls are counted.
fn how_many(records: &[Record], what: Counted) -> u64
    ensures { result ≡ how_many what records.now }
{
    let mut count = 0;
    for call in records {
        if is_counted(call, what) {
            count += 1;
        }
    }
    count
}

/// Appends a word and how many.
#[tactic(auto, unfolding(crate::specs::Summing::count_line))]
pub fn put_count(out: &mut Vec<u8>, word: &[u8], count: u64) -> Result<(), Memory>
    ensures { OnOk result (out.new.items ≡ out.old.items ++ count_line word.now count) }
{
    put_bytes(out, word)?;
    put_bytes(out, b" ")?;
    put_number(out, count)?;
    put_bytes(out, b"\n")
}

/// Appends how many of the recorded calls ended, and ended so.
#[tactic(auto, unfolding(crate::specs::Summing::counts_text))]
pub fn put_counts(out: &mut Vec<u8>, records: &[Record]) -> Result<(), Memory>
    ensures { OnOk result (out.new.items ≡ out.old.items ++ counts_text (tally_of records.now [])) }
{
    put_count(out, b"calls", how_many(records, Counted::Ended))?;
    put_count(out, b"done", how_many(records, Counted::Done))?;
    put_count(out, b"notfound", how_many(records, Counted::NotFound))?;
    put_count(out, b"cmpfail", how_many(records, Counted::CmpFail))?;
    put_count(out, b"found", how_many(records, Counted::Found))?;
    put_count(out, b"searches", how_many(records, Counted::Search))
}
