//! Reading a report.

ghost use Rattle.std.specs.Prelude.{◌≡◌, ◌≢◌, ◌∷◌, ◌<◌, ◌≤◌, ℕ, length, IfOk, IsErr, IsErrOf};
ghost use Rattle.hx_script.specs.Texts.{line_len, lines_of};
ghost use Rattle.hx_report_lines.specs.Drafts.{Answers, at_stop, draft_of, ends_whole, value_of};
ghost use Rattle.hx_report_lines.specs.declared.errors.AuditError.TheVariants.{Unread};
ghost use Rattle.hx_report_lines.specs.Printed.{text_of};
ghost use Rattle.hx_report_lines.specs.Unread.{IsUnreadAt};
ghost use Rattle.hx_report_lines.specs.Values.{IsReportValue, ReportValue};

use crate::drafts::{Draft, Section};
use crate::errors::{AuditError, Stop};
use crate::reports::Report;
use hx_types::Sequence;
use std::alloc::Global;
use std::mem;

/// How many bytes stand before the first newline.
#[tactic(auto, using(hx_script::proofs::Lines::line_len_le))]
fn line_len(text: &[u8]) -> usize
    ensures value { result ≡ line_len text.now }
    ensures within { result ≤ length text.now }
{
    text.iter().take_while(|b| **b != b'\n').count()
}

/// The first line without its newline, and the text after it.
#[tactic(auto, using(hx_script::proofs::Lines::line_and_rest, hx_script::proofs::Lines::line_alone))]
fn first_line(text: &[u8]) -> (&[u8], &[u8])
    requires { 0 < length text.now }
    ensures lines { lines_of text.now ≡ result.0.now ∷ lines_of result.1.now }
    ensures shorter { length result.1.now < length text.now }
{
    let (line, after) = text.split_at(line_len(text));
    match after.split_first() {
        None => (line, after),
        Some((_, rest)) => (line, rest),
    }
}

fn at(stop: Stop, line: u64) -> AuditError
    ensures { result ≡ at_stop line stop }
{
    match stop {
        Stop::Memory => AuditError::Memory,
        Stop::Unread => AuditError::Unread { line },
    }
}

/// Whether the last byte is a newline.
fn ends_whole(text: &[u8]) -> bool
    ensures { result ≡ ends_whole text.now }
{
    match text.split_last() {
        Some((last, _)) => *last == b'\n',
        None => false,
    }
}

/// The draft of a whole text.
#[tactic(auto, using(crate::proofs::LinesRead::reads_stop, crate::proofs::LinesRead::reads_end, crate::proofs::DraftsRead::good_space, crate::proofs::DraftsRead::good_start, crate::proofs::DraftsRead::good_value))]
fn draft_of(alloc: Global, text: &[u8]) -> Result<Draft, AuditError>
    ensures value { Answers result (draft_of text.now) }
    ensures valid { IfOk result (λ draft. IsReportValue (value_of draft)) }
{
    let mut draft = Draft::new(alloc);
    let mut number = 0u64;
    let mut rest = text;
    'lines: while !rest.is_empty() {
        let (line, after) = first_line(rest);
        number += 1;
        if let Err(stop) = draft.read_line(alloc, line) {
            drop(draft);
            return Err(at(stop, number));
        }
        rest = after;
    }
    if draft.section != Section::Over || !ends_whole(text) {
        drop(draft);
        return Err(AuditError::Unread { line: number + 1 });
    }
    Ok(draft)
}

/// The report whose text it is.
///
/// # Errors
///
/// [`Unread`](AuditError::Unread) where no report has the text, with the first line at which the
/// lines so far begin no report's text, or the one after the last (`specs/Unread.antt`); and
/// [`Memory`](AuditError::Memory). Wherever no report has the text one of them comes.
#[tactic(auto, using(crate::proofs::TextsRead::reads_its_text, crate::proofs::Exact::unread_at))]
pub fn read_report(alloc: Global, text: &[u8]) -> Result<Report, AuditError>
    ensures ok { IfOk result (λ report. text_of report ≡ text.now) }
    ensures unread { (line : ℕ) → IsErrOf result (Unread line) → IsUnreadAt text.now line }
    ensures total { ((report : ReportValue) → IsReportValue report → text_of report ≢ text.now) → IsErr result }
{
    let mut draft = draft_of(alloc, text)?;
    let blocks = mem::replace(&mut draft.blocks, Sequence::new(alloc));
    Ok(Report::new(draft.version, blocks))
}
