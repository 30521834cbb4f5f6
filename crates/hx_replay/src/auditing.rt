ghost use Rattle.std.specs.Prelude.{◌≡◌, ◌≤◌, ℕ, List, IfOk, IfErr, IfSome, length};
ghost use Rattle.hx_audit.specs.declared.verdicts.Verdict.TheVariants as a_verdict;
ghost use Rattle.hx_replay.specs.Audits.{IsAudited, IsAuditJudged, IsNoReport, yes_line};
ghost use Rattle.hx_replay.specs.Calling.{EndsAudit, Shows};
ghost use Rattle.hx_replay.specs.Causes.{ReadsText, limit};
ghost use Rattle.hx_replay.specs.Outcomes.{IsSilent};
ghost use Rattle.hx_replay.specs.Streams.{Stream, drawn, filled};

use crate::outcomes::Outcome;
use hx_audit::{Verdict, audit};
use hx_io::{Sink, Source, read_all, write_all};
use hx_report_lines::read_report;
use hx_types::LONGEST_SCRIPT;
use std::alloc::Global;

/// How many bytes a report may have: as many as a script.
const LIMIT: usize = LONGEST_SCRIPT;

/// What is written where no clause is broken.
const YES: &[u8] = b"audit yes\n";

/// Reads the source to its end, judges the report whose text it gives, and writes `audit yes` where
/// no clause of it is broken.
pub fn audit_source<S: Source, K: Sink>(alloc: Global, source: &mut S, sink: &mut K) -> Outcome
    ensures ends { EndsAudit (drawn S.Source source.old source.new) (filled K.Sink sink.old sink.new) result }
    ensures judged { IfSome (S.left source.old) (λ text. IsAuditJudged text result) }
    ensures silent { IsSilent result → sink.new ≡ sink.old }
    ensures source_faults { S.faults source.old ≤ S.faults source.new }
    ensures sink_faults { K.faults sink.old ≤ K.faults sink.new }
{
    match read_and_judge(alloc, source) {
        Ok(Verdict::Yes) => say_yes(sink),
        Ok(Verdict::No { line, clause }) => Outcome::Wrong { line, clause },
        Err(outcome) => outcome,
    }
}

/// Reads the source to its end and judges the report whose text it gives.
fn read_and_judge<S: Source>(alloc: Global, source: &mut S) -> Result<Verdict, Outcome>
    ensures verdict { IfOk result (λ verdict. (text : List ℕ) × ReadsText (S.left source.old) (S.left source.new) text × IsAudited text verdict) }
    ensures cause { IfErr result (λ outcome. (sink : Stream) → EndsAudit (drawn S.Source source.old source.new) sink outcome) }
    ensures judged { IfSome (S.left source.old) (λ text. IfOk result (λ verdict. (length text ≤ limit) × IsAudited text verdict)) }
    ensures refused { IfSome (S.left source.old) (λ text. IfErr result (IsAuditJudged text)) }
    ensures faults { S.faults source.old ≤ S.faults source.new }
{
    let text = read_all(alloc, source, LIMIT)?;
    let verdict = judge(alloc, text.as_slice())?;
    Ok(verdict)
}

/// The verdict on the report that has this text.
///
/// # Errors
///
/// `Refused` exactly where no report has the text, with the first line with which none begins;
/// `Memory`.
fn judge(alloc: Global, text: &[u8]) -> Result<Verdict, Outcome>
    ensures verdict { IfOk result (IsAudited text.now) }
    ensures cause { IfErr result (IsNoReport text.now) }
{
    let report = read_report(alloc, text)?;
    let verdict = audit(alloc, &report)?;
    Ok(verdict)
}

fn say_yes<K: Sink>(sink: &mut K) -> Outcome
    ensures shows { Shows (filled K.Sink sink.old sink.new) yes_line result }
    ensures faults { K.faults sink.old ≤ K.faults sink.new }
{
    match write_all(sink, YES) {
        Ok(()) => Outcome::Fine,
        Err(_) => Outcome::WriteFault,
    }
}
