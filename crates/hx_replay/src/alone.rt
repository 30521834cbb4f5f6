ghost use Rattle.std.specs.Prelude.{◌≡◌, ◌↔◌, ◌⊎◌, ◌+◌, ◌≤◌, ℕ, []};
ghost use Rattle.hx_io.specs.Causes.{Rose};
ghost use Rattle.hx_io.specs.Pieces.{ConsumesExactly};
ghost use Rattle.hx_script.specs.declared.errors.Reason.{Reason};
ghost use Rattle.hx_script.specs.declared.errors.Reason.TheVariants as a_reason;
ghost use Rattle.hx_model.specs.Types.{Actor};
ghost use Rattle.hx_replay.specs.Calling.{EndsAudit, IsAuditDecided, IsCommandDecided, Refuses, WearsOut, Writes, WritesPrefix};
ghost use Rattle.hx_replay.specs.Streams.{drawn, filled};
ghost use Rattle.hx_replay.specs.Causes.{limit};
ghost use Rattle.hx_words.specs.Saying.{Says, SaysAudit};
ghost use Rattle.hx_replay.specs.Outcomes.{HasNoTraces, IsSilent, status_of};
ghost use Rattle.hx_replay.specs.declared.outcomes.Outcome.{Outcome};
ghost use Rattle.hx_words.specs.declared.commands.Command.{Command};

use crate::auditing::audit_source;
use crate::commanded::{answer_command, silent};
use crate::outcomes::{Done, Outcome};
use hx_io::{Sink, Source};
use hx_words::{Request, request_of};
use std::alloc::Global;

/// The program: it takes its words, the source of its script or report and the sink of its answer.
///
/// It reads the source to its end: a script of one space or several. With the words `replay` it
/// takes the script's steps, goes on by the schedule until there is nothing left to do, and writes
/// the report, and with the words `replay --trace` every entry and its posts in it too; with the
/// words `plan` it writes which regions each search of the script asks. With the word `audit` it
/// reads a report, of whichever store, and writes `audit yes` where it breaks no clause.
///
/// # Errors
///
/// Each outcome but `Memory` comes exactly where its cause holds. The answer is made whole before
/// the first write, so nothing is written with any outcome but `Fine` and `WriteFault`.
///
/// An actor makes at most 1,048,576 entries in its space: `Worn` comes where the next entry of a
/// replay is one more of an actor that has made so many, and the traces are the runs up to there.
pub fn hyperstore_alone<S: Source, K: Sink>(
    alloc: Global,
    words: &[String],
    source: &mut S,
    sink: &mut K,
) -> Done
    ensures status { result.status ≡ status_of result.outcome }

    // With status 0 under a command the text that the source gave is that of a script, of one space
    // or several, and there is a trace for each. Under `replay` these are the runs by its steps and
    // the schedule, each key's history is linear, each finished search whole and true, every answer
    // has its cause, each session begins its calls in order, one after another, whatever their
    // spaces, and the report was written and nothing else; under `plan` the plans of its searches.
    ensures fine { result.outcome ≡ Outcome.Fine → SaysAudit words.now
        ⊎ Writes words.now (drawn S.Source source.old source.new) (filled K.Sink sink.old sink.new) result.traces }

    // Under `audit` the text is that of a report. With status 0 no clause of it is broken and
    // `audit yes` was written and nothing else; with status 1 the named clause is, and no earlier
    // one. There is no trace. For a source that tells its bytes these alone decide, but for faults
    // and want of memory.
    ensures audited { SaysAudit words.now → EndsAudit (drawn S.Source source.old source.new) (filled K.Sink sink.old sink.new) result.outcome }
    ensures audit_decided { SaysAudit words.now → IsAuditDecided (drawn S.Source source.old source.new) (filled K.Sink sink.old sink.new) result.outcome }
    ensures audit_traces { SaysAudit words.now → result.traces ≡ [] }

    // What each other outcome comes from. A replay that refuses a step hands back the run before
    // it.
    ensures usage { (result.outcome ≡ Outcome.Usage) ↔ (((command : Command) → ¬ Says words.now command) × ¬ SaysAudit words.now) }
    ensures refused { (line : ℕ) (reason : Reason) → result.outcome ≡ Outcome.Refused line reason
        → SaysAudit words.now ⊎ Refuses words.now (drawn S.Source source.old source.new) line reason result.traces }
    ensures too_large { result.outcome ≡ Outcome.TooLarge → ConsumesExactly (S.left source.old) (S.left source.new) (limit + 1) }
    ensures read_fault { result.outcome ≡ Outcome.ReadFault → Rose (S.faults source.old) (S.faults source.new) }
    ensures write_fault { result.outcome ≡ Outcome.WriteFault → Rose (K.faults sink.old) (K.faults sink.new) }
    ensures prefix { result.outcome ≡ Outcome.WriteFault → SaysAudit words.now
        ⊎ WritesPrefix words.now (drawn S.Source source.old source.new) (filled K.Sink sink.old sink.new) result.traces }

    // Under `replay` the schedule came to an entry of an actor that has made all its entries. The
    // traces are the runs up to there.
    ensures worn { (a : Actor) → result.outcome ≡ Outcome.Worn a → WearsOut words.now (drawn S.Source source.old source.new) result.traces a }

    // For a source that tells its bytes these alone decide, but for faults and want of memory.
    // Where the text's script has a run that ends at a worn actor, the outcome is no other.
    ensures decided { IsCommandDecided words.now (drawn S.Source source.old source.new) (filled K.Sink sink.old sink.new) result.outcome }

    // Nothing is written with the other outcomes, and there is no trace but where an actor is worn
    // or a step is refused.
    ensures silent { IsSilent result.outcome → sink.new ≡ sink.old }
    ensures no_traces { HasNoTraces result.outcome → result.traces ≡ [] }
    ensures untouched { result.outcome ≡ Outcome.Usage → source.new ≡ source.old }

    // Counts of faults never fall.
    ensures source_faults { S.faults source.old ≤ S.faults source.new }
    ensures sink_faults { K.faults sink.old ≤ K.faults sink.new }
{
    match request_of(words) {
        Some(Request::Command(command)) => return answer_command(alloc, command, source, sink),
        Some(Request::Audit) => return silent(alloc, audit_source(alloc, source, sink)),
        _ => {}
    }
    silent(alloc, Outcome::Usage)
}
