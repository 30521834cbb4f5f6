ghost use Rattle.std.specs.Prelude.{◌≡◌, ◌≢◌, ◌⊎◌, ◌+◌, ◌≤◌, ℕ, List, [], Some, IfOk, IfErr, IfSome, length};
ghost use Rattle.std.specs.declared.string.String.{String};
ghost use Rattle.std.specs.declared.alloc.Global.{Global};
ghost use Rattle.std.specs.Io.KnownBytes.{Appends};
ghost use Rattle.hx_io.specs.Causes.{Rose};
ghost use Rattle.hx_io.specs.Pieces.{AppendsPrefix, ConsumesExactly};
ghost use Rattle.hx_script.specs.declared.errors.Reason.{Reason};
ghost use Rattle.hx_script.specs.declared.errors.Reason.TheVariants as a_reason;
ghost use Rattle.hx_model.specs.Types.{Actor, Entry};
ghost use Rattle.hx_replay.specs.Calling.{Refuses, WearsOut, Writes, WritesPrefix};
ghost use Rattle.hx_replay.specs.Streams.{drawn, filled};
ghost use Rattle.hx_replay.specs.Causes.{CommandEnds, IsCause, IsFaulty, IsJudged, IsJudgedResult, IsTaken, IsWorn, ReadsText, Replays, limit};
ghost use Rattle.hx_words.specs.Saying.{Says};
ghost use Rattle.hx_replay.specs.Outcomes.{HasNoTraces, IsSilent, status_of};
ghost use Rattle.hx_replay.specs.declared.outcomes.Outcome.{Outcome};

use crate::answering::answer;
use crate::outcomes::{Done, Ended, Outcome, Written, status};
use hx_io::{Sink, Source, read_all, write_all};
use hx_script::Reason;
use hx_spaces::Traces;
use hx_types::{Actor, LONGEST_SCRIPT};
use hx_words::Command;
use std::alloc::Global;

/// How many bytes a script may have.
const LIMIT: usize = LONGEST_SCRIPT;

/// The call with a command. What is said of words is said of those that say it.
pub fn answer_command<S: Source, K: Sink>(
    alloc: Global,
    command: Command,
    source: &mut S,
    sink: &mut K,
) -> Done
    ensures status { result.status ≡ status_of result.outcome }
    ensures usage { result.outcome ≢ Outcome.Usage }
    ensures fine { (words : List (String Global)) → Says words command → result.outcome ≡ Outcome.Fine
        → Writes words (drawn S.Source source.old source.new) (filled K.Sink sink.old sink.new) result.traces }
    ensures refused { (words : List (String Global)) → Says words command → (line : ℕ) → (reason : Reason) → result.outcome ≡ Outcome.Refused line reason
        → Refuses words (drawn S.Source source.old source.new) line reason result.traces }
    ensures too_large { result.outcome ≡ Outcome.TooLarge → ConsumesExactly (S.left source.old) (S.left source.new) (limit + 1) }
    ensures read_fault { result.outcome ≡ Outcome.ReadFault → Rose (S.faults source.old) (S.faults source.new) }
    ensures write_fault { result.outcome ≡ Outcome.WriteFault → Rose (K.faults sink.old) (K.faults sink.new) }
    ensures prefix { (words : List (String Global)) → Says words command → result.outcome ≡ Outcome.WriteFault
        → WritesPrefix words (drawn S.Source source.old source.new) (filled K.Sink sink.old sink.new) result.traces }
    ensures worn { (words : List (String Global)) → Says words command → (a : Actor) → result.outcome ≡ Outcome.Worn a
        → WearsOut words (drawn S.Source source.old source.new) result.traces a }
    ensures wears { (text : List ℕ) → (traces : List (List Entry)) → (a : Actor) → Replays command
        → S.left source.old ≡ Some text → length text ≤ limit → IsWorn text traces a
        → ¬ Rose (S.faults source.old) (S.faults source.new)
        → (result.outcome ≡ Outcome.Worn a) ⊎ (result.outcome ≡ Outcome.Memory) }
    ensures judged { IfSome (S.left source.old) (λ text. IsJudged command text result.outcome) }
    ensures faulty { (text : List ℕ) → (outcome : Outcome) → S.left source.old ≡ Some text → IsFaulty command text outcome
        → ¬ Rose (S.faults source.old) (S.faults source.new)
        → (result.outcome ≡ outcome) ⊎ (result.outcome ≡ Outcome.Memory) }
    ensures complete { (text : List ℕ) → S.left source.old ≡ Some text → length text ≤ limit → IsTaken command text
        → ¬ Rose (S.faults source.old) (S.faults source.new)
        → ¬ Rose (K.faults sink.old) (K.faults sink.new)
        → (result.outcome ≡ Outcome.Fine) ⊎ (result.outcome ≡ Outcome.Memory)
        ⊎ ((a : Actor) × (result.outcome ≡ Outcome.Worn a)) }
    ensures silent { IsSilent result.outcome → sink.new ≡ sink.old }
    ensures no_traces { HasNoTraces result.outcome → result.traces ≡ [] }
    ensures source_faults { S.faults source.old ≤ S.faults source.new }
    ensures sink_faults { K.faults sink.old ≤ K.faults sink.new }
{
    match read_and_answer(alloc, command, source) {
        Ok(Ended::Whole(made)) => write(sink, made),
        Ok(Ended::Refused { line, traces }) => refused(line, traces),
        Ok(Ended::Worn { actor, traces }) => worn(actor, traces),
        Err(outcome) => silent(alloc, outcome),
    }
}

/// The end of a call that has no trace.
pub fn silent(alloc: Global, outcome: Outcome) -> Done
    ensures outcome { result.outcome ≡ outcome }
    ensures status { result.status ≡ status_of outcome }
    ensures traces { result.traces ≡ [] }
{
    Done {
        status: status(outcome),
        outcome,
        traces: Traces::new(alloc),
    }
}

/// A replay that ended at a step which can't be taken: its traces, and nothing to write.
fn refused(line: u64, traces: Traces) -> Done
    ensures outcome { result.outcome ≡ Outcome.Refused line a_reason.Step }
    ensures status { result.status ≡ status_of result.outcome }
    ensures traces { result.traces ≡ traces }
{
    let outcome = Outcome::Refused {
        line,
        reason: Reason::Step,
    };
    Done {
        status: status(outcome),
        outcome,
        traces,
    }
}

/// A replay that a worn actor ended: its traces, and nothing to write.
fn worn(actor: Actor, traces: Traces) -> Done
    ensures outcome { result.outcome ≡ Outcome.Worn actor }
    ensures status { result.status ≡ status_of result.outcome }
    ensures traces { result.traces ≡ traces }
{
    let outcome = Outcome::Worn(actor);
    Done {
        status: status(outcome),
        outcome,
        traces,
    }
}

/// Reads the source to its end and answers its text.
#[tactic(auto, using(crate::proofs::Making::made_is_judged))]
fn read_and_answer<S: Source>(
    alloc: Global,
    command: Command,
    source: &mut S,
) -> Result<Ended, Outcome>
    ensures answer { IfOk result (λ made. (text : List ℕ)
        × ReadsText (S.left source.old) (S.left source.new) text
        × CommandEnds command text made) }
    ensures cause { IfErr result (IsCause command (S.left source.old) (S.left source.new) (S.faults source.old) (S.faults source.new)) }
    ensures judged { IfSome (S.left source.old) (λ text. IsJudgedResult command text result) }
    ensures made { IfSome (S.left source.old) (λ text. IfOk result (CommandEnds command text)) }
    ensures faults { S.faults source.old ≤ S.faults source.new }
{
    let text = read_all(alloc, source, LIMIT)?;
    let made = answer(alloc, command, text.as_slice())?;
    Ok(made)
}

/// Writes the answer.
fn write<K: Sink>(sink: &mut K, made: Written) -> Done
    ensures status { result.status ≡ status_of result.outcome }
    ensures traces { result.traces ≡ made.traces }
    ensures ends { (result.outcome ≡ Outcome.Fine) ⊎ (result.outcome ≡ Outcome.WriteFault) }
    ensures fine { result.outcome ≡ Outcome.Fine → Appends (K.held sink.old) (K.held sink.new) made.bytes.items }
    ensures prefix { result.outcome ≡ Outcome.WriteFault → AppendsPrefix (K.held sink.old) (K.held sink.new) made.bytes.items }
    ensures fault { result.outcome ≡ Outcome.WriteFault → Rose (K.faults sink.old) (K.faults sink.new) }
    ensures faults { K.faults sink.old ≤ K.faults sink.new }
{
    let Written { traces, bytes } = made;
    let outcome = match write_all(sink, bytes.as_slice()) {
        Ok(()) => Outcome::Fine,
        Err(_) => Outcome::WriteFault,
    };
    Done {
        status: status(outcome),
        outcome,
        traces,
    }
}
