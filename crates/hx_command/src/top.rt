ghost use Rattle.std.specs.Prelude.{◌≡◌, ◌≤◌, ◌⊎◌, [], length};
ghost use Rattle.hx_io.specs.Causes.{Rose};
ghost use Rattle.hx_types.specs.declared.ids.Actor.{Actor};
ghost use Rattle.hx_types.specs.declared.traces.Script.{Script as ScriptSeen};
ghost use Rattle.hx_soak.specs.Soaking.{script_drawn};
ghost use Rattle.hx_fate.specs.States.{never};
ghost use Rattle.hx_words.specs.Saying.{SaysRun, SaysShare, SaysSoak};
ghost use Rattle.hx_words.specs.declared.commands.Run.{Run as RunSeen};
ghost use Rattle.hx_words.specs.declared.commands.Share.{Share as ShareSeen};
ghost use Rattle.hx_words.specs.declared.commands.Soak.{Soak as SoakSeen};
ghost use Rattle.hx_replay.specs.Calling.{Ends};
ghost use Rattle.hx_replay.specs.Outcomes.{HasNoTraces, IsSilent, status_of};
ghost use Rattle.hx_command.specs.Telling.{Answers};
ghost use Rattle.hx_command.specs.Threads.{EndsRun, EndsShare, EndsSoak, HasEnough, HaveRisen, HaveRisenInEach, IsDecided, IsUnthreaded, any_version, spaces_of, tuning_of, version_1, workers_in};
ghost use Rattle.hx_replay.specs.declared.outcomes.Outcome.{Outcome};
ghost use Rattle.hx_replay.specs.declared.texts.Scripted.{Scripted as ScriptedSeen};
ghost use Rattle.hx_command.specs.HandedBack.{handed_back};
ghost use Rattle.hx_replay.specs.Streams.{drawn, filled};

use crate::commands::{run_words, soak_words};
use crate::endings::without_threads;
use crate::finished::Finished;
use crate::shared::share_words;
use hx_driver::Gate;
use hx_fate::Fate;
use hx_io::{Sink, Source};
use hx_replay::hyperstore_alone;
use hx_words::{Request, request_of};
use std::alloc::Global;
use std::sync::Wait;
use std::thread::Threads;

/// The program with threads: it takes its words, the source of its script and the sink of its
/// answer, a fate for each driver that the words may start, and a gate.
///
/// With the words of `run` it runs the script of the source on threads, space after space, and with
/// those of `soak` a script that it draws itself; with those of `share` callers on threads make the
/// calls of the source's script, one at a time behind one lock. All other words, `audit` among
/// them, it hands on to [`hyperstore_alone`]. Fates that no driver has are dropped.
///
/// # Errors
///
/// Those of `hyperstore_alone`. `Worn` comes where an actor has made 1,048,576 entries and has one
/// more to make.
pub fn hyperstore<R: Threads + Wait + Sync, S: Source, K: Sink, G: Gate + Sync>(
    rt: &R,
    alloc: Global,
    words: &[String],
    source: &mut S,
    sink: &mut K,
    fates: Vec<Box<dyn Fate + Send>>,
    gate: &G,
) -> Finished
    requires { HasEnough words.now (length fates.items) }
    ensures status { result.done.status ≡ status_of result.done.outcome }

    // With status 0 the answer to the words was written.
    ensures fine { result.done.outcome ≡ Outcome.Fine
        → Answers words.now (drawn S.Source source.old source.new) (filled K.Sink sink.old sink.new) (handed_back result) }

    // Words that start no threads end as they do alone, and hand back nothing of threads.
    ensures alone { IsUnthreaded words.now
        → Ends words.now (drawn S.Source source.old source.new) (filled K.Sink sink.old sink.new) result.done.outcome result.done.traces }
    ensures empty { IsUnthreaded words.now → (result.seats.items ≡ []) × (result.totals.items ≡ []) × (result.fates.items ≡ []) × (result.ports.items ≡ []) }

    // Under `run` the text that the source gave is that of a script, of one space or several, which
    // are run one after the other. Each fate was tuned as the words say, and nothing tuned it
    // otherwise: space k, from 0, has those from k times its number of threads on. With status 0
    // the trace of each space is a run of its script without halts in which every call has ended,
    // paced by retries that come only where nothing else is left but what was lost; all that the
    // laws say of runs holds of it, and the report was written and nothing else. A worn actor hands
    // back the runs up to there, with empty traces for the spaces that were not run.
    ensures run { (command : RunSeen) → SaysRun words.now command → (scripted : ScriptedSeen)
        × EndsRun command scripted (drawn S.Source source.old source.new) (filled K.Sink sink.old sink.new) (handed_back result) result.done.outcome
        × HaveRisenInEach state (tuning_of command) (spaces_of scripted) (workers_in scripted command.workers) fates.items result.fates.items (handed_back result) }
    ensures decided { (command : RunSeen) → SaysRun words.now command
        → IsDecided any_version (drawn S.Source source.old source.new) (filled K.Sink sink.old sink.new) result.done.outcome }

    // Under `soak` the bytes are the summary of the calls one after the other on one map, the same
    // for every number of threads.
    ensures soak { (command : SoakSeen) → SaysSoak words.now command
        → EndsSoak command (filled K.Sink sink.old sink.new) (handed_back result) result.done.outcome
        × HaveRisen state never (script_drawn command.seed command.calls) command.workers fates.items result.fates.items (handed_back result) }
    ensures soaked { (command : SoakSeen) → SaysSoak words.now command → ¬ Rose (K.faults sink.old) (K.faults sink.new)
        → (result.done.outcome ≡ Outcome.Fine) ⊎ (result.done.outcome ≡ Outcome.Memory) ⊎ ((a : Actor) × (result.done.outcome ≡ Outcome.Worn a)) }
    ensures unread { (command : SoakSeen) → SaysSoak words.now command → source.new ≡ source.old }

    // Under `share` the text that the source gave is that of a script, whose steps aren't taken.
    // With status 0 the trace is a run of it after which there is nothing left to do, in which each
    // entry begins a call or delivers a post that none before it delivers; all that the laws say of
    // runs holds of it, and the report was written and nothing else. A worn actor hands back the
    // run up to there.
    ensures share { (command : ShareSeen) → SaysShare words.now command → (script : ScriptSeen)
        × EndsShare script (drawn S.Source source.old source.new) (filled K.Sink sink.old sink.new) (handed_back result) result.done.outcome }
    ensures share_decided { (command : ShareSeen) → SaysShare words.now command
        → IsDecided version_1 (drawn S.Source source.old source.new) (filled K.Sink sink.old sink.new) result.done.outcome }

    // Whatever the words are: a fault has its cause, nothing is written but with an answer, there
    // is no trace but with one or where an actor is worn or a step refused, and words that are no
    // command leave the source alone.
    ensures read_fault { result.done.outcome ≡ Outcome.ReadFault → Rose (S.faults source.old) (S.faults source.new) }
    ensures write_fault { result.done.outcome ≡ Outcome.WriteFault → Rose (K.faults sink.old) (K.faults sink.new) }
    ensures silent { IsSilent result.done.outcome → sink.new ≡ sink.old }
    ensures no_traces { HasNoTraces result.done.outcome → result.done.traces ≡ [] }
    ensures untouched { result.done.outcome ≡ Outcome.Usage → source.new ≡ source.old }
    ensures source_faults { S.faults source.old ≤ S.faults source.new }
    ensures sink_faults { K.faults sink.old ≤ K.faults sink.new }
{
    match request_of(words) {
        Some(Request::Run(command)) => {
            return run_words(rt, alloc, command, source, sink, fates, gate);
        }
        Some(Request::Soak(command)) => return soak_words(rt, alloc, command, sink, fates, gate),
        Some(Request::Share(command)) => {
            return share_words(rt, alloc, command, source, sink, gate);
        }
        _ => {}
    }
    without_threads(alloc, hyperstore_alone(alloc, words, source, sink))
}
