ghost use Rattle.std.specs.Prelude.{◌≡◌, ◌≤◌, ◌⊎◌, length};
ghost use Rattle.hx_io.specs.Causes.{Rose};
ghost use Rattle.hx_types.specs.declared.ids.Actor.{Actor};
ghost use Rattle.hx_types.specs.declared.limits.TheConstants.{MOST_DRIVERS};
ghost use Rattle.hx_soak.specs.Soaking.{script_drawn};
ghost use Rattle.hx_fate.specs.States.{never};
ghost use Rattle.hx_words.specs.Limits.{IsRun, IsSoak};
ghost use Rattle.hx_replay.specs.Outcomes.{IsSilent, status_of};
ghost use Rattle.hx_replay.specs.Texts.{IsScripted};
ghost use Rattle.hx_command.specs.Threads.{EndsRun, EndsSoak, EndsWith, HaveRisen, HaveRisenInEach, IsDecided, IsRunReported, IsRunWorn, any_version, spaces_of, tuning_of, workers_in};
ghost use Rattle.hx_replay.specs.declared.outcomes.Outcome.{Outcome as OutcomeSeen};
ghost use Rattle.hx_replay.specs.declared.texts.Scripted.{Scripted as ScriptedSeen};
ghost use Rattle.hx_command.specs.HandedBack.{handed_back};
ghost use Rattle.hx_replay.specs.Streams.{drawn, filled};

use crate::endings::without_trace;
use crate::finished::Finished;
use crate::reading::read_any_script;
use crate::reporting::answer_run;
use crate::soaking::answer_soak;
use crate::space_reports::answer_spaces;
use hx_driver::Gate;
use hx_fate::Fate;
use hx_io::{Sink, Source};
use hx_replay::{Outcome, Scripted};
use hx_soak::script_of;
use hx_words::{Run, Soak};
use std::alloc::Global;
use std::sync::Wait;
use std::thread::Threads;

/// Runs the script of the source on threads, and writes the report.
pub fn run_words<R: Threads + Wait + Sync, S: Source, K: Sink, G: Gate + Sync>(
    rt: &R,
    alloc: Global,
    command: Run,
    source: &mut S,
    sink: &mut K,
    fates: Vec<Box<dyn Fate + Send>>,
    gate: &G,
) -> Finished
    requires fates { MOST_DRIVERS ≤ length fates.items }
    requires limits { IsRun command }
    ensures status { result.done.status ≡ status_of result.done.outcome }
    ensures run { (scripted : ScriptedSeen)
        × EndsRun command scripted (drawn S.Source source.old source.new) (filled K.Sink sink.old sink.new) (handed_back result) result.done.outcome
        × HaveRisenInEach state (tuning_of command) (spaces_of scripted) (workers_in scripted command.workers) fates.items result.fates.items (handed_back result) }
    ensures decided { IsDecided any_version (drawn S.Source source.old source.new) (filled K.Sink sink.old sink.new) result.done.outcome }
    ensures silent { IsSilent result.done.outcome → sink.new ≡ sink.old }
    ensures source_faults { S.faults source.old ≤ S.faults source.new }
    ensures sink_faults { K.faults sink.old ≤ K.faults sink.new }
{
    match read_any_script(alloc, source) {
        Ok(scripted) => answer_scripted(rt, alloc, command, &scripted, sink, fates, gate),
        Err(outcome) => without_trace(alloc, outcome),
    }
}

/// Runs a script on threads, of one space or several, and writes the report.
fn answer_scripted<R: Threads + Wait + Sync, K: Sink, G: Gate + Sync>(
    rt: &R,
    alloc: Global,
    command: Run,
    scripted: &Scripted,
    sink: &mut K,
    fates: Vec<Box<dyn Fate + Send>>,
    gate: &G,
) -> Finished
    requires scripted { IsScripted scripted.now }
    requires fates { MOST_DRIVERS ≤ length fates.items }
    requires limits { IsRun command }
    ensures ends { EndsWith (IsRunReported command scripted.now) (IsRunWorn command.workers scripted.now) (filled K.Sink sink.old sink.new) (handed_back result) result.done.outcome }
    ensures status { result.done.status ≡ status_of result.done.outcome }
    ensures risen { HaveRisenInEach state (tuning_of command) (spaces_of scripted.now) (workers_in scripted.now command.workers) fates.items result.fates.items (handed_back result) }
    ensures silent { IsSilent result.done.outcome → sink.new ≡ sink.old }
    ensures faults { K.faults sink.old ≤ K.faults sink.new }
{
    match scripted {
        Scripted::One(script) => answer_run(rt, alloc, command, script, sink, fates, gate),
        Scripted::Several(bundle) => answer_spaces(rt, alloc, command, bundle, sink, fates, gate),
    }
}

/// Runs a drawn script on threads, and writes its summary.
pub fn soak_words<R: Threads + Wait + Sync, K: Sink, G: Gate + Sync>(
    rt: &R,
    alloc: Global,
    command: Soak,
    sink: &mut K,
    fates: Vec<Box<dyn Fate + Send>>,
    gate: &G,
) -> Finished
    requires fates { command.workers ≤ length fates.items }
    requires limits { IsSoak command }
    ensures status { result.done.status ≡ status_of result.done.outcome }
    ensures soak { EndsSoak command (filled K.Sink sink.old sink.new) (handed_back result) result.done.outcome }
    ensures risen { HaveRisen state never (script_drawn command.seed command.calls) command.workers fates.items result.fates.items (handed_back result) }
    ensures soaked { ¬ Rose (K.faults sink.old) (K.faults sink.new)
        → (result.done.outcome ≡ OutcomeSeen.Fine) ⊎ (result.done.outcome ≡ OutcomeSeen.Memory) ⊎ ((a : Actor) × (result.done.outcome ≡ OutcomeSeen.Worn a)) }
    ensures silent { IsSilent result.done.outcome → sink.new ≡ sink.old }
    ensures sink_faults { K.faults sink.old ≤ K.faults sink.new }
{
    match script_of(alloc, command.seed, command.calls) {
        Ok(script) => answer_soak(rt, alloc, command, &script, sink, fates, gate),
        Err(_) => without_trace(alloc, Outcome::Memory),
    }
}
