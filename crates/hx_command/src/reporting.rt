ghost use Rattle.std.specs.Prelude.{◌≡◌, ◌≤◌, ◌⊎◌, [], ◌∷◌, length, None};
ghost use Rattle.hx_types.specs.Fitting.{IsScript};
ghost use Rattle.hx_types.specs.declared.limits.TheConstants.{MOST_DRIVERS};
ghost use Rattle.hx_replay.specs.Outcomes.{IsSilent, status_of};
ghost use Rattle.hx_command.specs.Threads.{EndsOnThreads, HaveRisen, IsReported, IsThreaded, tuning_of};
ghost use Rattle.hx_command.specs.HandedBack.{handed_back, space_run};
ghost use Rattle.hx_replay.specs.Streams.{filled};

use crate::endings::without_trace;
use crate::finished::Finished;
use crate::threads::{Threading, run_threads};
use crate::writing::{hand_worn, write_run};
use hx_driver::Gate;
use hx_fate::{Fate, Tuning};
use hx_io::Sink;
use hx_replay::Outcome;
use hx_report::report;
use hx_run::Ran;
use hx_types::Script;
use hx_words::Run;
use std::alloc::Global;
use std::sync::Wait;
use std::thread::Threads;

/// How many envelopes a mailbox holds.
pub const CAPACITY: usize = 1024;

/// Runs the script on threads, and writes the report.
pub fn answer_run<R: Threads + Wait + Sync, K: Sink, G: Gate + Sync>(
    rt: &R,
    alloc: Global,
    command: Run,
    script: &Script,
    sink: &mut K,
    fates: Vec<Box<dyn Fate + Send>>,
    gate: &G,
) -> Finished
    requires script { IsScript script.now }
    requires workers { (1 ≤ command.workers) × (command.workers ≤ MOST_DRIVERS) × (command.workers ≤ length fates.items) }
    ensures ends { EndsOnThreads (IsReported command script.now) script.now command.workers (filled K.Sink sink.old sink.new) (handed_back result) result.done.outcome }
    ensures status { result.done.status ≡ status_of result.done.outcome }
    ensures risen { HaveRisen state (tuning_of command) script.now command.workers fates.items result.fates.items (handed_back result) }
    ensures silent { IsSilent result.done.outcome → sink.new ≡ sink.old }
    ensures faults { K.faults sink.old ≤ K.faults sink.new }
{
    let threading = Threading {
        workers: command.workers,
        capacity: CAPACITY,
        tuning: Tuning {
            lose_every: command.lose,
            repeat_every: command.repeat,
        },
    };
    match run_threads(rt, alloc, script, threading, fates, gate) {
        Ok(ran) => report_run(alloc, command, script, sink, ran),
        Err(_) => without_trace(alloc, Outcome::Memory),
    }
}

/// Hands back a run that a worn actor ended, or writes the report of one that had nothing left to
/// do.
fn report_run<K: Sink>(
    alloc: Global,
    command: Run,
    script: &Script,
    sink: &mut K,
    ran: Ran,
) -> Finished
    requires script { IsScript script.now }
    requires threaded { IsThreaded script.now command.workers (space_run ran) ran.worn }
    ensures ends { EndsOnThreads (IsReported command script.now) script.now command.workers (filled K.Sink sink.old sink.new) (handed_back result) result.done.outcome }
    ensures status { result.done.status ≡ status_of result.done.outcome }
    ensures kept { ((result.fates ≡ ran.fates) × (result.totals ≡ ran.totals) × (result.done.traces ≡ ran.trace ∷ [])) ⊎ (result.fates.items ≡ []) }
    ensures silent { IsSilent result.done.outcome → sink.new ≡ sink.old }
    ensures faults { K.faults sink.old ≤ K.faults sink.new }
{
    match ran.worn {
        Some(actor) => hand_worn(alloc, ran, actor),
        None => write_report(alloc, command, script, sink, ran),
    }
}

/// Writes the report of a run that had nothing left to do.
fn write_report<K: Sink>(
    alloc: Global,
    command: Run,
    script: &Script,
    sink: &mut K,
    ran: Ran,
) -> Finished
    requires script { IsScript script.now }
    requires threaded { IsThreaded script.now command.workers (space_run ran) None }
    ensures ends { EndsOnThreads (IsReported command script.now) script.now command.workers (filled K.Sink sink.old sink.new) (handed_back result) result.done.outcome }
    ensures status { result.done.status ≡ status_of result.done.outcome }
    ensures kept { ((result.fates ≡ ran.fates) × (result.totals ≡ ran.totals) × (result.done.traces ≡ ran.trace ∷ [])) ⊎ (result.fates.items ≡ []) }
    ensures silent { IsSilent result.done.outcome → sink.new ≡ sink.old }
    ensures faults { K.faults sink.old ≤ K.faults sink.new }
{
    match report(
        alloc,
        script,
        &ran.trace,
        ran.totals.as_slice(),
        command.with_trace,
    ) {
        Ok(bytes) => write_run(alloc, sink, ran, bytes.as_slice()),
        Err(_) => without_trace(alloc, Outcome::Memory),
    }
}
