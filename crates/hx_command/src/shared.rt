ghost use Rattle.std.specs.Prelude.{◌≡◌, ◌≤◌, [], ◌∷◌, false, reverse, IfOk};
ghost use Rattle.hx_report.specs.Reporting.{IsReport};
ghost use Rattle.hx_types.specs.Fitting.{IsScript};
ghost use Rattle.hx_types.specs.declared.traces.Script.{Script as ScriptSeen};
ghost use Rattle.hx_words.specs.Limits.{IsShare};
ghost use Rattle.hx_replay.specs.Outcomes.{IsSilent, status_of};
ghost use Rattle.hx_command.specs.Threads.{EndsShare, EndsWith, IsDecided, IsSharedBy, IsHandedWorn, IsSharedReport, IsWornShared, IsWritten, only, version_1};
ghost use Rattle.hx_command.specs.HandedBack.{handed_back};
ghost use Rattle.hx_replay.specs.Streams.{drawn, filled};

use crate::endings::{without_threads, without_trace};
use crate::finished::Finished;
use crate::reading::read_script;
use hx_driver::Gate;
use hx_io::{Sink, Source, write_all};
use hx_replay::{Done, Outcome, one_trace, status};
use hx_report::report;
use hx_share::{Shared, share};
use hx_spaces::Traces;
use hx_trace::Trace;
use hx_types::{Actor, Memory, Script};
use hx_words::Share;
use std::alloc::Global;
use std::sync::Wait;
use std::thread::Threads;

/// Makes the calls of the script of the source by callers on threads, one at a time behind one
/// lock, and writes the report.
pub fn share_words<R: Threads + Wait + Sync, S: Source, K: Sink, G: Gate + Sync>(
    rt: &R,
    alloc: Global,
    command: Share,
    source: &mut S,
    sink: &mut K,
    gate: &G,
) -> Finished
    requires limits { IsShare command }
    ensures status { result.done.status ≡ status_of result.done.outcome }
    ensures share { (script : ScriptSeen) × EndsShare script (drawn S.Source source.old source.new) (filled K.Sink sink.old sink.new) (handed_back result) result.done.outcome }
    ensures decided { IsDecided version_1 (drawn S.Source source.old source.new) (filled K.Sink sink.old sink.new) result.done.outcome }
    ensures silent { IsSilent result.done.outcome → sink.new ≡ sink.old }
    ensures source_faults { S.faults source.old ≤ S.faults source.new }
    ensures sink_faults { K.faults sink.old ≤ K.faults sink.new }
{
    match read_script(alloc, source) {
        Ok(script) => answer_share(rt, alloc, command, &script, sink, gate),
        Err(outcome) => without_trace(alloc, outcome),
    }
}

/// Makes the calls of the script by callers on threads, and writes the report.
fn answer_share<R: Threads + Wait + Sync, K: Sink, G: Gate + Sync>(
    rt: &R,
    alloc: Global,
    command: Share,
    script: &Script,
    sink: &mut K,
    gate: &G,
) -> Finished
    requires script { IsScript script.now }
    requires limits { IsShare command }
    ensures ends { EndsWith (IsSharedReport script.now) (IsWornShared script.now) (filled K.Sink sink.old sink.new) (handed_back result) result.done.outcome }
    ensures status { result.done.status ≡ status_of result.done.outcome }
    ensures silent { IsSilent result.done.outcome → sink.new ≡ sink.old }
    ensures faults { K.faults sink.old ≤ K.faults sink.new }
{
    match share_script(rt, alloc, command, script, gate) {
        Ok(shared) => report_share(alloc, script, sink, shared),
        Err(_) => without_trace(alloc, Outcome::Memory),
    }
}

/// Makes the calls of the script by callers on threads: all that the laws over every run say holds
/// of what they did.
fn share_script<R: Threads + Wait + Sync, G: Gate + Sync>(
    rt: &R,
    alloc: Global,
    command: Share,
    script: &Script,
    gate: &G,
) -> Result<Shared, Memory>
    requires script { IsScript script.now }
    requires limits { IsShare command }
    ensures { IfOk result (λ shared. IsSharedBy script.now shared.trace (only (shared.trace ∷ [])) shared.worn) }
{
    hx_law_searches::histories_are_linear();
    hx_law_order::runs_have_one_order();
    hx_law_searches::searches_are_true_and_whole();
    hx_law_causes::answers_have_causes();
    hx_law_epochs::lost_regions_have_lost_their_replicas();
    let shared = share(rt, alloc, script, command.workers, gate)?;
    Ok(shared)
}

/// Hands back what callers shared until an actor was worn, or writes the report of all their calls.
fn report_share<K: Sink>(alloc: Global, script: &Script, sink: &mut K, shared: Shared) -> Finished
    requires script { IsScript script.now }
    requires shared { IsSharedBy script.now shared.trace (only (shared.trace ∷ [])) shared.worn }
    ensures ends { EndsWith (IsSharedReport script.now) (IsWornShared script.now) (filled K.Sink sink.old sink.new) (handed_back result) result.done.outcome }
    ensures status { result.done.status ≡ status_of result.done.outcome }
    ensures silent { IsSilent result.done.outcome → sink.new ≡ sink.old }
    ensures faults { K.faults sink.old ≤ K.faults sink.new }
{
    let Shared { trace, worn } = shared;
    if let Some(actor) = worn {
        return hand_worn(alloc, actor, trace);
    }
    match reported(alloc, script, trace) {
        Ok((traces, bytes)) => write_share(alloc, sink, traces, bytes.as_slice()),
        Err(_) => without_trace(alloc, Outcome::Memory),
    }
}

/// The traces of what callers shared until an actor was worn.
fn hand_worn(alloc: Global, actor: Actor, trace: Trace) -> Finished
    ensures handed { IsHandedWorn (only (trace ∷ [])) (handed_back result) actor result.done.outcome }
    ensures status { result.done.status ≡ status_of result.done.outcome }
{
    match one_trace(alloc, trace) {
        Ok(traces) => traced(alloc, Outcome::Worn(actor), traces),
        Err(_) => without_trace(alloc, Outcome::Memory),
    }
}

/// The report of what callers shared, and the traces that it tells of.
fn reported(alloc: Global, script: &Script, trace: Trace) -> Result<(Traces, Vec<u8>), Memory>
    requires { IsScript script.now }
    ensures traces { IfOk result (λ made. made.0 ≡ trace ∷ []) }
    ensures report { IfOk result (λ made. IsReport script.now (reverse trace) [] made.1.items false) }
{
    let bytes = report(alloc, script, &trace, &[], false)?;
    let traces = one_trace(alloc, trace)?;
    Ok((traces, bytes))
}

/// Writes the report of what callers shared.
fn write_share<K: Sink>(alloc: Global, sink: &mut K, traces: Traces, bytes: &[u8]) -> Finished
    ensures written { IsWritten (filled K.Sink sink.old sink.new) bytes.now result.done.outcome }
    ensures handed { handed_back result ≡ only traces }
    ensures status { result.done.status ≡ status_of result.done.outcome }
    ensures faults { K.faults sink.old ≤ K.faults sink.new }
{
    match write_all(sink, bytes) {
        Ok(()) => traced(alloc, Outcome::Fine, traces),
        Err(_) => traced(alloc, Outcome::WriteFault, traces),
    }
}

/// The end of a call that hands back traces and nothing else.
fn traced(alloc: Global, outcome: Outcome, traces: Traces) -> Finished
    ensures outcome { result.done.outcome ≡ outcome }
    ensures handed { handed_back result ≡ only traces }
    ensures status { result.done.status ≡ status_of outcome }
{
    let done = Done {
        status: status(outcome),
        outcome,
        traces,
    };
    without_threads(alloc, done)
}
