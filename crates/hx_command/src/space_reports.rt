ghost use Rattle.std.specs.Prelude.{◌≡◌, ◌≤◌, ◌⊎◌, [], length, map, reverse, IfOk};
ghost use Rattle.std.specs.List.{flat_map};
ghost use Rattle.hx_bundle.specs.Bundles.{IsBundle};
ghost use Rattle.hx_types.specs.declared.limits.TheConstants.{MOST_DRIVERS};
ghost use Rattle.hx_report.specs.BundleReporting.{IsBundleReport};
ghost use Rattle.hx_replay.specs.Outcomes.{IsSilent, status_of};
ghost use Rattle.hx_command.specs.Threads.{AreRan, AreReported, AreWornOnThreads, EndsWith, HaveRisenInEach, IsHandedWorn, RanAll, RanUntilWorn, handed_from, tuning_of, workers_of};
ghost use Rattle.hx_command.specs.HandedBack.{handed_back, handed_of, space_run};
ghost use Rattle.hx_replay.specs.Streams.{filled};

use crate::endings::without_trace;
use crate::finished::{Finished, Threaded};
use crate::reporting::CAPACITY;
use crate::space_parts::{add_empty, joined, parts_of};
use crate::space_runs::{SpacesRan, run_spaces, workers_of};
use crate::threads::Threading;
use crate::writing::{handed, write_answer};
use hx_bundle::Bundle;
use hx_driver::Gate;
use hx_fate::{Fate, Tuning};
use hx_io::Sink;
use hx_replay::Outcome;
use hx_report::report_bundle;
use hx_run::Ran;
use hx_types::{Actor, Memory};
use hx_words::Run;
use std::alloc::Global;
use std::sync::Wait;
use std::thread::Threads;

/// Runs the spaces of a bundle on threads, one after the other, and writes the report of all.
pub fn answer_spaces<R: Threads + Wait + Sync, K: Sink, G: Gate + Sync>(
    rt: &R,
    alloc: Global,
    command: Run,
    bundle: &Bundle,
    sink: &mut K,
    fates: Vec<Box<dyn Fate + Send>>,
    gate: &G,
) -> Finished
    requires bundle { IsBundle bundle.now }
    requires workers { (1 ≤ command.workers) × (command.workers ≤ MOST_DRIVERS) }
    requires fates { MOST_DRIVERS ≤ length fates.items }
    ensures ends { EndsWith (AreReported command bundle.now) (AreWornOnThreads bundle.now command.workers) (filled K.Sink sink.old sink.new) (handed_back result) result.done.outcome }
    ensures status { result.done.status ≡ status_of result.done.outcome }
    ensures risen { HaveRisenInEach state (tuning_of command) bundle.now.spaces (workers_of bundle.now command.workers) fates.items result.fates.items (handed_back result) }
    ensures silent { IsSilent result.done.outcome → sink.new ≡ sink.old }
    ensures faults { K.faults sink.old ≤ K.faults sink.new }
{
    let threading = Threading {
        workers: workers_of(bundle, command.workers),
        capacity: CAPACITY,
        tuning: Tuning {
            lose_every: command.lose,
            repeat_every: command.repeat,
        },
    };
    match run_spaces(rt, alloc, bundle.spaces.as_slice(), threading, fates, gate) {
        Ok(ran) => report_spaces(alloc, command, bundle, sink, ran),
        Err(_) => without_trace(alloc, Outcome::Memory),
    }
}

/// Hands back the spaces up to one that a worn actor ended, or writes the report of all.
fn report_spaces<K: Sink>(
    alloc: Global,
    command: Run,
    bundle: &Bundle,
    sink: &mut K,
    ran: SpacesRan,
) -> Finished
    requires bundle { IsBundle bundle.now }
    requires ran { AreRan (workers_of bundle.now command.workers) bundle.now.spaces (map space_run ran.runs.items) ran.worn }
    ensures ends { EndsWith (AreReported command bundle.now) (AreWornOnThreads bundle.now command.workers) (filled K.Sink sink.old sink.new) (handed_back result) result.done.outcome }
    ensures status { result.done.status ≡ status_of result.done.outcome }
    ensures kept { ((handed_back result ≡ handed_from bundle.now.spaces (map space_run ran.runs.items)) × (result.fates.items ≡ flat_map (λ r. r.fates.items) ran.runs.items)) ⊎ (result.fates.items ≡ []) }
    ensures silent { IsSilent result.done.outcome → sink.new ≡ sink.old }
    ensures faults { K.faults sink.old ≤ K.faults sink.new }
{
    let SpacesRan { runs, worn } = ran;
    match worn {
        Some(actor) => hand_worn(alloc, command, bundle, runs, actor),
        None => write_report(alloc, command, bundle, sink, runs),
    }
}

/// What is handed back where an actor was worn: an empty trace for each space that was not run.
fn worn_parts(alloc: Global, bundle: &Bundle, runs: Vec<Ran>) -> Result<Threaded, Memory>
    requires { length runs.items ≤ length bundle.now.spaces }
    ensures handed { IfOk result (λ made. handed_of made ≡ handed_from bundle.now.spaces (map space_run runs.items)) }
    ensures fates { IfOk result (λ made. made.fates.items ≡ flat_map (λ r. r.fates.items) runs.items) }
{
    let run = runs.len();
    let mut parts = parts_of(alloc, runs)?;
    add_empty(alloc, &mut parts.traces, &bundle.spaces.as_slice()[run..])?;
    let threaded = joined(alloc, parts)?;
    Ok(threaded)
}

/// Hands back the spaces up to one that a worn actor ended. Nothing is written.
fn hand_worn(alloc: Global, command: Run, bundle: &Bundle, runs: Vec<Ran>, actor: Actor) -> Finished
    requires { RanUntilWorn (workers_of bundle.now command.workers) actor bundle.now.spaces (map space_run runs.items) }
    ensures handed { IsHandedWorn (handed_from bundle.now.spaces (map space_run runs.items)) (handed_back result) actor result.done.outcome }
    ensures status { result.done.status ≡ status_of result.done.outcome }
    ensures kept { ((handed_back result ≡ handed_from bundle.now.spaces (map space_run runs.items)) × (result.fates.items ≡ flat_map (λ r. r.fates.items) runs.items)) ⊎ (result.fates.items ≡ []) }
{
    match worn_parts(alloc, bundle, runs) {
        Ok(threaded) => handed(threaded, Outcome::Worn(actor)),
        Err(_) => without_trace(alloc, Outcome::Memory),
    }
}

/// The report of all spaces, and what it tells of.
fn reported(
    alloc: Global,
    bundle: &Bundle,
    runs: Vec<Ran>,
    with_trace: bool,
) -> Result<(Threaded, Vec<u8>), Memory>
    requires bundle { IsBundle bundle.now }
    requires all { length runs.items ≡ length bundle.now.spaces }
    ensures handed { IfOk result (λ both. handed_of both.0 ≡ handed_from bundle.now.spaces (map space_run runs.items)) }
    ensures fates { IfOk result (λ both. both.0.fates.items ≡ flat_map (λ r. r.fates.items) runs.items) }
    ensures report { IfOk result (λ both. IsBundleReport bundle.now (map (λ r. reverse r.trace) runs.items) (map (λ r. r.totals.items) runs.items) both.1.items with_trace) }
{
    let parts = parts_of(alloc, runs)?;
    let bytes = report_bundle(
        alloc,
        bundle,
        parts.traces.as_slice(),
        parts.totals.as_slice(),
        with_trace,
    )?;
    let threaded = joined(alloc, parts)?;
    Ok((threaded, bytes))
}

/// Writes the report of spaces that had nothing left to do.
fn write_report<K: Sink>(
    alloc: Global,
    command: Run,
    bundle: &Bundle,
    sink: &mut K,
    runs: Vec<Ran>,
) -> Finished
    requires bundle { IsBundle bundle.now }
    requires ran { RanAll (workers_of bundle.now command.workers) bundle.now.spaces (map space_run runs.items) }
    ensures ends { EndsWith (AreReported command bundle.now) (AreWornOnThreads bundle.now command.workers) (filled K.Sink sink.old sink.new) (handed_back result) result.done.outcome }
    ensures status { result.done.status ≡ status_of result.done.outcome }
    ensures kept { ((handed_back result ≡ handed_from bundle.now.spaces (map space_run runs.items)) × (result.fates.items ≡ flat_map (λ r. r.fates.items) runs.items)) ⊎ (result.fates.items ≡ []) }
    ensures silent { IsSilent result.done.outcome → sink.new ≡ sink.old }
    ensures faults { K.faults sink.old ≤ K.faults sink.new }
{
    match reported(alloc, bundle, runs, command.with_trace) {
        Ok((threaded, bytes)) => write_answer(sink, threaded, bytes.as_slice()),
        Err(_) => without_trace(alloc, Outcome::Memory),
    }
}
