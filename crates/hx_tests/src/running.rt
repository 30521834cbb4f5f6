//! What a run or a share of a script comes to.
ghost use Rattle.std.specs.Prelude.{◌≤◌, length};
ghost use Rattle.hx_types.specs.declared.limits.TheConstants.{MOST_DRIVERS};

use crate::scripts::script_of;
use hx_driver::Gate;
use hx_fate::{Faithful, Fate};
use hx_history::{histories, records};
use hx_legal::legal;
use hx_run::run;
use hx_share::share;
use hx_trace::Trace;
use hx_types::Script;
use std::process::Abort;
use std::sync::Wait;
use std::thread::Threads;

/// A fate that can be handed to a driver.
fn boxed<R: Abort + AllocGlobal, F: Fate + Send + Drop>(rt: &R, fate: F) -> Box<F> {
    Box::new(rt.alloc(), fate).expect(rt, "memory")
}

/// The fates of two drivers, which deliver every message.
fn faithful<R: Abort + AllocGlobal>(rt: &R) -> Vec<Box<dyn Fate + Send>>
    ensures { 2 ≤ length result.items }
{
    let mut fates: Vec<Box<dyn Fate + Send>> = Vec::new(rt.alloc());
    fates.push(boxed(rt, Faithful::new())).expect(rt, "memory");
    fates.push(boxed(rt, Faithful::new())).expect(rt, "memory");
    fates
}

/// Whether every history of a run of the script is legal.
fn are_legal<R: Abort + AllocGlobal>(rt: &R, script: &Script, trace: &Trace) -> bool {
    let histories = histories(rt.alloc(), script, trace).expect(rt, "memory");
    let mut listed = histories.as_slice().iter();
    let are_legal = listed.all(|history| legal(&script.space, history.items.as_slice()));
    drop(histories);
    are_legal
}

/// How many calls of the script are answered in a run of it.
fn count_answers<R: Abort + AllocGlobal>(rt: &R, script: &Script, trace: &Trace) -> usize {
    let records = records(rt.alloc(), script, trace).expect(rt, "memory");
    let ended = records.as_slice().iter();
    let count = ended.filter(|record| record.answer.is_some()).count();
    drop(records);
    count
}

/// How many entries a run has, and how many calls are answered in it.
pub type Counts = (usize, usize);

/// What the script's run on so many threads over boxes of so many places counts, and `None` where a
/// history isn't legal or an actor is worn.
pub fn run_counts<R: Abort + AllocGlobal + Threads + Wait + Sync, G: Gate + Sync>(
    rt: &R,
    text: &str,
    workers: u32,
    capacity: usize,
    gate: &G,
) -> Option<Counts>
    requires workers { (1 ≤ workers) × (workers ≤ 2) }
    requires capacity { 1 ≤ capacity }
{
    let fates = faithful(rt);
    let script = script_of(rt, text);
    let ran = run(rt, rt.alloc(), &script, workers, capacity, fates, gate).expect(rt, "memory");
    let is_sound = ran.worn.is_none() && are_legal(rt, &script, &ran.trace);
    let counts = (ran.trace.len(), count_answers(rt, &script, &ran.trace));
    drop(ran);
    drop(script);
    if is_sound { Some(counts) } else { None }
}

/// What the script counts where so many callers share a store, and `None` where a history isn't
/// legal or an actor is worn.
pub fn share_counts<R: Abort + AllocGlobal + Threads + Wait + Sync, G: Gate + Sync>(
    rt: &R,
    text: &str,
    workers: u32,
    gate: &G,
) -> Option<Counts>
    requires { (1 ≤ workers) × (workers ≤ MOST_DRIVERS) }
{
    let script = script_of(rt, text);
    let shared = share(rt, rt.alloc(), &script, workers, gate).expect(rt, "memory");
    let is_sound = shared.worn.is_none() && are_legal(rt, &script, &shared.trace);
    let counts = (
        shared.trace.len(),
        count_answers(rt, &script, &shared.trace),
    );
    drop(shared);
    drop(script);
    if is_sound { Some(counts) } else { None }
}
