ghost use Rattle.std.specs.Prelude.{ℕ, ◌≡◌, ◌<◌, ◌≤◌, ◌+◌, ◌*◌, ◌++◌, drop, length, map, slice_get, IfOk, OnOk, Some};
ghost use Rattle.std.specs.List.{All};
ghost use Rattle.hx_bundle.specs.Bundles.{IsBundle};
ghost use Rattle.hx_types.specs.declared.totals.Totals.{Totals as TotalsSeen};
ghost use Rattle.hx_types.specs.declared.traces.Script.{Script as ScriptSeen};
ghost use Rattle.hx_types.specs.Fitting.{IsScript};
ghost use Rattle.hx_types.specs.declared.limits.TheConstants.{MOST_DRIVERS};
ghost use Rattle.hx_fate.specs.States.{tuned};
ghost use Rattle.hx_run.specs.Ran.{HasRisen};
ghost use Rattle.hx_command.specs.Threads.{AreRan, IsThreaded, workers_of};
ghost use Rattle.hx_command.specs.HandedBack.{space_run};

use crate::threads::{Threading, run_threads};
use hx_bundle::Bundle;
use hx_driver::Gate;
use hx_fate::Fate;
use hx_run::Ran;
use hx_types::{Actor, MOST_DRIVERS, Memory, Script};
use std::alloc::Global;
use std::sync::Wait;
use std::thread::Threads;

/// What threads made of the spaces of a bundle, one after the other: of all, or of those up to one
/// in which an actor was worn, and then that actor.
#[derive(Drop)]
pub struct SpacesRan {
    pub runs: Vec<Ran>,
    pub worn: Option<Actor>,
}

/// How many threads work for each space of a bundle where so many are asked for: no more than leave
/// 16 for all spaces together.
pub fn workers_of(bundle: &Bundle, workers: u32) -> u32
    requires bundle { IsBundle bundle.now }
    requires workers { 1 ≤ workers }
    ensures exact { result ≡ workers_of bundle.now workers }
    ensures some { 1 ≤ result }
    ensures few { result * length bundle.now.spaces ≤ MOST_DRIVERS }
{
    workers.min(MOST_DRIVERS / bundle.spaces.len() as u32)
}

/// Takes the first fates away.
fn take_first(
    alloc: Global,
    fates: &mut Vec<Box<dyn Fate + Send>>,
    count: u32,
) -> Result<Vec<Box<dyn Fate + Send>>, Memory>
    requires { count ≤ length fates.old.items }
    ensures split { IfOk result (λ first. first.items ++ fates.new.items ≡ fates.old.items) }
    ensures count { IfOk result (λ first. length first.items ≡ count) }
{
    let mut first = Vec::with_capacity(alloc, count as usize)?;
    for _taken in 0..count {
        first.push(fates.remove(0))?;
    }
    Ok(first)
}

/// Runs a script on threads with the first fates, which are taken away.
fn run_next<R: Threads + Wait + Sync, G: Gate + Sync>(
    rt: &R,
    alloc: Global,
    script: &Script,
    threading: Threading,
    fates: &mut Vec<Box<dyn Fate + Send>>,
    gate: &G,
) -> Result<Ran, Memory>
    requires script { IsScript script.now }
    requires workers { (1 ≤ threading.workers) × (threading.workers ≤ MOST_DRIVERS) × (threading.workers ≤ length fates.old.items) }
    requires capacity { 1 ≤ threading.capacity }
    ensures ran { IfOk result (λ ran. IsThreaded script.now threading.workers (space_run ran) ran.worn) }
    ensures fates { OnOk result (fates.new.items ≡ drop threading.workers fates.old.items) }
    ensures risen { IfOk result (λ ran. (j : ℕ) (f : _) (g : _) (t : TotalsSeen) → slice_get fates.old.items j ≡ Some f → slice_get ran.fates.items j ≡ Some g → slice_get ran.totals.items j ≡ Some t
        → HasRisen script.now threading.workers ran.trace j t (tuned threading.tuning (state f)) (state g)) }
{
    let own = take_first(alloc, fates, threading.workers)?;
    run_threads(rt, alloc, script, threading, own, gate)
}

/// Runs the scripts on threads, one after the other, until all were run or an actor is worn. Space
/// k, from 0, has the fates from k times the number of threads on.
pub fn run_spaces<R: Threads + Wait + Sync, G: Gate + Sync>(
    rt: &R,
    alloc: Global,
    scripts: &[Script],
    threading: Threading,
    fates: Vec<Box<dyn Fate + Send>>,
    gate: &G,
) -> Result<SpacesRan, Memory>
    requires scripts { All IsScript scripts.now }
    requires workers { (1 ≤ threading.workers) × (threading.workers ≤ MOST_DRIVERS) × (threading.workers * length scripts.now ≤ length fates.items) }
    requires capacity { 1 ≤ threading.capacity }
    ensures ran { IfOk result (λ made. AreRan threading.workers scripts.now (map space_run made.runs.items) made.worn) }
    ensures risen { IfOk result (λ made. (k : ℕ) (j : ℕ) (script : ScriptSeen) (ran : _) (f : _) (g : _) (t : TotalsSeen) → j < threading.workers
        → slice_get scripts.now k ≡ Some script → slice_get made.runs.items k ≡ Some ran
        → slice_get fates.items (k * threading.workers + j) ≡ Some f → slice_get ran.fates.items j ≡ Some g → slice_get ran.totals.items j ≡ Some t
        → HasRisen script threading.workers ran.trace j t (tuned threading.tuning (state f)) (state g)) }
{
    let mut fates = fates;
    let mut runs = Vec::new(alloc);
    for script in scripts {
        let ran = run_next(rt, alloc, script, threading, &mut fates, gate)?;
        let worn = ran.worn;
        runs.push(ran)?;
        if worn.is_some() {
            return Ok(SpacesRan { runs, worn });
        }
    }
    Ok(SpacesRan { runs, worn: None })
}
