ghost use Rattle.std.specs.Prelude.{ℕ, ◌≡◌, ◌≢◌, ◌≤◌, ◌<◌, length, slice_get, IfOk, Some};
ghost use Rattle.hx_types.specs.declared.totals.Totals.{Totals as TotalsSeen};
ghost use Rattle.hx_types.specs.Fitting.{IsScript};
ghost use Rattle.hx_types.specs.declared.limits.TheConstants.{MOST_DRIVERS};
ghost use Rattle.hx_fate.specs.States.{tuned};
ghost use Rattle.hx_run.specs.Ran.{HasRisen};
ghost use Rattle.hx_command.specs.Threads.{IsThreaded};
ghost use Rattle.hx_command.specs.HandedBack.{space_run};

use hx_driver::Gate;
use hx_fate::{Fate, Tuning};
use hx_run::{Ran, run};
use hx_types::{Memory, Script};
use std::alloc::Global;
use std::sync::Wait;
use std::thread::Threads;

/// On how many threads a script is run, and how often its posts are lost and repeated.
#[derive(Clone, Copy)]
pub struct Threading {
    pub workers: u32,
    /// How many envelopes a mailbox holds.
    pub capacity: usize,
    pub tuning: Tuning,
}

/// Tunes a fate.
fn tune(fate: &mut Box<dyn Fate + Send>, tuning: Tuning)
    ensures { state fate.new ≡ tuned tuning (state fate.old) }
{
    fate.tune(tuning);
}

/// Tunes the fate at a place, and no other.
fn tune_at(fates: &mut Vec<Box<dyn Fate + Send>>, at: usize, tuning: Tuning)
    requires { at < length fates.old.items }
    ensures count { length fates.new.items ≡ length fates.old.items }
    ensures tuned { (f : _) (g : _) → slice_get fates.old.items at ≡ Some f → slice_get fates.new.items at ≡ Some g → state g ≡ tuned tuning (state f) }
    ensures others { (i : ℕ) (f : _) (g : _) → i ≢ at → slice_get fates.old.items i ≡ Some f → slice_get fates.new.items i ≡ Some g → state g ≡ state f }
{
    tune(&mut fates[at], tuning);
}

/// Tunes the first fates.
fn tune_first(fates: &mut Vec<Box<dyn Fate + Send>>, count: u32, tuning: Tuning)
    requires { count ≤ length fates.old.items }
    ensures count { length fates.new.items ≡ length fates.old.items }
    ensures tuned { (i : ℕ) (f : _) (g : _) → i < count → slice_get fates.old.items i ≡ Some f → slice_get fates.new.items i ≡ Some g → state g ≡ tuned tuning (state f) }
{
    for at in 0..count {
        tune_at(fates, at as usize, tuning);
    }
}

/// Runs the script on threads: all that the laws over every run say holds of what they did.
pub fn run_threads<R: Threads + Wait + Sync, G: Gate + Sync>(
    rt: &R,
    alloc: Global,
    script: &Script,
    threading: Threading,
    fates: Vec<Box<dyn Fate + Send>>,
    gate: &G,
) -> Result<Ran, Memory>
    requires script { IsScript script.now }
    requires workers { (1 ≤ threading.workers) × (threading.workers ≤ MOST_DRIVERS) × (threading.workers ≤ length fates.items) }
    requires capacity { 1 ≤ threading.capacity }
    ensures ran { IfOk result (λ ran. IsThreaded script.now threading.workers (space_run ran) ran.worn) }
    ensures risen { IfOk result (λ ran. (i : ℕ) (f : _) (g : _) (t : TotalsSeen) → slice_get fates.items i ≡ Some f → slice_get ran.fates.items i ≡ Some g → slice_get ran.totals.items i ≡ Some t → HasRisen script.now threading.workers ran.trace i t (tuned threading.tuning (state f)) (state g)) }
{
    hx_law_searches::histories_are_linear();
    hx_law_order::runs_have_one_order();
    hx_law_searches::searches_are_true_and_whole();
    hx_law_causes::answers_have_causes();
    hx_law_epochs::lost_regions_have_lost_their_replicas();
    let mut fates = fates;
    tune_first(&mut fates, threading.workers, threading.tuning);
    let Threading {
        workers,
        capacity,
        ..
    } = threading;
    let ran = run(rt, alloc, script, workers, capacity, fates, gate)?;
    Ok(ran)
}
