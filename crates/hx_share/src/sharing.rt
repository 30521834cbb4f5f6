ghost use Rattle.std.specs.Prelude.{◌≡◌, ◌≤◌, IfOk, length};
ghost use Rattle.hx_types.specs.Fitting.{IsScript};
ghost use Rattle.hx_types.specs.declared.limits.TheConstants.{MOST_DRIVERS};
ghost use Rattle.hx_share.specs.Sharing.{IsShared};

use crate::callers::call_sessions;
use crate::rest::make_rest;
use hx_driver::Gate;
use hx_service::{Charter, Roster};
use hx_trace::Trace;
use hx_types::{Actor, MOST_DRIVERS, Memory, Script};
use hx_world::DrainError;
use std::alloc::Global;
use std::marker::Brand;
use std::sync::{Mutex, Wait};
use std::thread;
use std::thread::Threads;

/// What callers that share a store leave: the trace of all calls, and the actor that ended them,
/// where one had made 1,048,576 entries and had one more to make.
#[derive(Drop)]
pub struct Shared {
    pub trace: Trace,
    pub worn: Option<Actor>,
}

/// Makes the calls of a script, one at a time: those of a session in order, and those of different
/// sessions as so many callers on threads take turns. Caller i, from 0, makes the calls of the
/// sessions s for which s - 1 modulo the number of callers is i, session after session; before each
/// call it asks the gate, and then takes the lock. Once all callers have ended, what they left is
/// made here.
///
/// # Errors
///
/// [`Memory`] alone, where what is made here finds none.
pub fn share<R: Threads + Wait + Sync, G: Gate + Sync>(
    rt: &R,
    alloc: Global,
    script: &Script,
    workers: u32,
    gate: &G,
) -> Result<Shared, Memory>
    requires valid { IsScript script.now }
    requires workers { (1 ≤ workers) × (workers ≤ MOST_DRIVERS) }
    ensures { IfOk result (IsShared script.now) }
{
    share_plan::<Brand, R, G>(rt, alloc, script, workers, gate)
}

/// Shares the calls of a script that a type names.
fn share_plan<C: Charter + Send + Sync, R: Threads + Wait + Sync, G: Gate + Sync>(
    rt: &R,
    alloc: Global,
    script: &Script,
    workers: u32,
    gate: &G,
) -> Result<Shared, Memory>
    requires valid { IsScript script.now }
    requires plan { script.now ≡ C.script }
    requires workers { (1 ≤ workers) × (workers ≤ MOST_DRIVERS) }
    ensures { IfOk result (IsShared C.script) }
{
    let roster: Roster<C> = Roster::new(alloc, script)?;
    let lock = Mutex::new(roster);
    let shared = &lock;
    let mut callers = Vec::new(alloc);
    for caller in 0..workers {
        callers.push(caller)?;
    }
    thread::for_each_mut(
        rt,
        callers.as_mut_slice(),
        MOST_DRIVERS as usize,
        &|_place: usize, caller: &mut u32|
            requires valid { IsScript script.now }
            requires plan { script.now ≡ C.script }
            requires workers { 1 ≤ workers }
        {
            let _left = call_sessions(rt, alloc, shared, gate, script, *caller, workers);
        },
    );
    end(alloc, lock.into_inner(), script.sessions.len() as u32)
}

/// Makes what the callers left.
fn end<C: Charter>(alloc: Global, roster: Roster<C>, sessions: u32) -> Result<Shared, Memory>
    requires { sessions ≡ length C.script.sessions }
    ensures { IfOk result (IsShared C.script) }
{
    hx_law_growing::runs_grow();
    let mut roster = roster;
    let worn = match make_rest(alloc, &mut roster, sessions) {
        Ok(()) => None,
        Err(DrainError::Worn(actor)) => Some(actor),
        Err(DrainError::Memory) => return Err(Memory),
    };
    let _ = roster.service().trace();
    Ok(Shared {
        trace: roster.into_service().into_trace(),
        worn,
    })
}
