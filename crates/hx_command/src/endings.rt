ghost use Rattle.std.specs.Prelude.{◌≡◌, []};
ghost use Rattle.hx_command.specs.Threads.{nothing};
ghost use Rattle.hx_command.specs.HandedBack.{handed_back};
ghost use Rattle.hx_replay.specs.Outcomes.{status_of};

use crate::finished::Finished;
use hx_replay::{Done, Outcome, status};
use hx_spaces::Traces;
use std::alloc::Global;

/// The end of a call in which nothing ran on threads.
pub fn without_threads(alloc: Global, done: Done) -> Finished
    ensures done { result.done ≡ done }
    ensures seats { result.seats.items ≡ [] }
    ensures totals { result.totals.items ≡ [] }
    ensures fates { result.fates.items ≡ [] }
    ensures ports { result.ports.items ≡ [] }
{
    Finished {
        done,
        seats: Vec::new(alloc),
        totals: Vec::new(alloc),
        fates: Vec::new(alloc),
        ports: Vec::new(alloc),
    }
}

/// The end of a call that has no trace and nothing else to hand back.
pub fn without_trace(alloc: Global, outcome: Outcome) -> Finished
    ensures outcome { result.done.outcome ≡ outcome }
    ensures status { result.done.status ≡ status_of outcome }
    ensures nothing { handed_back result ≡ nothing }
    ensures fates { result.fates.items ≡ [] }
{
    let done = Done {
        status: status(outcome),
        outcome,
        traces: Traces::new(alloc),
    };
    without_threads(alloc, done)
}
