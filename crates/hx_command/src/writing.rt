ghost use Rattle.std.specs.Prelude.{◌≡◌, ◌≤◌, ◌⊎◌, [], ◌∷◌, IfOk};
ghost use Rattle.hx_replay.specs.Outcomes.{IsSilent, status_of};
ghost use Rattle.hx_command.specs.Threads.{IsHandedWorn, IsHandedWritten, IsWritten, handed_by};
ghost use Rattle.hx_replay.specs.declared.outcomes.Outcome.TheVariants as an_outcome;
ghost use Rattle.hx_command.specs.HandedBack.{handed_back, handed_of, space_run};
ghost use Rattle.hx_replay.specs.Streams.{filled};

use crate::endings::without_trace;
use crate::finished::{Finished, Threaded};
use hx_clock::Seat;
use hx_fate::Fate;
use hx_io::{Sink, write_all};
use hx_mail::Port;
use hx_replay::{Done, Outcome, one_trace, status};
use hx_run::Ran;
use hx_spaces::Traces;
use hx_types::{Actor, Memory, Totals};
use std::alloc::Global;

/// What threads made of one space.
pub fn of_one(alloc: Global, ran: Ran) -> Result<Threaded, Memory>
    ensures handed { IfOk result (λ made. handed_of made ≡ handed_by (space_run ran)) }
    ensures kept { IfOk result (λ made. (made.fates ≡ ran.fates) × (made.totals ≡ ran.totals) × (made.traces ≡ ran.trace ∷ [])) }
{
    let Ran {
        trace,
        seat,
        totals,
        fates,
        ports,
        met_worn: _,
        worn: _,
    } = ran;
    let traces = one_trace(alloc, trace)?;
    let seats = one_seat(alloc, seat)?;
    Ok(Threaded {
        traces,
        seats,
        totals,
        fates,
        ports,
    })
}

fn one_seat(alloc: Global, seat: Seat) -> Result<Vec<Seat>, Memory>
    ensures { IfOk result (λ seats. seats.items ≡ seat ∷ []) }
{
    let mut seats = Vec::new(alloc);
    seats.push(seat)?;
    Ok(seats)
}

/// What is handed back of spaces that were run, with this outcome.
pub fn handed(threaded: Threaded, outcome: Outcome) -> Finished
    ensures outcome { result.done.outcome ≡ outcome }
    ensures status { result.done.status ≡ status_of outcome }
    ensures handed { handed_back result ≡ handed_of threaded }
    ensures traces { result.done.traces ≡ threaded.traces }
    ensures totals { result.totals ≡ threaded.totals }
    ensures fates { result.fates ≡ threaded.fates }
{
    let Threaded {
        traces,
        seats,
        totals,
        fates,
        ports,
    } = threaded;
    let done = Done {
        status: status(outcome),
        outcome,
        traces,
    };
    Finished {
        done,
        seats,
        totals,
        fates,
        ports,
    }
}

/// Hands back the run of one space that a worn actor ended. Nothing is written.
pub fn hand_worn(alloc: Global, ran: Ran, actor: Actor) -> Finished
    ensures handed { IsHandedWorn (handed_by (space_run ran)) (handed_back result) actor result.done.outcome }
    ensures status { result.done.status ≡ status_of result.done.outcome }
    ensures kept { ((result.fates ≡ ran.fates) × (result.totals ≡ ran.totals) × (result.done.traces ≡ ran.trace ∷ [])) ⊎ (result.fates.items ≡ []) }
{
    match of_one(alloc, ran) {
        Ok(threaded) => handed(threaded, Outcome::Worn(actor)),
        Err(_) => without_trace(alloc, Outcome::Memory),
    }
}

/// Writes the answer to the run of one space, and hands the run back.
pub fn write_run<K: Sink>(alloc: Global, sink: &mut K, ran: Ran, bytes: &[u8]) -> Finished
    ensures handed { IsHandedWritten (filled K.Sink sink.old sink.new) (handed_by (space_run ran)) (handed_back result) bytes.now result.done.outcome }
    ensures status { result.done.status ≡ status_of result.done.outcome }
    ensures kept { ((result.fates ≡ ran.fates) × (result.totals ≡ ran.totals) × (result.done.traces ≡ ran.trace ∷ [])) ⊎ (result.fates.items ≡ []) }
    ensures silent { IsSilent result.done.outcome → sink.new ≡ sink.old }
    ensures faults { K.faults sink.old ≤ K.faults sink.new }
{
    match of_one(alloc, ran) {
        Ok(threaded) => write_answer(sink, threaded, bytes),
        Err(_) => without_trace(alloc, Outcome::Memory),
    }
}

/// Writes the answer to spaces that were run, and hands them back.
pub fn write_answer<K: Sink>(sink: &mut K, threaded: Threaded, bytes: &[u8]) -> Finished
    ensures written { IsWritten (filled K.Sink sink.old sink.new) bytes.now result.done.outcome }
    ensures status { result.done.status ≡ status_of result.done.outcome }
    ensures handed { handed_back result ≡ handed_of threaded }
    ensures traces { result.done.traces ≡ threaded.traces }
    ensures totals { result.totals ≡ threaded.totals }
    ensures fates { result.fates ≡ threaded.fates }
    ensures faults { K.faults sink.old ≤ K.faults sink.new }
{
    match write_all(sink, bytes) {
        Ok(()) => handed(threaded, Outcome::Fine),
        Err(_) => handed(threaded, Outcome::WriteFault),
    }
}
