ghost use Rattle.std.specs.Prelude.{◌≡◌, List, [], ◌∷◌, ◌++◌, map, IfOk, OnOk};
ghost use Rattle.std.specs.List.{flat_map};
ghost use Rattle.hx_types.specs.declared.totals.Totals.{Totals as TotalsSeen};
ghost use Rattle.hx_command.specs.Threads.{no_entries};

use crate::finished::Threaded;
use hx_clock::Seat;
use hx_fate::Fate;
use hx_mail::Port;
use hx_run::Ran;
use hx_spaces::Traces;
use hx_trace::Trace;
use hx_types::{Memory, Script, Sequence, Totals};
use std::alloc::Global;

/// What threads made of several spaces, part by part, in the order of the spaces. The totals of
/// each space stand apart.
#[derive(Drop)]
pub struct Parts {
    pub traces: Traces,
    pub seats: Vec<Seat>,
    pub totals: Sequence<Sequence<Totals>>,
    pub fates: Vec<Box<dyn Fate + Send>>,
    pub ports: Vec<Port>,
}

/// Puts what threads made of a space behind the others.
fn add_run(parts: &mut Parts, ran: Ran) -> Result<(), Memory>
    ensures traces { OnOk result (parts.new.traces ≡ parts.old.traces ++ ran.trace ∷ []) }
    ensures seats { OnOk result (parts.new.seats.items ≡ parts.old.seats.items ++ ran.seat ∷ []) }
    ensures totals { OnOk result (parts.new.totals ≡ parts.old.totals ++ ran.totals.items ∷ []) }
    ensures fates { OnOk result (parts.new.fates.items ≡ parts.old.fates.items ++ ran.fates.items) }
    ensures ports { OnOk result (parts.new.ports.items ≡ parts.old.ports.items ++ ran.ports.items) }
{
    let Ran {
        trace,
        seat,
        totals,
        fates,
        ports,
        met_worn: _,
        worn: _,
    } = ran;
    let mut fates = fates;
    let mut ports = ports;
    parts.traces.push(trace)?;
    parts.seats.push(seat)?;
    parts.totals.push(Sequence::from_vec(totals))?;
    parts.fates.append(&mut fates)?;
    parts.ports.append(&mut ports)?;
    Ok(())
}

/// The parts of all runs.
pub fn parts_of(alloc: Global, runs: Vec<Ran>) -> Result<Parts, Memory>
    ensures traces { IfOk result (λ parts. parts.traces ≡ map (λ r. r.trace) runs.items) }
    ensures seats { IfOk result (λ parts. parts.seats.items ≡ map (λ r. r.seat) runs.items) }
    ensures totals { IfOk result (λ parts. parts.totals ≡ map (λ r. r.totals.items) runs.items) }
    ensures fates { IfOk result (λ parts. parts.fates.items ≡ flat_map (λ r. r.fates.items) runs.items) }
    ensures ports { IfOk result (λ parts. parts.ports.items ≡ flat_map (λ r. r.ports.items) runs.items) }
{
    let mut parts = Parts {
        traces: Traces::new(alloc),
        seats: Vec::new(alloc),
        totals: Sequence::new(alloc),
        fates: Vec::new(alloc),
        ports: Vec::new(alloc),
    };
    for ran in runs {
        add_run(&mut parts, ran)?;
    }
    Ok(parts)
}

/// Puts an empty trace for each of these spaces behind the others.
pub fn add_empty(alloc: Global, traces: &mut Traces, scripts: &[Script]) -> Result<(), Memory>
    ensures { OnOk result (traces.new ≡ traces.old ++ no_entries scripts.now) }
{
    for _script in scripts {
        traces.push(Trace::new(alloc))?;
    }
    Ok(())
}

/// All totals in one list.
fn all_totals(alloc: Global, lists: &[Sequence<Totals>]) -> Result<Vec<Totals>, Memory>
    ensures { IfOk result (λ all. all.items ≡ flat_map (λ (totals : List TotalsSeen). totals) lists.now) }
{
    let mut all = Vec::new(alloc);
    for totals in lists {
        all.extend_from_slice(totals.as_slice())?;
    }
    Ok(all)
}

/// The parts, with the totals of all spaces in one list.
pub fn joined(alloc: Global, parts: Parts) -> Result<Threaded, Memory>
    ensures traces { IfOk result (λ made. made.traces ≡ parts.traces) }
    ensures seats { IfOk result (λ made. made.seats ≡ parts.seats) }
    ensures totals { IfOk result (λ made. made.totals.items ≡ flat_map (λ (totals : List TotalsSeen). totals) parts.totals) }
    ensures fates { IfOk result (λ made. made.fates ≡ parts.fates) }
    ensures ports { IfOk result (λ made. made.ports ≡ parts.ports) }
{
    let Parts {
        traces,
        seats,
        totals,
        fates,
        ports,
    } = parts;
    let totals = all_totals(alloc, totals.as_slice())?;
    Ok(Threaded {
        traces,
        seats,
        totals,
        fates,
        ports,
    })
}
