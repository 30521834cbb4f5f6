ghost use Rattle.std.specs.Prelude.{◌≡◌, [], List, map, reverse, IfOk};
ghost use Rattle.std.specs.List.{AllByRecursion};
ghost use Rattle.hx_model.specs.Types.{Script};
ghost use Rattle.hx_model.specs.Runs.{IsRun};
ghost use Rattle.hx_clock.specs.declared.parts.Stamped.{Stamped};
ghost use Rattle.hx_clock.specs.Views as a_view;
ghost use Rattle.hx_clock.specs.Views.{IsWhole};
ghost use Rattle.hx_law_threads.specs.Merged.{AreOwnParts, AreWholeParts, HasOwnParts, HasStampsAsPlaces, IsMerged};
ghost use Rattle.hx_gather.specs.Gathered.{parts_by, parts_of, CountsAll, IsDrawn, IsSeated};

use crate::merging::merge;
use hx_clock::{Clock, Part, Parts, Seat};
use hx_trace::Trace;
use hx_types::{Actor, Memory};
use std::alloc::Global;

/// What one actor made, with the seat that carries it. It is all that is left of an actor that
/// takes no more turns.
#[derive(Drop)]
pub struct SeatedPart {
    pub actor: Actor,
    pub part: Part,
    pub seat: Seat,
}

/// A trace, and its evidence: the clock's seat that has all its entries with their stamps. What a
/// seat has grows by acts of its clock alone, each of which draws one stamp by one atomic addition.
/// So the seat, which has no bytes, shows that the entries stand in the order in which they drew
/// their stamps.
#[derive(Drop)]
pub struct Gathered {
    pub trace: Trace,
    pub seat: Seat,
}

/// The trace of all actors of a clock: the entries of their parts in the order of their stamps, so
/// that an entry's number is its stamp plus 1. It closes the clock, and gives back its counting
/// seat, which has taken in those of all actors.
///
/// Where the parts are what different actors of a script made on their own, the trace is a run of
/// that script, and each actor's entries in it are its part: so its state at the end is the one
/// that it has. Whatever the threads did, the laws over all runs hold of it.
///
/// The entries stay where they lie in their parts: beside these there is memory for the heads of
/// the trace, for a number for each entry, and for one for each part. It fails with [`Memory`]
/// alone.
pub fn gather(
    alloc: Global,
    clock: Clock,
    seat: Seat,
    actors: Vec<SeatedPart>,
) -> Result<Gathered, Memory>
    requires clock { seat.clock ≡ clock }
    requires counting { seat.view.carried ≡ [] }
    requires seats { AllByRecursion (IsSeated clock) actors.items }
    requires all { CountsAll seat actors.items }
    ensures whole { IfOk result (λ made. (merged : List Stamped) × IsMerged (parts_of actors.items) merged × HasStampsAsPlaces merged × (made.trace ≡ map (λ x. x.entry) merged)) }
    ensures clock { IfOk result (λ made. made.seat.clock ≡ clock) }
    ensures drawn { IfOk result (λ made. IsDrawn made.seat.view made.trace) }
    ensures parts { IfOk result (λ _. AreWholeParts (parts_of actors.items)) }
    ensures run { IfOk result (λ made. (script : Script) → AreOwnParts script (parts_by actors.items) → IsRun script (reverse made.trace)) }
    ensures own { IfOk result (λ made. (script : Script) → AreOwnParts script (parts_by actors.items) → HasOwnParts (parts_by actors.items) (reverse made.trace)) }
{
    let (parts, seat) = collect(alloc, clock, seat, actors)?;
    let trace = merge(alloc, parts)?;
    Ok(Gathered { trace, seat })
}

/// The parts, and the counting seat, once it has taken in the seats of all actors.
fn collect(
    alloc: Global,
    clock: Clock,
    mut seat: Seat,
    actors: Vec<SeatedPart>,
) -> Result<(Parts, Seat), Memory>
    requires clock { seat.clock ≡ clock }
    requires counting { seat.view.carried ≡ [] }
    requires seats { AllByRecursion (IsSeated clock) actors.items }
    requires all { CountsAll seat actors.items }
    ensures parts { IfOk result (λ made. made.0 ≡ parts_of actors.items) }
    ensures clock { IfOk result (λ made. made.1.clock ≡ clock) }
    ensures seat { IfOk result (λ made. IsWhole made.1.view × (a_view.parts_of made.1.view ≡ parts_of actors.items)) }
    ensures whole { IfOk result (λ _. AreWholeParts (parts_of actors.items)) }
{
    let mut parts = Parts::new(alloc);
    for actor in actors {
        let SeatedPart {
            actor: _,
            part,
            seat: other,
        } = actor;
        clock.learn(&mut seat, other);
        parts.push(part)?;
    }
    let _ = clock.close(&mut seat);
    Ok((parts, seat))
}
