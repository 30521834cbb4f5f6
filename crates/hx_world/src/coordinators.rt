ghost use Rattle.std.specs.Prelude.{reverse};
ghost use Rattle.hx_types.specs.declared.ids.Actor.TheVariants as an_actor;
ghost use Rattle.hx_model.specs.Runs.{MayTake};
ghost use Rattle.hx_coord.specs.Coordinators.{CanTake, coordinator_entry};
ghost use Rattle.hx_world.specs.Coordinators.{HasTaken, IsSameCoordinator};
ghost use Rattle.hx_world.specs.Filing.{Files, IsSameLog};
ghost use Rattle.hx_world.specs.Names.{AreAscending};
ghost use Rattle.hx_world.specs.Turns.{IfMade, IsDecided};

use crate::admission::{makes_nothing, refuse_worn};
use crate::ends::DrainError;
use crate::logs::{Log, append_entry, reserve_entry};
use hx_coord::Coordinator;
use hx_types::Input;
use std::alloc::Global;

/// The coordinator, and how many entries it has made.
pub struct CountedCoordinator {
    pub coordinator: Coordinator,
    pub entries: u32,
}

impl Drop for CountedCoordinator {
    fn drop(self) {
        let CountedCoordinator {
            coordinator: _,
            entries: _,
        } = self;
    }
}

/// The coordinator takes an input, if the entry that it makes of it may be made, and tells whether
/// it made one. All memory is taken before anything changes.
pub fn coordinator_takes(
    alloc: Global,
    counted: &mut CountedCoordinator,
    log: &mut Log,
    input: Input,
) -> Result<bool, DrainError>
    requires can { CanTake counted.old.coordinator input }
    requires may { MayTake (reverse log.old.trace) an_actor.Coordinator input }
    requires ascending { AreAscending log.old.waiting.items }
    ensures decided { IsDecided (coordinator_entry counted.old.coordinator input) counted.old.entries result }
    ensures log { IfMade result (Files log.old log.new (coordinator_entry counted.old.coordinator input)) (IsSameLog log.old log.new) }
    ensures taken { IfMade result (HasTaken counted.old counted.new input) (IsSameCoordinator counted.old counted.new) }
{
    let plan = counted.coordinator.prepare(alloc, input)?;
    if makes_nothing(plan.entry()) {
        return Ok(false);
    }
    refuse_worn(plan.entry().actor, counted.entries)?;
    let trace = log.trace.growing();
    reserve_entry(trace, &mut log.waiting, plan.entry())?;
    let entry = counted.coordinator.apply(plan);
    append_entry(trace, &mut log.waiting, entry);
    counted.entries += 1;
    Ok(true)
}
