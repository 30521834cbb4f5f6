ghost use Rattle.std.specs.Prelude.{ℕ};
ghost use Rattle.hx_driver.specs.Floors.{IsCrewOn};
ghost use Rattle.hx_driver.specs.Moves.{GoesOnAt};
ghost use Rattle.hx_driver.specs.Slices.{HaveRetried};

use crate::crews::Crew;
use crate::gates::Gate;
use crate::moves::{Move, move_at};
use hx_fate::Fate;
use hx_outbox::Floor;
use std::sync::Wait;

/// Each actor that waits ticks once, in order, until a fault is met.
pub fn retry_each<R: Wait, G: Gate>(
    floor: &Floor<'_, R, G>,
    crew: &mut Crew,
    fate: &mut Box<dyn Fate + Send>,
)
    requires crew { (w : ℕ) × IsCrewOn floor.now w crew.old }
    ensures on { GoesOnAt floor.now crew.old crew.new (state fate.old) (state fate.new) }
    ensures retried { HaveRetried floor.now.script.now crew.old crew.new }
{
    for at in 0..crew.desks.len() {
        move_at(floor, crew, fate, at, Move::Retry);
    }
}
