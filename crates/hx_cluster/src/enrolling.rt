ghost use Rattle.std.specs.Prelude.{ℕ, ◌≡◌, ◌≤◌, [], length, IfOk, Some};
ghost use Rattle.hx_types.specs.declared.limits.TheConstants.{MOST_ACTORS};
ghost use Rattle.hx_clock.specs.Views.{counting};
ghost use Rattle.hx_cluster.specs.Clusters.{AreNewSeats};

use hx_clock::{Clock, Seat};
use hx_types::Memory;
use std::alloc::Global;

/// So many seats of a new clock, of the numbers from 0. It fails with [`Memory`] alone.
pub fn enrol_all(
    alloc: Global,
    clock: &mut Clock,
    seat: &mut Seat,
    count: u32,
) -> Result<Vec<Seat>, Memory>
    requires clock { seat.old.clock ≡ clock.old }
    requires new { seat.old.view ≡ counting }
    requires few { count ≤ MOST_ACTORS }
    ensures clock { (clock.new ≡ clock.old) × (seat.new.clock ≡ clock.old) }
    ensures seats { IfOk result (λ seats. AreNewSeats clock.old seats.items × (length seats.items ≡ count)) }
    ensures counted { IfOk result (λ _. (seat.new.view.count ≡ Some count) × (seat.new.view.carried ≡ [])) }
{
    let mut seats = Vec::with_capacity(alloc, count as usize)?;
    for _number in 0..count {
        let (_, enrolled) = clock.enrol(seat);
        seats.push(enrolled)?;
    }
    Ok(seats)
}
