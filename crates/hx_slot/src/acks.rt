ghost use Rattle.std.specs.Prelude.{◌≡◌, ◌≤◌, false, length, position, vec_capacity, vec_len};
ghost use Rattle.std.specs.List.{AllWithin, list_any};
ghost use Rattle.hx_slot.specs.Acks.{AreSameUpdates, front_acked, front_with, is_acknowledged_as, is_of_version, is_waiting_below};
ghost use Rattle.hx_slot.specs.declared.updates.AcceptedUpdate.{AcceptedUpdate};

use crate::updates::AcceptedUpdate;
use hx_types::Version;

/// The place of the update of a version, from 0.
pub fn place_of(pending: &[AcceptedUpdate], version: Version) -> Option<usize>
    ensures { result ≡ position (is_of_version version.0) pending.now }
{
    pending
        .iter()
        .position(|taken| taken.update.version == version)
}

/// Whether one of the updates has the version.
pub fn has_update(pending: &[AcceptedUpdate], version: Version) -> bool
    ensures { result ≡ list_any (is_of_version version.0) pending.now }
{
    pending.iter().any(|taken| taken.update.version == version)
}

/// Whether the update of the version is there and acknowledged.
pub fn is_acknowledged(pending: &[AcceptedUpdate], version: Version) -> bool
    ensures { result ≡ list_any (is_acknowledged_as version.0) pending.now }
{
    pending.iter().any(|taken| taken.acknowledged && taken.update.version == version)
}

/// Whether an update of a lower version isn't acknowledged.
pub fn waits_below(pending: &[AcceptedUpdate], version: Version) -> bool
    ensures { result ≡ list_any (is_waiting_below version.0) pending.now }
{
    pending.iter().any(|accepted| accepted.update.version.0 < version.0 && !accepted.acknowledged)
}

/// How many updates at the front are acknowledged.
pub fn acknowledged_front(pending: &[AcceptedUpdate]) -> usize
    ensures front { result ≡ front_acked pending.now }
    ensures within { result ≤ length pending.now }
{
    for (count, taken) in pending.iter().enumerate() {
        if !taken.acknowledged {
            return count;
        }
    }
    pending.len()
}

/// How many updates at the front would be acknowledged with that of the version.
pub fn acknowledged_with(pending: &[AcceptedUpdate], version: Version) -> usize
    ensures front { result ≡ front_with version.0 pending.now }
    ensures within { result ≤ length pending.now }
{
    for (count, taken) in pending.iter().enumerate() {
        if !taken.acknowledged && taken.update.version != version {
            return count;
        }
    }
    pending.len()
}

/// Marks the updates from a place on as not acknowledged.
pub fn forget_acks(accepted: &mut Vec<AcceptedUpdate>, from: usize)
    requires { from ≤ vec_len accepted.old }
    ensures same { AreSameUpdates accepted.old.items accepted.new.items }
    ensures forgotten { AllWithin (λ (t : AcceptedUpdate). t.acknowledged ≡ false) accepted.new.items from (vec_len accepted.new) }
    ensures len { vec_len accepted.new ≡ vec_len accepted.old }
    ensures capacity { vec_capacity accepted.new ≡ vec_capacity accepted.old }
{
    for place in from..accepted.len() {
        accepted[place].acknowledged = false;
    }
}
