ghost use Rattle.std.specs.Prelude.{◌≡◌, ◌<◌, true, false, length, reverse, Ok, IfErr, OnOk};
ghost use Rattle.hx_law_growing.specs.Growing.{calls_in};
ghost use Rattle.hx_model.specs.Runs.{is_actor};
ghost use Rattle.hx_model.specs.Schedule.{IsQuiet};
ghost use Rattle.hx_types.specs.declared.ids.Actor.TheVariants as an_actor;
ghost use Rattle.hx_types.specs.declared.ids.SessionId.{SessionId as SessionSeen};
ghost use Rattle.hx_service.specs.Rosters.{HasNone};
ghost use Rattle.hx_world.specs.Worlds.{Fails};

use hx_service::{Charter, Roster, ServiceError};
use hx_types::SessionId;
use hx_world::DrainError;
use std::alloc::Global;

/// Makes the first call that some session can begin; whether there was one.
fn make_one<C: Charter>(
    alloc: Global,
    roster: &mut Roster<C>,
    sessions: u32,
) -> Result<bool, DrainError>
    requires { sessions ≡ length C.script.sessions }
    ensures none { result ≡ Ok false → (roster.new ≡ roster.old)
        × ((u : SessionSeen) → is_actor C.script (an_actor.Session u) ≡ true → HasNone C.script roster.old u) }
    ensures made { result ≡ Ok true → calls_in roster.old.script < calls_in roster.new.script }
    ensures fails { IfErr result (Fails roster.new.script (reverse roster.new.trace)) }
{
    for place in 0..sessions {
        match roster.next(alloc, SessionId(place + 1)) {
            Ok(None) => {}
            Ok(Some(_)) => return Ok(true),
            Err(ServiceError::Unanswered { .. }) => return Ok(true),
            Err(ServiceError::Worn(actor)) => return Err(DrainError::Worn(actor)),
            Err(ServiceError::Memory) => return Err(DrainError::Memory),
            // The plan's calls are those of a script, within its limits.
            Err(ServiceError::Full) => unreachable!(),
        }
    }
    Ok(false)
}

/// Makes the calls that are left, and goes on by the schedule until there is nothing left to do.
pub fn make_rest<C: Charter>(
    alloc: Global,
    roster: &mut Roster<C>,
    sessions: u32,
) -> Result<(), DrainError>
    requires { sessions ≡ length C.script.sessions }
    ensures quiet { OnOk result (IsQuiet C.script (reverse roster.new.trace)) }
    ensures fails { IfErr result (Fails roster.new.script (reverse roster.new.trace)) }
{
    hx_law_growing::quiet_stays();
    roster.settle(alloc)?;
    'calls: while make_one(alloc, roster, sessions)? {
        roster.settle(alloc)?;
        let _ = roster.service();
    }
    let _ = roster.service().trace();
    Ok(())
}
