ghost use Rattle.std.specs.Prelude.{◌≡◌, ◌≤◌, true};
ghost use Rattle.hx_model.specs.Runs.{is_actor};
ghost use Rattle.hx_types.specs.Fitting.{IsScript};
ghost use Rattle.hx_types.specs.declared.ids.Actor.TheVariants as an_actor;

use hx_driver::Gate;
use hx_service::{Charter, Roster, ServiceError};
use hx_types::{Actor, Script, SessionId};
use std::alloc::Global;
use std::sync::{Mutex, Wait};

/// Makes the next call of a session, once the gate lets it; whether the session may go on.
fn call_next<C: Charter, G: Gate>(
    rt: &impl Wait,
    alloc: Global,
    roster: &Mutex<Roster<C>>,
    gate: &G,
    session: SessionId,
) -> Result<bool, ServiceError>
    requires { is_actor C.script (an_actor.Session session) ≡ true }
{
    gate.before(Actor::Session(session));
    match roster.lock(rt).next(alloc, session) {
        Ok(made) => Ok(made.is_some()),
        Err(ServiceError::Unanswered { .. }) => Ok(false),
        Err(error) => Err(error),
    }
}

/// Makes so many calls of a session, or those up to one that isn't answered.
fn call_session<C: Charter, G: Gate>(
    rt: &impl Wait,
    alloc: Global,
    roster: &Mutex<Roster<C>>,
    gate: &G,
    session: SessionId,
    calls: usize,
) -> Result<(), ServiceError>
    requires { is_actor C.script (an_actor.Session session) ≡ true }
{
    for _call in 0..calls {
        if !call_next(rt, alloc, roster, gate, session)? {
            return Ok(());
        }
    }
    Ok(())
}

/// Makes the calls of the caller's sessions, session after session: of each session s for which s -
/// 1 modulo the number of callers is the caller's number.
///
/// # Errors
///
/// `Memory` and `Worn` end the caller. What is left is made after the callers.
pub fn call_sessions<C: Charter, G: Gate>(
    rt: &impl Wait,
    alloc: Global,
    roster: &Mutex<Roster<C>>,
    gate: &G,
    script: &Script,
    caller: u32,
    callers: u32,
) -> Result<(), ServiceError>
    requires valid { IsScript script.now }
    requires plan { script.now ≡ C.script }
    requires callers { 1 ≤ callers }
{
    let mut session = 1;
    let mut rest = script.sessions.as_slice();
    'sessions: while let Some((calls, after)) = rest.split_first() {
        if (session - 1) % callers == caller {
            call_session(rt, alloc, roster, gate, SessionId(session), calls.len())?;
        }
        session += 1;
        rest = after;
    }
    Ok(())
}
