ghost use Rattle.std.specs.Prelude.{◌≡◌, true, false, OnOk, OnErr, IfErr, reverse, ⊤};
ghost use Rattle.hx_types.specs.declared.ids.Actor.TheVariants as an_actor;
ghost use Rattle.hx_types.specs.declared.traces.Input.TheVariants as an_input;
ghost use Rattle.hx_model.specs.Runs.{MayTake, has_halted, is_actor, session_of};
ghost use Rattle.hx_model.specs.Schedule.{is_idle};
ghost use Rattle.hx_world.specs.Invariant.{IsWorld};
ghost use Rattle.hx_world.specs.Turns.{HasNoTurn, HasTurn, IfMade, IsTurn};

use crate::coordinators::{CountedCoordinator, coordinator_takes};
use crate::ends::{DrainError, StepError};
use crate::inside::Inside;
use crate::servers::{CountedServer, server_takes};
use crate::sessions::{CountedSession, session_takes, session_ticks};
use hx_types::{Actor, Input, ServerId, SessionId};
use std::alloc::Global;

/// All actors; of the servers and of the sessions those of number 1 first.
pub struct Actors {
    pub coordinator: CountedCoordinator,
    pub servers: Vec<CountedServer>,
    pub sessions: Vec<CountedSession>,
}

impl Drop for Actors {
    fn drop(self) {
        let Actors {
            coordinator: _,
            servers: _,
            sessions: _,
        } = self;
    }
}

/// Whether an actor has halted. Only servers do.
pub fn has_halted(inside: &Inside, actor: Actor) -> bool
    requires world { IsWorld inside.now }
    requires actor { is_actor inside.now.script actor ≡ true }
    ensures { result ≡ has_halted inside.now.script (reverse inside.now.log.trace) actor }
{
    match actor {
        Actor::Server(server) => {
            let counted = &inside.actors.servers[server.0 as usize - 1];
            counted.server.halted()
        }
        _ => false,
    }
}

/// Whether a session has a call left and none under way.
pub fn is_idle(inside: &Inside, session: SessionId) -> bool
    requires world { IsWorld inside.now }
    requires actor { is_actor inside.now.script (an_actor.Session session) ≡ true }
    ensures { result ≡ is_idle (session_of inside.now.script session (reverse inside.now.log.trace)) }
{
    let counted = &inside.actors.sessions[session.0 as usize - 1];
    counted.session.idle()
}

/// Whether a call of a session is under way: then it is neither idle nor at its end.
pub fn is_busy(inside: &Inside, session: SessionId) -> bool
    requires world { IsWorld inside.now }
    requires actor { is_actor inside.now.script (an_actor.Session session) ≡ true }
    ensures { result ≡ (session_of inside.now.script session (reverse inside.now.log.trace)).under_way }
{
    let counted = &inside.actors.sessions[session.0 as usize - 1];
    !counted.session.idle() && !counted.session.ended()
}

/// An actor takes an input, if it hasn't halted and the entry that it makes of it may be made.
pub fn actor_takes(
    alloc: Global,
    inside: &mut Inside,
    actor: Actor,
    input: Input,
) -> Result<(), StepError>
    requires world { IsWorld inside.old }
    requires actor { is_actor inside.old.script actor ≡ true }
    requires may { MayTake (reverse inside.old.log.trace) actor input }
    ensures world { IsWorld inside.new }
    ensures script { inside.new.script ≡ inside.old.script }
    ensures ok { OnOk result (HasTurn inside.old.script (reverse inside.old.log.trace) (reverse inside.new.log.trace) actor input) }
    ensures err { IfErr result (HasNoTurn inside.old.script (reverse inside.old.log.trace) actor input) }
    ensures same { OnErr result (inside.new.log.trace ≡ inside.old.log.trace) }
{
    if has_halted(inside, actor) {
        return Err(StepError::Halted);
    }
    if !running_takes(alloc, inside, actor, input)? {
        return Err(StepError::Idle);
    }
    Ok(())
}

/// An actor that hasn't halted takes an input, if the entry that it makes of it may be made, and
/// tells whether it made one: a tick may make nothing.
pub fn running_takes(
    alloc: Global,
    inside: &mut Inside,
    actor: Actor,
    input: Input,
) -> Result<bool, DrainError>
    requires world { IsWorld inside.old }
    requires actor { is_actor inside.old.script actor ≡ true }
    requires running { has_halted inside.old.script (reverse inside.old.log.trace) actor ≡ false }
    requires may { MayTake (reverse inside.old.log.trace) actor input }
    ensures world { IsWorld inside.new }
    ensures script { inside.new.script ≡ inside.old.script }
    ensures turn { IsTurn inside.old.script (reverse inside.old.log.trace) (reverse inside.new.log.trace) actor input result }
    ensures same { IfMade result ⊤ (inside.new.log.trace ≡ inside.old.log.trace) }
{
    match actor {
        Actor::Coordinator => to_coordinator(alloc, inside, input),
        Actor::Server(server) => to_server(alloc, inside, server, input),
        Actor::Session(session) => to_session(alloc, inside, session, input),
    }
}

/// Gives an input to the coordinator, and tells whether it made an entry of it.
#[inline(never)]
fn to_coordinator(alloc: Global, inside: &mut Inside, input: Input) -> Result<bool, DrainError>
    requires world { IsWorld inside.old }
    requires may { MayTake (reverse inside.old.log.trace) an_actor.Coordinator input }
    ensures world { IsWorld inside.new }
    ensures script { inside.new.script ≡ inside.old.script }
    ensures turn { IsTurn inside.old.script (reverse inside.old.log.trace) (reverse inside.new.log.trace) an_actor.Coordinator input result }
    ensures same { IfMade result ⊤ (inside.new.log.trace ≡ inside.old.log.trace) }
{
    coordinator_takes(
        alloc,
        &mut inside.actors.coordinator,
        &mut inside.log,
        input,
    )
}

/// Gives an input to a server that hasn't halted, and tells whether it made an entry of it.
fn to_server(
    alloc: Global,
    inside: &mut Inside,
    server: ServerId,
    input: Input,
) -> Result<bool, DrainError>
    requires world { IsWorld inside.old }
    requires actor { is_actor inside.old.script (an_actor.Server server) ≡ true }
    requires running { has_halted inside.old.script (reverse inside.old.log.trace) (an_actor.Server server) ≡ false }
    requires may { MayTake (reverse inside.old.log.trace) (an_actor.Server server) input }
    ensures world { IsWorld inside.new }
    ensures script { inside.new.script ≡ inside.old.script }
    ensures turn { IsTurn inside.old.script (reverse inside.old.log.trace) (reverse inside.new.log.trace) (an_actor.Server server) input result }
    ensures same { IfMade result ⊤ (inside.new.log.trace ≡ inside.old.log.trace) }
{
    let counted = &mut inside.actors.servers[server.0 as usize - 1];
    server_takes(alloc, counted, &mut inside.log, input)
}

/// Gives an input to a session, and tells whether it made an entry of it.
fn to_session(
    alloc: Global,
    inside: &mut Inside,
    session: SessionId,
    input: Input,
) -> Result<bool, DrainError>
    requires world { IsWorld inside.old }
    requires actor { is_actor inside.old.script (an_actor.Session session) ≡ true }
    requires may { MayTake (reverse inside.old.log.trace) (an_actor.Session session) input }
    ensures world { IsWorld inside.new }
    ensures script { inside.new.script ≡ inside.old.script }
    ensures turn { IsTurn inside.old.script (reverse inside.old.log.trace) (reverse inside.new.log.trace) (an_actor.Session session) input result }
    ensures same { IfMade result ⊤ (inside.new.log.trace ≡ inside.old.log.trace) }
{
    let counted = &mut inside.actors.sessions[session.0 as usize - 1];
    session_takes(alloc, counted, &mut inside.log, input)
}

/// A session has its own turn, if the entry that it makes of it may be made, and tells whether it
/// made one.
#[inline(never)]
pub fn session_turn(
    alloc: Global,
    inside: &mut Inside,
    session: SessionId,
) -> Result<bool, DrainError>
    requires world { IsWorld inside.old }
    requires actor { is_actor inside.old.script (an_actor.Session session) ≡ true }
    ensures world { IsWorld inside.new }
    ensures script { inside.new.script ≡ inside.old.script }
    ensures turn { IsTurn inside.old.script (reverse inside.old.log.trace) (reverse inside.new.log.trace) (an_actor.Session session) an_input.Tick result }
    ensures same { IfMade result ⊤ (inside.new.log.trace ≡ inside.old.log.trace) }
{
    let counted = &mut inside.actors.sessions[session.0 as usize - 1];
    session_ticks(alloc, counted, &mut inside.log, session)
}
