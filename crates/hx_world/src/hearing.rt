ghost use Rattle.std.specs.Prelude.{◌≡◌, true, false, IsSome, OnOk, OnErr, IfErr, reverse};
ghost use Rattle.hx_types.specs.declared.ids.Actor.TheVariants as an_actor;
ghost use Rattle.hx_model.specs.Runs.{MayTake, has_halted, is_actor, post_named};
ghost use Rattle.hx_world.specs.Filing.{heard};
ghost use Rattle.hx_world.specs.Invariant.{IsWorld};
ghost use Rattle.hx_world.specs.Turns.{FailsTurn, HasTurn};

use crate::actors::running_takes;
use crate::ends::DrainError;
use crate::inside::Inside;
use crate::logs::sent_post;
use crate::servers::server_hears;
use crate::sessions::session_hears;
use crate::steps::delivery;
use hx_types::{Actor, PostId, ServerId, SessionId};
use std::alloc::Global;

/// An actor that hasn't halted takes a post of the trace, if the entry that it makes of it may be
/// made.
#[inline(always)]
pub fn running_hears(
    alloc: Global,
    inside: &mut Inside,
    actor: Actor,
    id: PostId,
) -> Result<(), DrainError>
    requires world { IsWorld inside.old }
    requires actor { is_actor inside.old.script actor ≡ true }
    requires running { has_halted inside.old.script (reverse inside.old.log.trace) actor ≡ false }
    requires sent { IsSome (post_named id (reverse inside.old.log.trace)) }
    requires may { MayTake (reverse inside.old.log.trace) actor (heard id inside.old.log.trace) }
    ensures world { IsWorld inside.new }
    ensures script { inside.new.script ≡ inside.old.script }
    ensures ok { OnOk result (HasTurn inside.old.script (reverse inside.old.log.trace) (reverse inside.new.log.trace) actor (heard id inside.old.log.trace)) }
    ensures err { IfErr result (FailsTurn inside.old.script (reverse inside.old.log.trace) actor (heard id inside.old.log.trace)) }
    ensures same { OnErr result (inside.new.log.trace ≡ inside.old.log.trace) }
{
    match actor {
        Actor::Coordinator => takes_copy(alloc, inside, actor, id),
        Actor::Server(server) => to_server(alloc, inside, server, id),
        Actor::Session(session) => to_session(alloc, inside, session, id),
    }
}

/// A server that hasn't halted hears a post where it lies in the trace. Where it is one of an entry
/// that is kept whole, the server gets a copy.
#[inline(always)]
fn to_server(
    alloc: Global,
    inside: &mut Inside,
    server: ServerId,
    id: PostId,
) -> Result<(), DrainError>
    requires world { IsWorld inside.old }
    requires actor { is_actor inside.old.script (an_actor.Server server) ≡ true }
    requires running { has_halted inside.old.script (reverse inside.old.log.trace) (an_actor.Server server) ≡ false }
    requires sent { IsSome (post_named id (reverse inside.old.log.trace)) }
    requires may { MayTake (reverse inside.old.log.trace) (an_actor.Server server) (heard id inside.old.log.trace) }
    ensures world { IsWorld inside.new }
    ensures script { inside.new.script ≡ inside.old.script }
    ensures ok { OnOk result (HasTurn inside.old.script (reverse inside.old.log.trace) (reverse inside.new.log.trace) (an_actor.Server server) (heard id inside.old.log.trace)) }
    ensures err { IfErr result (FailsTurn inside.old.script (reverse inside.old.log.trace) (an_actor.Server server) (heard id inside.old.log.trace)) }
    ensures same { OnErr result (inside.new.log.trace ≡ inside.old.log.trace) }
{
    let trace = inside.log.trace.growing();
    let Some(at) = trace.place_of(id) else {
        return takes_copy(alloc, inside, Actor::Server(server), id);
    };
    let counted = &mut inside.actors.servers[server.0 as usize - 1];
    server_hears(
        alloc,
        counted,
        trace,
        &mut inside.log.waiting,
        &mut inside.log.lent,
        id,
        at,
    )?;
    Ok(())
}

/// A session hears a post where it lies in the trace. Where it is one of an entry that is kept
/// whole, the session gets a copy.
#[inline(always)]
fn to_session(
    alloc: Global,
    inside: &mut Inside,
    session: SessionId,
    id: PostId,
) -> Result<(), DrainError>
    requires world { IsWorld inside.old }
    requires actor { is_actor inside.old.script (an_actor.Session session) ≡ true }
    requires sent { IsSome (post_named id (reverse inside.old.log.trace)) }
    requires may { MayTake (reverse inside.old.log.trace) (an_actor.Session session) (heard id inside.old.log.trace) }
    ensures world { IsWorld inside.new }
    ensures script { inside.new.script ≡ inside.old.script }
    ensures ok { OnOk result (HasTurn inside.old.script (reverse inside.old.log.trace) (reverse inside.new.log.trace) (an_actor.Session session) (heard id inside.old.log.trace)) }
    ensures err { IfErr result (FailsTurn inside.old.script (reverse inside.old.log.trace) (an_actor.Session session) (heard id inside.old.log.trace)) }
    ensures same { OnErr result (inside.new.log.trace ≡ inside.old.log.trace) }
{
    let trace = inside.log.trace.growing();
    let Some(at) = trace.place_of(id) else {
        return takes_copy(alloc, inside, Actor::Session(session), id);
    };
    let counted = &mut inside.actors.sessions[session.0 as usize - 1];
    session_hears(
        alloc,
        counted,
        trace,
        &mut inside.log.waiting,
        &mut inside.log.lent,
        id,
        at,
    )?;
    Ok(())
}

/// An actor that hasn't halted takes a copy of a post of the trace. It makes an entry of any
/// delivery.
#[inline(never)]
fn takes_copy(
    alloc: Global,
    inside: &mut Inside,
    actor: Actor,
    id: PostId,
) -> Result<(), DrainError>
    requires world { IsWorld inside.old }
    requires actor { is_actor inside.old.script actor ≡ true }
    requires running { has_halted inside.old.script (reverse inside.old.log.trace) actor ≡ false }
    requires sent { IsSome (post_named id (reverse inside.old.log.trace)) }
    requires may { MayTake (reverse inside.old.log.trace) actor (heard id inside.old.log.trace) }
    ensures world { IsWorld inside.new }
    ensures script { inside.new.script ≡ inside.old.script }
    ensures ok { OnOk result (HasTurn inside.old.script (reverse inside.old.log.trace) (reverse inside.new.log.trace) actor (heard id inside.old.log.trace)) }
    ensures err { IfErr result (FailsTurn inside.old.script (reverse inside.old.log.trace) actor (heard id inside.old.log.trace)) }
    ensures same { OnErr result (inside.new.log.trace ≡ inside.old.log.trace) }
{
    let Some(post) = sent_post(&inside.log, id) else {
        // The post is one of the trace.
        unreachable!()
    };
    let input = delivery(alloc, id, post)?;
    running_takes(alloc, inside, actor, input)?;
    Ok(())
}
