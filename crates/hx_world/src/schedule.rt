ghost use Rattle.std.specs.Prelude.{◌≡◌, None, Some, true, false, IfOk, OnErr, OnOk, IfErr, IfNone, IfSome, MatchOption, is_some, reverse};
ghost use Rattle.hx_types.specs.declared.ids.Actor.TheVariants as an_actor;
ghost use Rattle.hx_model.specs.Runs.{is_actor, session_of};
ghost use Rattle.hx_model.specs.Schedule.{first_delivery, is_idle, next_entry, undelivered};
ghost use Rattle.hx_world.specs.Idle.{IsFirstIdle, IsNoneIdle, IsPostedFirst, IsRunningPost};
ghost use Rattle.hx_world.specs.Invariant.{IsWorld};
ghost use Rattle.hx_world.specs.Names.{can_receive};
ghost use Rattle.hx_world.specs.Nexts.{DeliversNext, FailsAt, Makes, delivery_in, tick_of};
ghost use Rattle.hx_world.specs.Worlds.{Advances, Fails};

use crate::actors::{has_halted, session_turn};
use crate::ends::DrainError;
use crate::hearing::running_hears;
use crate::inside::Inside;
use crate::logs::sent_post;
use crate::sessions::CountedSession;
use hx_types::{Post, PostId, SessionId};
use std::alloc::Global;

/// Makes the next entry, if there is one: the delivery of the lowest post that waits for an actor
/// that hasn't halted, else a tick of the lowest idle session.
#[inline(always)]
pub fn make_next(alloc: Global, inside: &mut Inside) -> Result<bool, DrainError>
    requires world { IsWorld inside.old }
    ensures world { IsWorld inside.new }
    ensures script { inside.new.script ≡ inside.old.script }
    ensures advances { IfOk result (Advances inside.old.script (reverse inside.old.log.trace) (reverse inside.new.log.trace)) }
    ensures fails { IfErr result (Fails inside.old.script (reverse inside.old.log.trace)) }
    ensures err { OnErr result (inside.new.log.trace ≡ inside.old.log.trace) }
{
    if deliver_first(alloc, inside)? {
        return Ok(true);
    }
    let Some(place) = first_idle(inside.actors.sessions.as_slice()) else {
        return Ok(false);
    };
    begin(alloc, inside, SessionId(place as u32 + 1))?;
    Ok(true)
}

/// Delivers the lowest post that waits for an actor that hasn't halted, if there is one. The names
/// before it go: who has halted takes no post any more.
#[inline(always)]
pub fn deliver_first(alloc: Global, inside: &mut Inside) -> Result<bool, DrainError>
    requires world { IsWorld inside.old }
    ensures world { IsWorld inside.new }
    ensures script { inside.new.script ≡ inside.old.script }
    ensures delivers { IfOk result (DeliversNext inside.old.script (reverse inside.old.log.trace) (reverse inside.new.log.trace)) }
    ensures rests { IfOk result (λ made. made ≡ false → inside.new.log.trace ≡ inside.old.log.trace) }
    ensures fails { IfErr result (FailsAt (reverse inside.old.log.trace) (delivery_in inside.old.script (reverse inside.old.log.trace))) }
    ensures err { OnErr result (inside.new.log.trace ≡ inside.old.log.trace) }
{
    while let Some(id) = inside.log.waiting.lowest() {
        if let Some(post) = running_post(inside, id) {
            let to = post.to;
            running_hears(alloc, inside, to, id)?;
            return Ok(true);
        }
        inside.log.waiting.pop();
    }
    Ok(false)
}

/// An idle session begins its next call. Its tick makes an entry, since it has a call left.
#[inline(always)]
pub fn begin(alloc: Global, inside: &mut Inside, session: SessionId) -> Result<(), DrainError>
    requires world { IsWorld inside.old }
    requires session { is_actor inside.old.script (an_actor.Session session) ≡ true }
    requires idle { is_idle (session_of inside.old.script session (reverse inside.old.log.trace)) ≡ true }
    ensures world { IsWorld inside.new }
    ensures script { inside.new.script ≡ inside.old.script }
    ensures begins { OnOk result (Makes inside.old.script (reverse inside.old.log.trace) (reverse inside.new.log.trace) (tick_of session)) }
    ensures fails { IfErr result (FailsAt (reverse inside.old.log.trace) (Some (tick_of session))) }
    ensures err { OnErr result (inside.new.log.trace ≡ inside.old.log.trace) }
{
    session_turn(alloc, inside, session)?;
    Ok(())
}

/// The post of a name, if its receiver hasn't halted.
fn running_post(inside: &Inside, id: PostId) -> Option<&Post>
    requires world { IsWorld inside.now }
    ensures some { IfSome result (λ post. IsRunningPost inside.now.script (reverse inside.now.log.trace) id post.now) }
    ensures none { IfNone result (can_receive inside.now.script (reverse inside.now.log.trace) id ≡ false) }
{
    match sent_post(&inside.log, id) {
        Some(post) if !has_halted(inside, post.to) => Some(post),
        _ => None,
    }
}

/// Whether there is a next entry: a post that waits for an actor that hasn't halted, or an idle
/// session.
pub fn has_next(inside: &mut Inside) -> bool
    requires { IsWorld inside.old }
    ensures world { IsWorld inside.new }
    ensures script { inside.new.script ≡ inside.old.script }
    ensures trace { inside.new.log.trace ≡ inside.old.log.trace }
    ensures next { result ≡ is_some (next_entry inside.old.script (reverse inside.old.log.trace)) }
{
    first_waiting(inside).is_some() || first_idle(inside.actors.sessions.as_slice()).is_some()
}

/// The name of the post that is delivered next: the lowest one that was never delivered and whose
/// receiver hasn't halted. The names before it go: who has halted takes no post any more.
pub fn first_waiting(inside: &mut Inside) -> Option<PostId>
    requires { IsWorld inside.old }
    ensures world { IsWorld inside.new }
    ensures script { inside.new.script ≡ inside.old.script }
    ensures trace { inside.new.log.trace ≡ inside.old.log.trace }
    ensures first { MatchOption result (first_delivery inside.old.script (reverse inside.old.log.trace) (undelivered (reverse inside.old.log.trace)) ≡ None) (IsPostedFirst inside.old.script (reverse inside.old.log.trace)) }
{
    while let Some(id) = inside.log.waiting.lowest() {
        if running_post(inside, id).is_some() {
            return Some(id);
        }
        inside.log.waiting.pop();
    }
    None
}

/// The lowest session with a call left and none under way, by its place from 0.
#[inline(never)]
fn first_idle(sessions: &[CountedSession]) -> Option<usize>
    ensures { MatchOption result (IsNoneIdle sessions.now) (IsFirstIdle sessions.now) }
{
    for (place, counted) in sessions.iter().enumerate() {
        if counted.session.idle() {
            return Some(place);
        }
    }
    None
}
