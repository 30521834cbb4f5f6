ghost use Rattle.std.specs.Prelude.{◌≡◌, OnOk, OnErr, IfErr, reverse};
ghost use Rattle.hx_types.specs.declared.ids.Actor.TheVariants as an_actor;
ghost use Rattle.hx_model.specs.Runs.{MayTake};
ghost use Rattle.hx_types.specs.declared.traces.Input.TheVariants as an_input;
ghost use Rattle.hx_session.specs.Sessions.{CanTake, session_entry};
ghost use Rattle.hx_trace.specs.Rooms.{LiesAt};
ghost use Rattle.hx_world.specs.Filing.{Files, IsFiled, IsSameLog, heard};
ghost use Rattle.hx_world.specs.Names.{AreAscending};
ghost use Rattle.hx_world.specs.Sessions.{HasTaken, IsSameSession};
ghost use Rattle.hx_world.specs.Turns.{IfMade, IsAdmitted, IsBarred, IsDecided};

use crate::admission::{makes_nothing, refuse_worn};
use crate::ends::DrainError;
use crate::lending::{Lent, forget, forget_change};
use crate::logs::{Log, append_delivery, append_entry, append_tick, reserve_entry, reserve_lists};
use crate::waiting::Queue;
use hx_session::Session;
use hx_trace::GrowingTrace;
use hx_types::{Actor, Input, PostId, SessionId};
use std::alloc::Global;

/// A session, and how many entries it has made.
pub struct CountedSession {
    pub session: Session,
    pub entries: u32,
}

impl Drop for CountedSession {
    fn drop(self) {
        let CountedSession {
            session: _,
            entries: _,
        } = self;
    }
}

/// The session takes an input, if the entry that it makes of it may be made, and tells whether it
/// made one. All memory is taken before anything changes.
pub fn session_takes(
    alloc: Global,
    counted: &mut CountedSession,
    log: &mut Log,
    input: Input,
) -> Result<bool, DrainError>
    requires can { CanTake counted.old.session.space counted.old.session.state input }
    requires may { MayTake (reverse log.old.trace) (an_actor.Session counted.old.session.state.id) input }
    requires ascending { AreAscending log.old.waiting.items }
    ensures decided { IsDecided (session_entry counted.old.session.space counted.old.session.state input) counted.old.entries result }
    ensures log { IfMade result (Files log.old log.new (session_entry counted.old.session.space counted.old.session.state input)) (IsSameLog log.old log.new) }
    ensures taken { IfMade result (HasTaken counted.old counted.new input) (IsSameSession counted.old counted.new) }
{
    let plan = counted.session.prepare(alloc, input)?;
    if makes_nothing(plan.entry()) {
        return Ok(false);
    }
    refuse_worn(plan.entry().actor, counted.entries)?;
    let trace = log.trace.growing();
    reserve_entry(trace, &mut log.waiting, plan.entry())?;
    let entry = counted.session.apply(plan);
    append_entry(trace, &mut log.waiting, entry);
    counted.entries += 1;
    Ok(true)
}

/// The session takes a post of the trace, by the place where it lies, if the entry that it makes of
/// it may be made. It hears the message there, and puts its posts and notes into the lists that it
/// is lent. All memory is taken before anything else changes.
#[inline(always)]
pub fn session_hears(
    alloc: Global,
    counted: &mut CountedSession,
    trace: &mut GrowingTrace,
    waiting: &mut Queue,
    lent: &mut Lent,
    id: PostId,
    at: usize,
) -> Result<(), DrainError>
    requires can { CanTake counted.old.session.space counted.old.session.state (heard id trace.old.entries) }
    requires may { MayTake (reverse trace.old.entries) (an_actor.Session counted.old.session.state.id) (heard id trace.old.entries) }
    requires lies { LiesAt trace.old id at }
    requires ascending { AreAscending waiting.old.items }
    ensures log { OnOk result (IsFiled trace.old.entries trace.new.entries waiting.old.items waiting.new.items (session_entry counted.old.session.space counted.old.session.state (heard id trace.old.entries))) }
    ensures taken { OnOk result (HasTaken counted.old counted.new (heard id trace.old.entries)) }
    ensures admitted { OnOk result (IsAdmitted (session_entry counted.old.session.space counted.old.session.state (heard id trace.old.entries)) counted.old.entries) }
    ensures barred { IfErr result (IsBarred (session_entry counted.old.session.space counted.old.session.state (heard id trace.old.entries)) counted.old.entries) }
    ensures same_trace { OnErr result (trace.new.entries ≡ trace.old.entries) }
    ensures same_waiting { OnErr result (waiting.new.items ≡ waiting.old.items) }
    ensures same { OnErr result (IsSameSession counted.old counted.new) }
{
    let post = trace.post(at);
    let actor = post.to;
    refuse_worn(actor, counted.entries)?;
    let heard = counted.session.hear(
        alloc,
        post.from,
        &post.message,
        &mut lent.posts,
        &mut lent.notes,
    );
    let Ok(change) = heard else {
        forget(&mut lent.posts, &mut lent.notes);
        return Err(DrainError::Memory);
    };
    if reserve_lists(trace, waiting, &lent.posts, &lent.notes).is_err() {
        forget_change(change, &mut lent.posts, &mut lent.notes);
        return Err(DrainError::Memory);
    }
    counted.session.make(change);
    append_delivery(
        trace,
        waiting,
        actor,
        id,
        at,
        &mut lent.posts,
        &mut lent.notes,
    );
    counted.entries += 1;
    Ok(())
}

/// The session has its own turn, if the entry that it makes of it may be made, and tells whether it
/// made one. It puts its posts and notes into the lists that it is lent. All memory is taken before
/// anything else changes.
pub fn session_ticks(
    alloc: Global,
    counted: &mut CountedSession,
    log: &mut Log,
    session: SessionId,
) -> Result<bool, DrainError>
    requires id { counted.old.session.state.id ≡ session }
    ensures decided { IsDecided (session_entry counted.old.session.space counted.old.session.state an_input.Tick) counted.old.entries result }
    ensures log { IfMade result (Files log.old log.new (session_entry counted.old.session.space counted.old.session.state an_input.Tick)) (IsSameLog log.old log.new) }
    ensures taken { IfMade result (HasTaken counted.old counted.new an_input.Tick) (IsSameSession counted.old counted.new) }
{
    let lent = &mut log.lent;
    let made = counted
        .session
        .tick(alloc, &mut lent.posts, &mut lent.notes);
    let Ok(change) = made else {
        forget(&mut lent.posts, &mut lent.notes);
        return Err(DrainError::Memory);
    };
    if lent.posts.is_empty() && lent.notes.is_empty() {
        return Ok(false);
    }
    let actor = Actor::Session(session);
    if let Err(worn) = refuse_worn(actor, counted.entries) {
        forget(&mut lent.posts, &mut lent.notes);
        return Err(worn);
    }
    let trace = log.trace.growing();
    if reserve_lists(trace, &mut log.waiting, &lent.posts, &lent.notes).is_err() {
        forget_change(change, &mut lent.posts, &mut lent.notes);
        return Err(DrainError::Memory);
    }
    counted.session.make(change);
    append_tick(
        trace,
        &mut log.waiting,
        actor,
        &mut lent.posts,
        &mut lent.notes,
    );
    counted.entries += 1;
    Ok(true)
}
