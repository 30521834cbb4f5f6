ghost use Rattle.std.specs.Prelude.{◌≡◌, OnOk, OnErr, IfErr, reverse};
ghost use Rattle.hx_types.specs.declared.ids.Actor.TheVariants as an_actor;
ghost use Rattle.hx_model.specs.Runs.{MayTake};
ghost use Rattle.hx_replica.specs.Servers.{CanTake, server_entry};
ghost use Rattle.hx_trace.specs.Rooms.{LiesAt};
ghost use Rattle.hx_world.specs.Filing.{Files, IsFiled, IsSameLog, heard};
ghost use Rattle.hx_world.specs.Names.{AreAscending};
ghost use Rattle.hx_world.specs.Servers.{HasTaken, IsSameServer};
ghost use Rattle.hx_world.specs.Turns.{IfMade, IsAdmitted, IsBarred, IsDecided};

use crate::admission::{makes_nothing, refuse_worn};
use crate::ends::DrainError;
use crate::lending::{Lent, forget, forget_change};
use crate::logs::{Log, append_delivery, append_entry, reserve_entry, reserve_lists};
use crate::waiting::Queue;
use hx_replica::Server;
use hx_trace::GrowingTrace;
use hx_types::{Input, PostId};
use std::alloc::Global;

/// A server, and how many entries it has made.
pub struct CountedServer {
    pub server: Server,
    pub entries: u32,
}

impl Drop for CountedServer {
    fn drop(self) {
        let CountedServer {
            server: _,
            entries: _,
        } = self;
    }
}

/// The server takes an input, if the entry that it makes of it may be made, and tells whether it
/// made one. All memory is taken before anything changes.
pub fn server_takes(
    alloc: Global,
    counted: &mut CountedServer,
    log: &mut Log,
    input: Input,
) -> Result<bool, DrainError>
    requires can { CanTake counted.old.server.space counted.old.server.state input }
    requires may { MayTake (reverse log.old.trace) (an_actor.Server counted.old.server.state.id) input }
    requires ascending { AreAscending log.old.waiting.items }
    ensures decided { IsDecided (server_entry counted.old.server.space counted.old.server.state input) counted.old.entries result }
    ensures log { IfMade result (Files log.old log.new (server_entry counted.old.server.space counted.old.server.state input)) (IsSameLog log.old log.new) }
    ensures taken { IfMade result (HasTaken counted.old counted.new input) (IsSameServer counted.old counted.new) }
{
    let plan = counted.server.prepare(alloc, input)?;
    if makes_nothing(plan.entry()) {
        return Ok(false);
    }
    refuse_worn(plan.entry().actor, counted.entries)?;
    let trace = log.trace.growing();
    reserve_entry(trace, &mut log.waiting, plan.entry())?;
    let entry = counted.server.apply(plan);
    append_entry(trace, &mut log.waiting, entry);
    counted.entries += 1;
    Ok(true)
}

/// The server takes a post of the trace, by the place where it lies, if the entry that it makes of
/// it may be made. It hears the message there, and puts its posts and notes into the lists that it
/// is lent. All memory is taken before anything else changes.
#[inline(always)]
pub fn server_hears(
    alloc: Global,
    counted: &mut CountedServer,
    trace: &mut GrowingTrace,
    waiting: &mut Queue,
    lent: &mut Lent,
    id: PostId,
    at: usize,
) -> Result<(), DrainError>
    requires can { CanTake counted.old.server.space counted.old.server.state (heard id trace.old.entries) }
    requires may { MayTake (reverse trace.old.entries) (an_actor.Server counted.old.server.state.id) (heard id trace.old.entries) }
    requires lies { LiesAt trace.old id at }
    requires ascending { AreAscending waiting.old.items }
    ensures log { OnOk result (IsFiled trace.old.entries trace.new.entries waiting.old.items waiting.new.items (server_entry counted.old.server.space counted.old.server.state (heard id trace.old.entries))) }
    ensures taken { OnOk result (HasTaken counted.old counted.new (heard id trace.old.entries)) }
    ensures admitted { OnOk result (IsAdmitted (server_entry counted.old.server.space counted.old.server.state (heard id trace.old.entries)) counted.old.entries) }
    ensures barred { IfErr result (IsBarred (server_entry counted.old.server.space counted.old.server.state (heard id trace.old.entries)) counted.old.entries) }
    ensures same_trace { OnErr result (trace.new.entries ≡ trace.old.entries) }
    ensures same_waiting { OnErr result (waiting.new.items ≡ waiting.old.items) }
    ensures same { OnErr result (IsSameServer counted.old counted.new) }
{
    let post = trace.post(at);
    let actor = post.to;
    refuse_worn(actor, counted.entries)?;
    let heard = counted.server.hear(
        alloc,
        post.from,
        &post.message,
        &mut lent.posts,
        &mut lent.notes,
    );
    let Ok(change) = heard else {
        forget(&mut lent.posts, &mut lent.notes);
        return Err(DrainError::Memory);
    };
    if reserve_lists(trace, waiting, &lent.posts, &lent.notes).is_err() {
        forget_change(change, &mut lent.posts, &mut lent.notes);
        return Err(DrainError::Memory);
    }
    counted.server.make(change);
    append_delivery(
        trace,
        waiting,
        actor,
        id,
        at,
        &mut lent.posts,
        &mut lent.notes,
    );
    counted.entries += 1;
    Ok(())
}
