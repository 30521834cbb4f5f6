ghost use Rattle.std.specs.Prelude.{◌≡◌, IsErrOf, true};
ghost use Rattle.hx_types.specs.declared.ids.Actor.TheVariants as an_actor;
ghost use Rattle.hx_model.specs.Runs.{is_actor};
ghost use Rattle.hx_service.specs.Rosters.{Follows, Nexts};
ghost use Rattle.hx_service.specs.Services.{Grows};

use crate::errors::ServiceError;
use crate::receipts::Receipt;
use crate::services::Service;
use hx_types::{Caller, Exact, Script, SessionId};
use std::alloc::Global;

/// Makes the next call that the plan has for a session, if there is one and the session is free.
pub fn make_next(
    alloc: Global,
    service: &mut Service,
    plan: &Script,
    session: SessionId,
) -> Result<Option<Receipt>, ServiceError>
    requires follows { Follows plan.now service.old.script }
    requires session { is_actor plan.now (an_actor.Session session) ≡ true }
    ensures follows { Follows plan.now service.new.script }
    ensures nexts { Nexts plan.now service.old session service.new result }
    ensures not_full { ¬ IsErrOf result ServiceError.Full }
    ensures grows { Grows service.old service.new }
{
    if !service.free(session) {
        return Ok(None);
    }
    let made = service.script().calls(session).len();
    let caller = Caller {
        session,
        number: made as u32 + 1,
    };
    let Some(op) = plan.call(caller) else {
        return Ok(None);
    };
    let Ok(op) = op.copy(alloc) else {
        return Err(ServiceError::Memory);
    };
    match service.call(alloc, session, op) {
        Ok(receipt) => Ok(Some(receipt)),
        Err(error) => Err(error),
    }
}
