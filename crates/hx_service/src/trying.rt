ghost use Rattle.std.specs.Prelude.{◌≡◌};
ghost use Rattle.hx_types.specs.declared.ids.Actor.TheVariants as an_actor;
ghost use Rattle.hx_model.specs.Runs.{is_actor};
ghost use Rattle.hx_service.specs.Trying.{Asks, Tries};

use crate::errors::ServiceError;
use crate::receipts::Receipt;
use crate::services::Service;
use hx_rules::fits;
use hx_script::{Reason, ScriptError, read_op};
use hx_types::{Actor, Op, Script, SessionId};
use std::alloc::Global;

/// Why a call has no receipt, where the caller needs to know nothing: the first reason that holds.
#[derive(Clone, Copy)]
pub enum CallError {
    /// The service has no such session. Nothing changes.
    NoSession,
    /// The operation doesn't belong to the space. Nothing changes.
    Misfit,
    /// A call of the session hasn't ended. Nothing changes.
    Busy,
    /// As [`ServiceError::Memory`].
    Memory,
    /// As [`ServiceError::Full`].
    Full,
    /// As [`ServiceError::Worn`].
    Worn(Actor),
    /// As [`ServiceError::Unanswered`].
    Unanswered { number: u32 },
}

/// Why a line has no receipt.
#[derive(Clone, Copy)]
pub enum TextError {
    /// The line is no call of a session of the space, for the reason that the script language
    /// gives. Nothing changes.
    Unread(Reason),
    /// The call has no receipt, or there was no memory to read it.
    Refused(CallError),
}

/// Whether the script has the session.
fn has_session(script: &Script, session: SessionId) -> bool
    ensures { result ≡ is_actor script.now (an_actor.Session session) }
{
    0 < session.0 && session.0 as usize <= script.sessions.len()
}

impl Service {
    /// Makes a call as [`Service::call`] does, whatever the session and the operation: who holds a
    /// lock on a service can know neither that a session is free nor how many calls were made.
    ///
    /// # Errors
    ///
    /// Each exactly where it is the first that holds, `Memory` aside.
    pub fn try_call(
        &mut self,
        alloc: Global,
        session: SessionId,
        op: Op,
    ) -> Result<Receipt, CallError>
        ensures { Tries self.old session op self.new result }
    {
        if !has_session(self.script(), session) {
            return Err(CallError::NoSession);
        }
        if !fits(&self.script().space, &op) {
            return Err(CallError::Misfit);
        }
        if !self.free(session) {
            return Err(CallError::Busy);
        }
        match self.call(alloc, session, op) {
            Ok(receipt) => Ok(receipt),
            Err(ServiceError::Memory) => Err(CallError::Memory),
            Err(ServiceError::Full) => Err(CallError::Full),
            Err(ServiceError::Worn(actor)) => Err(CallError::Worn(actor)),
            Err(ServiceError::Unanswered { number }) => Err(CallError::Unanswered { number }),
        }
    }

    /// Makes the call that a line of the script language says, as `put "a" genre="b"`.
    ///
    /// # Errors
    ///
    /// `Unread` exactly where the line is no call of a session of the space, `Memory` aside; else
    /// as [`Service::try_call`].
    pub fn call_text(
        &mut self,
        alloc: Global,
        session: SessionId,
        line: &[u8],
    ) -> Result<Receipt, TextError>
        ensures { Asks self.old session line.now self.new result }
    {
        let op = match read_op(alloc, &self.script().space, line) {
            Ok(op) => op,
            Err(ScriptError::Memory) => return Err(TextError::Refused(CallError::Memory)),
            Err(ScriptError::Refused { reason, .. }) => return Err(TextError::Unread(reason)),
        };
        match self.try_call(alloc, session, op) {
            Ok(receipt) => Ok(receipt),
            Err(error) => Err(TextError::Refused(error)),
        }
    }
}
