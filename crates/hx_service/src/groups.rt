ghost use Rattle.std.specs.Prelude.{◌≡◌, ◌<◌, IfErr, IfOk, length, true};
ghost use Rattle.hx_types.specs.declared.ids.Actor.TheVariants as an_actor;
ghost use Rattle.hx_types.specs.Spaces.{AssignsFit, TermsFit};
ghost use Rattle.hx_model.specs.Runs.{is_actor};
ghost use Rattle.hx_service.specs.Groups.{IsGrouped, IsStopped};
ghost use Rattle.hx_service.specs.Receipts.{IsFree};
ghost use Rattle.hx_service.specs.Services.{Grows, newest};

use crate::errors::ServiceError;
use crate::putting::{Grouped, put_rows};
use crate::services::Service;
use hx_types::{Answer, Assigns, Exact, Op, SessionId, Terms};
use std::alloc::Global;

impl Service {
    /// Searches, and then makes for each row in order a conditional put of these assignments, whose
    /// tests are all that the row's object has: so an object is written only while it is what the
    /// search found. The puts that are answered done are counted, and all others. A search that is
    /// refused has no rows.
    ///
    /// # Errors
    ///
    /// Those of [`Service::call`], of the first call that has no receipt: none is made after it.
    /// What was done stays, and has its receipts. [`ServiceError::Full`] may come in the midst.
    pub fn group(
        &mut self,
        alloc: Global,
        session: SessionId,
        terms: &Terms,
        sets: &Assigns,
    ) -> Result<Grouped, ServiceError>
        requires session { is_actor self.old.script (an_actor.Session session) ≡ true }
        requires terms { TermsFit self.old.script.space terms.now }
        requires sets { AssignsFit self.old.script.space sets.now }
        requires some { 0 < length sets.now }
        requires free { IsFree self.old.script (newest self.old) session }
        ensures grouped { IfOk result (IsGrouped self.old session terms.now sets.now self.new) }
        ensures stopped { IfErr result (IsStopped self.old session terms.now sets.now self.new) }
        ensures grows { Grows self.old self.new }
    {
        let Ok(terms) = terms.copy(alloc) else {
            return Err(ServiceError::Memory);
        };
        let found = match self.call(alloc, session, Op::Search { terms }) {
            Ok(found) => found,
            Err(error) => return Err(error),
        };
        let _ = self.trace();
        match &found.answer {
            Answer::Rows(rows) => put_rows(alloc, self, session, rows.as_slice(), sets),
            _ => Ok(Grouped { done: 0, left: 0 }),
        }
    }
}
