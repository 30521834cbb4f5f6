ghost use Rattle.std.specs.Prelude.{◌≡◌, ◌↔◌, ◌+◌, ℕ, [], IfErr, IfOk, IsErrOf, None, Ok, OnOk, Some, length, true};
ghost use Rattle.hx_model.specs.Types.{Actor};
ghost use Rattle.hx_types.specs.declared.ids.Actor.TheVariants as an_actor;
ghost use Rattle.hx_types.specs.Fitting.{IsScript, calls_of};
ghost use Rattle.hx_model.specs.Runs.{is_actor};
ghost use Rattle.hx_model.specs.Schedule.{IsQuiet};
ghost use Rattle.hx_law_growing.specs.Growing.{GrowsTo};
ghost use Rattle.hx_world.specs.Worlds.{Fails, IsWornOut};
ghost use Rattle.hx_service.specs.declared.receipts.Receipt.{Receipt};
ghost use Rattle.hx_service.specs.Laws.{FreeSessionsRest};
ghost use Rattle.hx_service.specs.Receipts.{IsReceiptOf, next_caller};
ghost use Rattle.hx_service.specs.Rosters.{HasNone, Nexts};
ghost use Rattle.hx_service.specs.Services.{Grows, emptied, newest};

use crate::errors::ServiceError;
use crate::planned::make_next;
use crate::receipts::Receipt;
use crate::services::Service;
use hx_types::{Exact, Memory, Script, SessionId};
use hx_world::DrainError;
use std::alloc::Global;
use std::marker::{Brand, Model, PhantomData};

/// Names one script: what stands under a lock is known by its type alone, so the type names the
/// script.
pub trait Charter {
    ghost use Rattle.hx_types.specs.declared.traces.Script.{Script};

    ghost script: { Script };
}

impl Charter for Brand {
    ghost use Rattle.std.specs.Prelude.{[]};

    ghost script = { record { space = record { name = []; key_name = []; key_parts = 0; attributes = []; subspaces = []; servers = 0; tolerate = 0 }; sessions = []; steps = [] } };
}

/// A service that makes the calls of a plan: the script that its type names. Contracts see the
/// service. The calls that were submitted for each session are the first that the plan has for it.
#[derive(Drop)]
pub struct Roster<C: Charter> {
    service: Service,
    plan: Script,
    of: PhantomData<C>,
}

impl<C: Charter> Model for Roster<C> {
    ghost use Rattle.std.specs.Prelude.{◌≡◌};
    ghost use Rattle.hx_service.specs.Rosters.{Follows};
    ghost use Rattle.hx_service.specs.Services.{ServiceState};

    ghost Value = { ServiceState };

    ghost view = { λ r. r.service };

    ghost invariant = { λ r. (r.plan ≡ C.script) × Follows C.script r.service.script };
}

impl<C: Charter> Roster<C> {
    /// A service without calls, for the plan.
    ///
    /// # Errors
    ///
    /// [`Memory`] alone.
    pub fn new(alloc: Global, script: &Script) -> Result<Roster<C>, Memory>
        requires valid { IsScript script.now }
        requires plan { script.now ≡ C.script }
        ensures { IfOk result (λ roster. roster ≡ record { script = emptied script.now; trace = [] }) }
    {
        let service = Service::start(alloc, script)?;
        let plan = script.copy(alloc)?;
        Ok(Roster {
            service,
            plan,
            of: PhantomData,
        })
    }

    /// The service: its calls are the first of the plan's.
    pub fn service(&self) -> &Service
        ensures same { result.now ≡ self.now }
        ensures grows { GrowsTo self.now.script C.script }
        ensures rest { FreeSessionsRest }
    {
        crate::laws::free_sessions_are_at_rest();
        &self.service
    }

    /// The service by itself.
    pub fn into_service(self) -> Service
        ensures same { result ≡ self }
        ensures grows { GrowsTo result.script C.script }
    {
        let Roster {
            service,
            plan: _,
            of: _,
        } = self;
        service
    }

    /// Makes the next call that the plan has for a session. `None` exactly where none is left, or a
    /// call of the session hasn't ended; then nothing changes.
    ///
    /// # Errors
    ///
    /// Those of [`Service::call`] but for `Full`: no plan has more calls than a service takes.
    pub fn next(
        &mut self,
        alloc: Global,
        session: SessionId,
    ) -> Result<Option<Receipt>, ServiceError>
        requires { is_actor C.script (an_actor.Session session) ≡ true }
        ensures nexts { Nexts C.script self.old session self.new result }
        ensures none { (result ≡ Ok None) ↔ HasNone C.script self.old session }
        ensures same { result ≡ Ok None → self.new ≡ self.old }
        ensures made { (r : Receipt) → result ≡ Ok (Some r) → IsReceiptOf (newest self.new) r × (r.caller ≡ next_caller self.old.script session)
            × (length (calls_of self.new.script session) ≡ length (calls_of self.old.script session) + 1) }
        ensures unanswered { (n : ℕ) → IsErrOf result (ServiceError.Unanswered n) → IsQuiet self.new.script (newest self.new)
            × (length (calls_of self.new.script session) ≡ length (calls_of self.old.script session) + 1) }
        ensures worn { (a : Actor) → IsErrOf result (ServiceError.Worn a) → IsWornOut self.new.script (newest self.new) a }
        ensures not_full { ¬ IsErrOf result ServiceError.Full }
        ensures grows { Grows self.old self.new }
    {
        make_next(alloc, &mut self.service, &self.plan, session)
    }

    /// Makes entries until nothing is left to do, as [`Service::settle`] does.
    ///
    /// # Errors
    ///
    /// Those of [`Service::settle`]: want of memory, or an actor that makes no more. What was made
    /// stays.
    pub fn settle(&mut self, alloc: Global) -> Result<(), DrainError>
        ensures script { self.new.script ≡ self.old.script }
        ensures quiet { OnOk result (IsQuiet self.new.script (newest self.new)) }
        ensures fails { IfErr result (Fails self.new.script (newest self.new)) }
        ensures grows { Grows self.old self.new }
    {
        self.service.settle(alloc)
    }
}
