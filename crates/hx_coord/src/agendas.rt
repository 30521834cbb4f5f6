ghost use Rattle.std.specs.Prelude.{◌≡◌, OnOk};
ghost use Rattle.hx_coord.specs.Changes.{empty_agenda, numbered, to_do};

use crate::numbers::{Newest, NewestList, put_newest};
use crate::stops::{Stop, Stops};
use hx_types::{Answer, Caller, Exact, Memory, ServerId};
use std::alloc::Global;

/// All that a coordinator keeps beside its configuration.
#[derive(Clone)]
pub struct Agenda {
    /// How many sessions there are.
    pub sessions: u32,
    pub todo: Stops,
    pub newest: NewestList,
}

impl Drop for Agenda {
    fn drop(self) {
        let Agenda {
            sessions: _,
            todo: _,
            newest: _,
        } = self;
    }
}

impl Agenda {
    /// Nothing is to be done. It takes no memory.
    pub fn new(alloc: Global, sessions: u32) -> Agenda
        ensures { result ≡ empty_agenda sessions }
    {
        Agenda {
            sessions,
            todo: Stops::new(alloc),
            newest: NewestList::new(alloc),
        }
    }
}

/// The call's number is its session's newest, with its answer if there is one.
pub fn record_number(
    agenda: &mut Agenda,
    caller: Caller,
    answer: Option<Answer>,
) -> Result<(), Memory>
    ensures { OnOk result (agenda.new ≡ numbered agenda.old caller answer) }
{
    put_newest(
        &mut agenda.newest,
        Newest {
            session: caller.session,
            number: caller.number,
            answer,
        },
    )
}

/// A new stop is to be done.
pub fn put_stop(agenda: &mut Agenda, caller: Caller, server: ServerId) -> Result<(), Memory>
    ensures { OnOk result (agenda.new ≡ to_do agenda.old caller server) }
{
    record_number(agenda, caller, None)?;
    agenda.todo.push(Stop { caller, server })
}

impl Exact for Agenda {
    ghost use Rattle.std.proofs.Common.{rules};

    ghost exact = { Prim.search rules };
}
