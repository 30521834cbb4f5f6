ghost use Rattle.std.specs.Prelude.{◌≡◌, true, [], ◌∷◌, ◌++◌, List, IfOk, OnOk};
ghost use Rattle.hx_model.specs.Types.{Actor as ActorSeen, Entry as EntrySeen, Input as InputSeen, Script as ScriptSeen};
ghost use Rattle.hx_types.specs.Fitting.{IsScript};
ghost use Rattle.hx_model.specs.Runs.{entry_of, has_halted, is_actor, made_of};
ghost use Rattle.hx_clock.specs.declared.parts.Stamped.{Stamped};
ghost use Rattle.hx_law_threads.specs.Feeding.{entries_in};
ghost use Rattle.hx_law_threads.specs.Cuts.{is_idle_actor};
ghost use Rattle.hx_machine.specs.Machines.{CanTake, IsChangeOf, IsMachine, has_ended};

use crate::changes::Change;
use crate::steps::{coordinator_makes, coordinator_steps, server_steps, session_steps};
use hx_coord::Coordinator;
use hx_replica::Server;
use hx_session::Session;
use hx_types::{Actor, Exact, Input, Memory, Notes, Posts, Script};
use std::alloc::Global;

/// An actor of any role with its state.
pub enum Machine {
    Coordinator(Coordinator),
    Server(Server),
    Session(Session),
}

impl Drop for Machine {
    fn drop(self) {
        match self {
            Self::Coordinator(_) => {}
            Self::Server(_) => {}
            Self::Session(_) => {}
        }
    }
}

impl Machine {
    /// An actor of a script before its first entry. It fails with [`Memory`] alone.
    pub fn start(alloc: Global, script: &Script, actor: Actor) -> Result<Machine, Memory>
        requires script { IsScript script.now }
        requires actor { is_actor script.now actor ≡ true }
        ensures { IfOk result (IsMachine script.now actor []) }
    {
        match actor {
            Actor::Coordinator => {
                let sessions = script.sessions.len() as u32;
                let coordinator = Coordinator::start(alloc, &script.space, sessions)?;
                Ok(Machine::Coordinator(coordinator))
            }
            Actor::Server(server) => {
                let server = Server::start(alloc, &script.space, server)?;
                Ok(Machine::Server(server))
            }
            Actor::Session(session) => {
                let calls = script.sessions.as_slice()[session.0 as usize - 1].copy(alloc)?;
                let session = Session::start(alloc, &script.space, session, calls)?;
                Ok(Machine::Session(session))
            }
        }
    }

    /// Computes the step that this input makes: what it posts and notes goes behind what the lists
    /// hold, and what it changes is given, for [`Machine::make`]. The actor stays as it was. After
    /// an error, which is [`Memory`] alone, the lists may hold anything.
    #[inline]
    pub fn step(
        &mut self,
        alloc: Global,
        input: &Input,
        posts: &mut Posts,
        notes: &mut Notes,
    ) -> Result<Change, Memory>
        requires { (script : ScriptSeen) × (a : ActorSeen) × (past : List Stamped) × IsMachine script a (entries_in past) self.old × CanTake script a past input.now }
        ensures posts { OnOk result ((script : ScriptSeen) (a : ActorSeen) (past : List Stamped) → IsMachine script a (entries_in past) self.old → CanTake script a past input.now → posts.new ≡ posts.old ++ (made_of script (entries_in past) a input.now).posts) }
        ensures notes { OnOk result ((script : ScriptSeen) (a : ActorSeen) (past : List Stamped) → IsMachine script a (entries_in past) self.old → CanTake script a past input.now → notes.new ≡ notes.old ++ (made_of script (entries_in past) a input.now).notes) }
        ensures change { IfOk result (λ change. (script : ScriptSeen) (a : ActorSeen) (past : List Stamped) → IsMachine script a (entries_in past) self.old → CanTake script a past input.now → IsChangeOf script a (entries_in past) input.now self.new change) }
        ensures state { (script : ScriptSeen) (a : ActorSeen) (past : List EntrySeen) → IsMachine script a past self.old → IsMachine script a past self.new }
    {
        match self {
            Machine::Coordinator(coordinator) => {
                let Ok(plan) = coordinator_steps(coordinator, alloc, input, posts, notes) else {
                    return Err(Memory);
                };
                Ok(Change::Coordinator(plan))
            }
            Machine::Server(server) => {
                let Ok(change) = server_steps(server, alloc, input, posts, notes) else {
                    return Err(Memory);
                };
                Ok(Change::Server(change))
            }
            Machine::Session(session) => {
                let Ok(change) = session_steps(session, alloc, input, posts, notes) else {
                    return Err(Memory);
                };
                Ok(Change::Session(change))
            }
        }
    }

    /// Makes what a step changes, as it was computed of this actor. It takes no memory.
    #[inline]
    pub fn make(&mut self, change: Change)
        requires { (script : ScriptSeen) × (a : ActorSeen) × (past : List Stamped) × (input : InputSeen) × IsMachine script a (entries_in past) self.old × CanTake script a past input × IsChangeOf script a (entries_in past) input self.old change }
        ensures { (script : ScriptSeen) (a : ActorSeen) (past : List Stamped) (input : InputSeen) → IsMachine script a (entries_in past) self.old → CanTake script a past input → IsChangeOf script a (entries_in past) input self.old change → IsMachine script a (entry_of a input (made_of script (entries_in past) a input) ∷ entries_in past) self.new }
    {
        match (self, change) {
            (Machine::Coordinator(coordinator), Change::Coordinator(plan)) => coordinator_makes(
                coordinator,
                plan,
            ),
            (Machine::Server(server), Change::Server(change)) => server.make(change),
            (Machine::Session(session), Change::Session(change)) => session.make(change),
            // A change is one of its actor's role.
            _ => unreachable!(),
        }
    }

    /// Whether the actor has halted. Only servers do.
    pub fn halted(&self) -> bool
        ensures { (script : ScriptSeen) (a : ActorSeen) (past : List EntrySeen) → IsMachine script a past self.now → result ≡ has_halted script past a }
    {
        match self {
            Machine::Server(server) => server.halted(),
            _ => false,
        }
    }

    /// Whether the actor is a session with a call left and none under way.
    pub fn idle(&self) -> bool
        ensures { (script : ScriptSeen) (a : ActorSeen) (past : List EntrySeen) → IsMachine script a past self.now → result ≡ is_idle_actor script past a }
    {
        match self {
            Machine::Session(session) => session.idle(),
            _ => false,
        }
    }

    /// Whether the actor is no session with a call left or under way.
    pub fn ended(&self) -> bool
        ensures { (script : ScriptSeen) (a : ActorSeen) (past : List EntrySeen) → IsMachine script a past self.now → result ≡ has_ended script past a }
    {
        match self {
            Machine::Session(session) => session.ended(),
            _ => true,
        }
    }
}
