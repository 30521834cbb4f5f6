ghost use Rattle.std.specs.Prelude.{◌≡◌, ℕ, ◌+◌, IfOk};
ghost use Rattle.hx_model.specs.Types.{Space as SpaceSeen};
ghost use Rattle.hx_types.specs.Spaces.{IsSpace};
ghost use Rattle.hx_model.specs.CoordinatorSteps.{coordinator_at_start, coordinator_step};
ghost use Rattle.hx_coord.specs.Changes.{IsOutputOf, IsPlanOn};
ghost use Rattle.hx_coord.specs.Coordinators.{CanTake, CoordinatorUpTo, IsCoordinatorOf, IsInputOf, known_to};
ghost use Rattle.hx_types.specs.Posted.{ArePostsOf, NameOnly, PostsUpTo};

use crate::agendas::Agenda;
use crate::hearing::hear;
use crate::outputs::StepOutput;
use crate::prepared::{Plan, put_config};
use crate::turns::tick;
use hx_rules::first_shared_config;
use hx_types::{Actor, Config, Entry, Exact, Input, Memory, Shared, Space};
use std::alloc::Global;
use std::marker::Model;

/// The coordinator, which issues the numbered configurations of a space, as HyperDex's does.
/// Contracts see it as its state in the definitions.
pub struct Coordinator {
    config: Shared<Config>,
    agenda: Agenda,
}

/// The parts are let go here alone: who drops a coordinator has nothing to prove of them.
impl Drop for Coordinator {
    fn drop(self) {
        let Coordinator {
            config: _,
            agenda: _,
        } = self;
    }
}

impl Model for Coordinator {
    ghost use Rattle.hx_model.specs.CoordinatorSteps.{CoordinatorState};

    ghost Value = { CoordinatorState };

    ghost use Rattle.hx_coord.specs.Invariant.{value_of};

    ghost view = { value_of };
}

impl Coordinator {
    /// The coordinator of a space and a number of sessions at the start: in the configuration of
    /// epoch 1, with nothing to be done. It fails with [`Memory`] alone.
    pub fn start(alloc: Global, space: &Space, sessions: u32) -> Result<Coordinator, Memory>
        requires { IsSpace space.now }
        ensures state { IfOk result (λ coordinator. coordinator ≡ coordinator_at_start space.now sessions) }
        ensures of_space { IfOk result (IsCoordinatorOf space.now) }
    {
        let config = first_shared_config(alloc, space)?;
        Ok(Coordinator {
            config,
            agenda: Agenda::new(alloc, sessions),
        })
    }

    /// Computes the step that this input makes, and takes all memory that it needs. Nothing
    /// changes. The posts of its entry are of each space of which the coordinator and the input
    /// are, name only the coordinator and actors that it or the input names, and have epochs at
    /// most 1 above the greatest that it keeps. On an error, which is [`Memory`] alone, the input
    /// is dropped.
    #[inline(never)]
    pub fn prepare(&mut self, alloc: Global, input: Input) -> Result<Plan, Memory>
        requires { CanTake self.old input }
        ensures plan { IfOk result (IsPlanOn self.new) }
        ensures input { IfOk result (λ plan. plan.entry.input ≡ input) }
        ensures of_space { IfOk result (λ plan. (space : SpaceSeen) → IsCoordinatorOf space self.old → IsInputOf space self.old.sessions input → ArePostsOf space plan.entry.outputs) }
        ensures named { IfOk result (λ plan. NameOnly (known_to self.old input) plan.entry.outputs) }
        ensures small { IfOk result (λ plan. (most : ℕ) → CoordinatorUpTo most self.old → PostsUpTo (most + 1) plan.entry.outputs) }
        ensures state { self.new ≡ self.old }
    {
        let Ok(output) = self.output_on(alloc, &input) else {
            return Err(Memory);
        };
        let entry = Entry {
            actor: Actor::Coordinator,
            input,
            outputs: output.posts,
            notes: output.notes,
        };
        Ok(Plan {
            entry,
            config: output.config,
            agenda: output.agenda,
        })
    }

    /// Makes a prepared step, and gives its entry. It takes no memory. What the coordinator keeps
    /// stays of its space.
    pub fn apply(&mut self, plan: Plan) -> Entry
        requires { IsPlanOn self.old plan }
        ensures entry { result ≡ plan.entry }
        ensures state { self.new ≡ (coordinator_step self.old plan.entry.input).state }
        ensures of_space { (space : SpaceSeen) → IsCoordinatorOf space self.old → IsInputOf space self.old.sessions plan.entry.input → IsCoordinatorOf space self.new }
    {
        let Plan {
            entry,
            config,
            agenda,
        } = plan;
        put_config(&mut self.config, config);
        self.agenda = agenda;
        entry
    }

    /// The newest configuration.
    pub fn config(&self) -> &Config
        ensures { result.now ≡ self.now.config }
    {
        &self.config
    }

    /// What the step on an input makes.
    fn output_on(&self, alloc: Global, input: &Input) -> Result<StepOutput, Memory>
        requires { CanTake self.now input.now }
        ensures { IfOk result (IsOutputOf self.now.config (coordinator_step self.now input.now)) }
    {
        let agenda = self.agenda.copy(alloc)?;
        match input {
            Input::Tick => tick(alloc, &self.config, agenda),
            Input::Deliver { from, message, .. } => {
                hear(alloc, &self.config, agenda, *from, message)
            }
            // Servers alone halt.
            Input::Halt => unreachable!(),
        }
    }
}
