ghost use Rattle.std.specs.Prelude.{◌≡◌, ◌∷◌, [], Some, IfOk};
ghost use Rattle.hx_model.specs.CoordinatorSteps.{outcome};
ghost use Rattle.hx_coord.specs.Changes.{numbered, told};

use crate::agendas::{Agenda, record_number};
use crate::posting::tell_outcome;
use hx_types::{Answer, Caller, Config, Memory, Notes, Posts, Shared};
use std::alloc::Global;

/// What a step posts, notes and changes. There is a configuration where one is issued.
#[derive(Drop)]
pub struct StepOutput {
    pub posts: Posts,
    pub notes: Notes,
    pub config: Option<Shared<Config>>,
    pub agenda: Agenda,
}

/// Nothing is posted or noted. It takes no memory.
pub fn no_output(alloc: Global, agenda: Agenda) -> StepOutput
    ensures { result ≡ told agenda [] }
{
    posting(alloc, agenda, Posts::new(alloc))
}

/// These posts are made, and nothing is noted. It takes no memory.
pub fn posting(alloc: Global, agenda: Agenda, posts: Posts) -> StepOutput
    ensures { result ≡ told agenda posts }
{
    StepOutput {
        posts,
        notes: Notes::new(alloc),
        config: None,
        agenda,
    }
}

/// A new call is answered at once.
pub fn answer(
    alloc: Global,
    agenda: Agenda,
    caller: Caller,
    answer: Answer,
) -> Result<StepOutput, Memory>
    ensures { IfOk result (λ made. made ≡ told (numbered agenda caller (Some answer)) (outcome caller answer ∷ [])) }
{
    let mut agenda = agenda;
    let posts = outcome(alloc, caller, &answer)?;
    record_number(&mut agenda, caller, Some(answer))?;
    Ok(posting(alloc, agenda, posts))
}

/// The post that tells a call's answer, alone.
pub fn outcome(alloc: Global, caller: Caller, answer: &Answer) -> Result<Posts, Memory>
    ensures { IfOk result (λ posts. posts ≡ outcome caller answer.now ∷ []) }
{
    let mut posts = Posts::new(alloc);
    tell_outcome(alloc, &mut posts, caller, answer)?;
    Ok(posts)
}
