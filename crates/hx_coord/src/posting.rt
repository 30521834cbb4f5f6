ghost use Rattle.std.specs.Prelude.{◌≡◌, ◌++◌, ◌∷◌, [], map, OnOk, IfOk};
ghost use Rattle.hx_types.specs.declared.messages.Message.TheVariants as a_message;
ghost use Rattle.hx_model.specs.CoordinatorSteps.{outcome, session_posts, to_server};
ghost use Rattle.hx_coord.specs.Outcomes.{outcomes};

use crate::issuing::Answered;
use hx_types::{
    Actor, Answer, Caller, Config, Exact, Memory, Message, Post, Posts, ServerId, SessionId, Shared,
};
use std::alloc::Global;

/// One more post: a server hears a message of the coordinator.
pub fn tell_server(posts: &mut Posts, server: ServerId, message: Message) -> Result<(), Memory>
    ensures { OnOk result (posts.new ≡ posts.old ++ to_server message server ∷ []) }
{
    posts.push(Post {
        from: Actor::Coordinator,
        to: Actor::Server(server),
        message,
    })
}

/// One more post: a session hears its call's answer.
pub fn tell_outcome(
    alloc: Global,
    posts: &mut Posts,
    caller: Caller,
    answer: &Answer,
) -> Result<(), Memory>
    ensures { OnOk result (posts.new ≡ posts.old ++ outcome caller answer.now ∷ []) }
{
    posts.push(Post {
        from: Actor::Coordinator,
        to: Actor::Session(caller.session),
        message: Message::Outcome {
            number: caller.number,
            answer: answer.copy(alloc)?,
        },
    })
}

/// Each server of a configuration hears it, and then each session.
pub fn installs(alloc: Global, config: &Shared<Config>, sessions: u32) -> Result<Posts, Memory>
    ensures { IfOk result (λ posts. posts ≡ map (to_server (a_message.Install config.now)) config.now.servers ++ session_posts sessions (a_message.Install config.now)) }
{
    let mut posts = Posts::new(alloc);
    for server in config.servers.as_slice() {
        let config = config.copy(alloc)?;
        tell_server(&mut posts, *server, Message::Install { config })?;
    }
    install_sessions(alloc, &mut posts, config, sessions)?;
    Ok(posts)
}

#[tactic(auto, using(hx_types::proofs::Counting::map_below_next))]
fn install_sessions(
    alloc: Global,
    posts: &mut Posts,
    config: &Shared<Config>,
    sessions: u32,
) -> Result<(), Memory>
    ensures { OnOk result (posts.new ≡ posts.old ++ session_posts sessions (a_message.Install config.now)) }
{
    for place in 0..sessions {
        let config = config.copy(alloc)?;
        posts.push(Post {
            from: Actor::Coordinator,
            to: Actor::Session(SessionId(place + 1)),
            message: Message::Install { config },
        })?;
    }
    Ok(())
}

/// Each caller hears its answer.
pub fn tell_outcomes(alloc: Global, posts: &mut Posts, answered: &[Answered]) -> Result<(), Memory>
    ensures { OnOk result (posts.new ≡ posts.old ++ outcomes answered.now) }
{
    for each in answered {
        tell_outcome(alloc, posts, each.caller, &each.answer)?;
    }
    Ok(())
}
