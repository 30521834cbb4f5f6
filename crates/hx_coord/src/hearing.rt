ghost use Rattle.std.specs.Prelude.{◌≡◌, ◌≤◌, ◌∷◌, [], IfOk};
ghost use Rattle.hx_types.specs.declared.messages.Message.TheVariants as a_message;
ghost use Rattle.hx_model.specs.Types.{Coordinator, Server};
ghost use Rattle.hx_types.specs.Words.{post};
ghost use Rattle.hx_types.specs.declared.limits.TheConstants.{GREATEST_NUMBER};
ghost use Rattle.hx_model.specs.CoordinatorSteps.{coordinator_message, gone_step, poll_step, ready_step};
ghost use Rattle.hx_coord.specs.Changes.{IsOutputOf, standing, told};

use crate::agendas::Agenda;
use crate::calls::{add_replica, stop_server};
use crate::configs::{config_ready, config_without};
use crate::issuing::issue;
use crate::outputs::{StepOutput, no_output, posting};
use crate::servers::is_in;
use crate::stops::{stops_answered, stops_left};
use hx_types::{
    Actor, Caller, Config, Epoch, Exact, Memory, Message, Post, Posts, RegionId, ServerId, Shared,
};
use std::alloc::Global;

/// Hears a poll, a server's halt or readiness, a session's stop or add; all else makes nothing.
pub fn hear(
    alloc: Global,
    config: &Shared<Config>,
    agenda: Agenda,
    from: Actor,
    message: &Message,
) -> Result<StepOutput, Memory>
    requires { config.now.epoch.0 ≤ GREATEST_NUMBER }
    ensures { IfOk result (IsOutputOf config.now (coordinator_message (standing config.now agenda) from message.now)) }
{
    match (message, from) {
        (Message::Poll { epoch }, _) => poll(alloc, config, agenda, *epoch, from),
        (Message::Gone, Actor::Server(server)) => gone(alloc, config, agenda, server),
        (Message::Ready { region, .. }, Actor::Server(server)) => {
            ready(alloc, config, agenda, *region, server)
        }
        (Message::StopServer { number, server }, Actor::Session(session)) => {
            let caller = Caller {
                session,
                number: *number,
            };
            stop_server(alloc, config, agenda, caller, *server)
        }
        (
            Message::AddReplica {
                number,
                server,
                region,
            },
            Actor::Session(session),
        ) => {
            let caller = Caller {
                session,
                number: *number,
            };
            add_replica(alloc, config, agenda, caller, *server, *region)
        }
        _ => Ok(no_output(alloc, agenda)),
    }
}

/// A server has halted: a configuration without it is issued at once, and answers its stops.
#[tactic(auto, using(crate::proofs::Heard::gone_now, crate::proofs::Heard::gone_elsewhere))]
#[cold]
#[inline(never)]
fn gone(
    alloc: Global,
    config: &Shared<Config>,
    agenda: Agenda,
    server: ServerId,
) -> Result<StepOutput, Memory>
    requires { config.now.epoch.0 ≤ GREATEST_NUMBER }
    ensures { IfOk result (IsOutputOf config.now (gone_step (standing config.now agenda) (Server server))) }
{
    if !is_in(config.servers.as_slice(), server) {
        return Ok(no_output(alloc, agenda));
    }
    let next = config_without(alloc, config, server)?;
    let answered = stops_answered(alloc, agenda.todo.as_slice(), server, next.epoch)?;
    let mut agenda = agenda;
    agenda.todo = stops_left(alloc, agenda.todo.as_slice(), server)?;
    issue(alloc, agenda, next, answered.as_slice())
}

/// A joiner has installed its replica: a configuration where it is ready is issued.
#[tactic(auto, using(crate::proofs::Heard::ready_now, crate::proofs::Heard::ready_lost, crate::proofs::Heard::ready_unlisted))]
#[cold]
#[inline(never)]
fn ready(
    alloc: Global,
    config: &Shared<Config>,
    agenda: Agenda,
    region: RegionId,
    server: ServerId,
) -> Result<StepOutput, Memory>
    requires { config.now.epoch.0 ≤ GREATEST_NUMBER }
    ensures { IfOk result (IsOutputOf config.now (ready_step (standing config.now agenda) region (Server server))) }
{
    if config.is_lost(region) || !config.lists_joining(region, server) {
        return Ok(no_output(alloc, agenda));
    }
    let next = config_ready(alloc, config, server, region)?;
    issue(alloc, agenda, next, &[])
}

/// An actor asks for the newest configuration.
#[tactic(auto, using(crate::proofs::Heard::poll_older, crate::proofs::Heard::poll_newer))]
fn poll(
    alloc: Global,
    config: &Shared<Config>,
    agenda: Agenda,
    epoch: Epoch,
    from: Actor,
) -> Result<StepOutput, Memory>
    ensures { IfOk result (IsOutputOf config.now (poll_step (standing config.now agenda) epoch from)) }
{
    if epoch.0 < config.epoch.0 {
        install(alloc, config, agenda, from)
    } else {
        Ok(no_output(alloc, agenda))
    }
}

/// An actor hears the configuration.
fn install(
    alloc: Global,
    config: &Shared<Config>,
    agenda: Agenda,
    to: Actor,
) -> Result<StepOutput, Memory>
    ensures { IfOk result (λ made. made ≡ told agenda (post Coordinator to (a_message.Install config.now) ∷ [])) }
{
    let mut posts = Posts::new(alloc);
    let config = config.copy(alloc)?;
    posts.push(Post {
        from: Actor::Coordinator,
        to,
        message: Message::Install { config },
    })?;
    Ok(posting(alloc, agenda, posts))
}
