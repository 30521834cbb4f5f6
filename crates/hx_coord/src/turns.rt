ghost use Rattle.std.specs.Prelude.{◌≡◌, ◌++◌, true, map, IfOk, OnOk};
ghost use Rattle.std.specs.List.{flat_map};
ghost use Rattle.hx_model.specs.Types.{Member as Listed};
ghost use Rattle.hx_types.specs.Configs.{any_ready};
ghost use Rattle.hx_model.specs.CoordinatorSteps.{Task, coordinator_tick, die_for, join_posts, last_ready_pair};
ghost use Rattle.hx_coord.specs.Changes.{IsOutputOf, standing};

use crate::agendas::Agenda;
use crate::outputs::{StepOutput, posting};
use crate::posting::tell_server;
use crate::stops::Stop;
use hx_types::{Config, Exact, Member, Memory, Message, Posts, Shared, any_joining, any_ready};
use std::alloc::Global;

/// The coordinator's turn: what it waits for is asked for again.
#[tactic(auto, using(crate::proofs::Steps::tick_made))]
#[inline(never)]
pub fn tick(alloc: Global, config: &Shared<Config>, agenda: Agenda) -> Result<StepOutput, Memory>
    ensures { IfOk result (IsOutputOf config.now (coordinator_tick (standing config.now agenda))) }
{
    let mut posts = Posts::new(alloc);
    ask_to_die(&mut posts, agenda.todo.as_slice())?;
    install_joiners(alloc, &mut posts, config)?;
    Ok(posting(alloc, agenda, posts))
}

/// The server of each stop is asked to halt, in order.
fn ask_to_die(posts: &mut Posts, todo: &[Stop]) -> Result<(), Memory>
    ensures { OnOk result (posts.new ≡ posts.old ++ flat_map (λ (t : Task). die_for t.op) todo.now) }
{
    for stop in todo {
        tell_server(posts, stop.server, Message::Die)?;
    }
    Ok(())
}

/// In each region with a joiner the sender and the joiner hear the configuration, so that the one
/// sends its replica and the other takes it.
fn install_joiners(alloc: Global, posts: &mut Posts, config: &Shared<Config>) -> Result<(), Memory>
    ensures { OnOk result (posts.new ≡ posts.old ++ flat_map (join_posts config.now) config.now.regions) }
{
    for members in config.regions.as_slice() {
        install_joiner(alloc, posts, config, members.as_slice())?;
    }
    Ok(())
}

fn install_joiner(
    alloc: Global,
    posts: &mut Posts,
    config: &Shared<Config>,
    members: &[Member],
) -> Result<(), Memory>
    ensures { OnOk result (posts.new ≡ posts.old ++ join_posts config.now members.now) }
{
    if any_ready(members) && any_joining(members) {
        for member in last_ready_pair(members) {
            let config = config.copy(alloc)?;
            tell_server(posts, member.server, Message::Install { config })?;
        }
    }
    Ok(())
}

/// The last ready member, and the one after it where there is one.
fn last_ready_pair(members: &[Member]) -> &[Member]
    requires { any_ready members.now ≡ true }
    ensures { map (λ (m : Listed). m.server) result.now ≡ last_ready_pair members.now }
{
    let mut rest = members;
    'members: while let Some((_, after)) = rest.split_first() {
        if !any_ready(after) {
            break;
        }
        rest = after;
    }
    &rest[..rest.len().min(2)]
}
