ghost use Rattle.std.specs.Prelude.{◌≡◌, IfOk, length};
ghost use Rattle.hx_types.specs.Fitting.{IsScript};
ghost use Rattle.hx_types.specs.Spaces.{IsSpace};
ghost use Rattle.hx_world.specs.Invariant.{AreAt};
ghost use Rattle.hx_world.specs.Starting.{HaveStarted, IsNewCoordinator, IsNewServer, IsNewSession};

use crate::actors::Actors;
use crate::coordinators::CountedCoordinator;
use crate::servers::CountedServer;
use crate::sessions::CountedSession;
use hx_coord::Coordinator;
use hx_replica::Server;
use hx_session::Session;
use hx_types::{Exact, Memory, Script, ServerId, SessionId, Space};
use std::alloc::Global;

/// The actors of a script at their start.
pub fn start_actors(alloc: Global, script: &Script) -> Result<Actors, Memory>
    requires { IsScript script.now }
    ensures { IfOk result (HaveStarted script.now) }
{
    let coordinator = start_coordinator(alloc, script)?;
    let servers = start_servers(alloc, &script.space)?;
    let sessions = start_sessions(alloc, script)?;
    Ok(Actors {
        coordinator,
        servers,
        sessions,
    })
}

fn start_coordinator(alloc: Global, script: &Script) -> Result<CountedCoordinator, Memory>
    requires { IsScript script.now }
    ensures { IfOk result (IsNewCoordinator script.now) }
{
    let sessions = script.sessions.len() as u32;
    let coordinator = Coordinator::start(alloc, &script.space, sessions)?;
    Ok(CountedCoordinator {
        coordinator,
        entries: 0,
    })
}

fn start_servers(alloc: Global, space: &Space) -> Result<Vec<CountedServer>, Memory>
    requires { IsSpace space.now }
    ensures { IfOk result (λ servers. AreAt space.now.servers (IsNewServer space.now) servers.items) }
{
    let mut servers = Vec::new(alloc);
    for place in 0..space.servers {
        let server = Server::start(alloc, space, ServerId(place + 1))?;
        servers.push(CountedServer { server, entries: 0 })?;
    }
    Ok(servers)
}

fn start_sessions(alloc: Global, script: &Script) -> Result<Vec<CountedSession>, Memory>
    requires { IsScript script.now }
    ensures { IfOk result (λ sessions. AreAt (length script.now.sessions) (IsNewSession script.now) sessions.items) }
{
    let mut sessions = Vec::new(alloc);
    for (place, calls) in script.sessions.as_slice().iter().enumerate() {
        let id = SessionId(place as u32 + 1);
        let session = Session::start(alloc, &script.space, id, calls.copy(alloc)?)?;
        sessions.push(CountedSession {
            session,
            entries: 0,
        })?;
    }
    Ok(sessions)
}
