ghost use Rattle.std.specs.Prelude.{◌≡◌, IfOk};
ghost use Rattle.hx_types.specs.Words.{server_in, without_server};

use hx_types::{Memory, ServerId, ServerList};
use std::alloc::Global;

/// Whether a server stands in a list.
pub fn is_in(servers: &[ServerId], server: ServerId) -> bool
    ensures { result ≡ server_in server servers.now }
{
    servers.iter().any(|other| server == *other)
}

/// The servers without one of them.
pub fn without(alloc: Global, servers: &[ServerId], server: ServerId) -> Result<ServerList, Memory>
    ensures { IfOk result (λ left. left ≡ without_server server servers.now) }
{
    let mut left = ServerList::new(alloc);
    for other in servers {
        if *other != server {
            left.push(*other)?;
        }
    }
    Ok(left)
}
