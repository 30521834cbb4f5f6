ghost use Rattle.std.specs.Prelude.{◌≡◌, ◌&&◌, None, if◌then◌else◌};
ghost use Rattle.std.specs.Option.{option_map};
ghost use Rattle.hx_types.specs.Configs.{joiner_for, joiner_in};
ghost use Rattle.hx_types.specs.Words.{first_of_list, same_server};
ghost use Rattle.hx_model.specs.Types.{Member as Listed};

use hx_types::{Config, Member, RegionId, ServerId, any_ready};

/// The joiner to which a server sends its replica of a region: the member that follows the server,
/// where the server is the last ready one. That the last ready replica sends is this project's
/// choice.
pub fn joiner_for(config: &Config, region: RegionId, server: ServerId) -> Option<ServerId>
    ensures { result ≡ joiner_for config.now region server }
{
    joiner_in(server, config.members(region))
}

fn joiner_in(server: ServerId, members: &[Member]) -> Option<ServerId>
    ensures { result ≡ joiner_in server members.now }
{
    let mut rest = members;
    'members: while let Some((member, after)) = rest.split_first() {
        if !any_ready(after) {
            return follower(server, *member, after);
        }
        rest = after;
    }
    None
}

/// The first of the members after this one, where this one is the server and ready.
fn follower(server: ServerId, member: Member, after: &[Member]) -> Option<ServerId>
    ensures { result ≡ (if same_server member.server server && member.ready then option_map (λ (x : Listed). x.server) (first_of_list after.now) else None) }
{
    if member.server == server && member.ready {
        Some(after.first()?.server)
    } else {
        None
    }
}
