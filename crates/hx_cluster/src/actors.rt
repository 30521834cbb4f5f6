ghost use Rattle.std.specs.Prelude.{◌≡◌};
ghost use Rattle.hx_cluster.specs.Actors.{actor_at};

use hx_types::{Actor, ServerId, SessionId, Space};

/// The actor whose box has this place.
pub fn actor_at(space: &Space, place: u32) -> Actor
    ensures { result ≡ actor_at space.now place }
{
    if place == 0 {
        Actor::Coordinator
    } else if place <= space.servers {
        Actor::Server(ServerId(place))
    } else {
        Actor::Session(SessionId(place - space.servers))
    }
}
