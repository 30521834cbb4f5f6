ghost use Rattle.std.specs.Prelude.{◌≡◌, ◌++◌, [], ◌∷◌, OnOk};
ghost use Rattle.hx_types.specs.declared.ids.Actor.TheVariants as an_actor;
ghost use Rattle.hx_types.specs.Words.{post};
ghost use Rattle.hx_model.specs.ServerSteps.{poll_post};
ghost use Rattle.hx_replica.specs.Ticking.{standing};

use crate::outputs::SlotChange;
use crate::replicas::Replica;
use hx_types::{Actor, Config, Entry, Memory, Message, Post, Posts, ServerId, Shared};

/// What a step changes of its server.
#[derive(Drop)]
pub enum Change {
    Nothing,
    /// The server takes no further step.
    Halt,
    /// The server adopts a configuration: its replicas of the regions in which it is listed take
    /// their places among these, which are new.
    Adopt {
        config: Shared<Config>,
        replicas: Vec<Replica>,
    },
    /// The replica with this number among the server's becomes this one, which is installed. It is
    /// boxed, so that the plan of every other step is small.
    Join {
        number: usize,
        replica: Box<Replica>,
    },
    /// The slot at a place of the replica with this number among the server's makes its part.
    Slot {
        replica: usize,
        place: usize,
        change: SlotChange,
    },
}

/// A step that is ready to be made: its entry, and what it changes.
#[derive(Drop)]
pub struct Plan {
    pub entry: Entry,
    pub(crate) change: Change,
}

impl Plan {
    /// The entry of the step.
    pub fn entry(&self) -> &Entry
        ensures { result.now ≡ self.now.entry }
    {
        &self.entry
    }
}

/// Asks the coordinator for the newest configuration, where this is the server's own.
#[cold]
#[inline(never)]
pub fn ask_newest(server: ServerId, config: &Config, posts: &mut Posts) -> Result<(), Memory>
    ensures { OnOk result (posts.new ≡ posts.old ++ poll_post (standing config.now server) ∷ []) }
{
    let epoch = config.epoch;
    post_to_coordinator(server, Message::Poll { epoch }, posts)
}

/// Posts a message to the coordinator.
pub fn post_to_coordinator(
    server: ServerId,
    message: Message,
    posts: &mut Posts,
) -> Result<(), Memory>
    ensures { OnOk result (posts.new ≡ posts.old ++ post (an_actor.Server server) an_actor.Coordinator message ∷ []) }
{
    posts.push(Post {
        from: Actor::Server(server),
        to: Actor::Coordinator,
        message,
    })
}
