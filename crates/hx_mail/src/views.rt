//! What ports know. These types are for contracts: no value of them is made.
use hx_clock::Clock;
use hx_types::{Actor, Post, PostId, Sequence, Space};

/// A post with its name.
pub struct Mailed {
    pub id: PostId,
    pub post: Post,
}

impl Drop for Mailed {
    fn drop(self) {
        let Mailed { id: _, post: _ } = self;
    }
}

/// A post, and the name of the port under which it was put.
pub struct Sent {
    pub port: u32,
    pub mailed: Mailed,
}

impl Drop for Sent {
    fn drop(self) {
        let Sent { port: _, mailed: _ } = self;
    }
}

/// What was put and what was taken under a port's name, oldest first.
pub struct PortLists {
    pub name: u32,
    pub put: Sequence<Mailed>,
    pub taken: Sequence<Sent>,
}

impl Drop for PortLists {
    fn drop(self) {
        let PortLists {
            name: _,
            put: _,
            taken: _,
        } = self;
    }
}

/// Of which clock a box is, whose it is, and for which space and number of sessions its posts are
/// sound.
pub struct BoxNames {
    pub clock: Clock,
    pub owner: Actor,
    pub space: Space,
    pub sessions: u32,
}

impl Drop for BoxNames {
    fn drop(self) {
        let BoxNames {
            clock: _,
            owner: _,
            space: _,
            sessions: _,
        } = self;
    }
}

/// What a port knows.
pub struct PortView {
    /// The name under which it puts and takes.
    pub own: u32,
    /// Of which box it is. It is none only while the box is being made.
    pub of_box: Option<BoxNames>,
    /// What was put and taken under each name that it carries.
    pub lists: Sequence<PortLists>,
    /// How many ports were split off, in the first port of a box.
    pub splits: Option<u32>,
}

impl Drop for PortView {
    fn drop(self) {
        let PortView {
            own: _,
            of_box: _,
            lists: _,
            splits: _,
        } = self;
    }
}
