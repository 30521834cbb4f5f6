ghost use Rattle.std.specs.Prelude.{◌≡◌, []};

use hx_types::{Notes, Posts};
use std::alloc::Global;
use std::marker::Model;

/// The lists into which an actor puts the posts and notes of its next entry. Between steps they are
/// empty, and keep their room.
pub struct Lent {
    pub posts: Posts,
    pub notes: Notes,
}

impl Drop for Lent {
    fn drop(self) {
        let Lent { posts: _, notes: _ } = self;
    }
}

impl Model for Lent {
    ghost use Rattle.hx_world.specs.Lending.{AreEmpty};

    ghost Value = { Unit {0} };

    ghost view = { λ l. tt };

    ghost invariant = { λ l. AreEmpty l.posts l.notes };
}

impl Lent {
    /// Lists without room. They take no memory.
    pub fn new(alloc: Global) -> Lent {
        Lent {
            posts: Posts::new(alloc),
            notes: Notes::new(alloc),
        }
    }
}

/// Lets go what a step would change and what it put into the lists that it was lent.
#[cold]
#[inline(never)]
pub fn forget_change<T: Drop>(change: T, posts: &mut Posts, notes: &mut Notes)
    ensures posts { posts.new ≡ [] }
    ensures notes { notes.new ≡ [] }
{
    drop(change);
    forget(posts, notes);
}

/// Lets go what a step put into the lists that it was lent.
#[cold]
#[inline(never)]
pub fn forget(posts: &mut Posts, notes: &mut Notes)
    ensures posts { posts.new ≡ [] }
    ensures notes { notes.new ≡ [] }
{
    posts.clear();
    notes.clear();
}
