ghost use Rattle.std.specs.Prelude.{◌≡◌, IsTrue, OnOk};

use hx_types::{Exact, Memory, Post};
use std::alloc::Global;
use std::collections::VecDeque;

/// Copies of the posts of a step: each once, and each once more where the driver's fate may repeat.
/// The lists keep their room from step to step.
pub struct Copies {
    pub firsts: VecDeque<Post>,
    pub seconds: VecDeque<Post>,
}

impl Drop for Copies {
    fn drop(self) {
        let Copies {
            firsts: _,
            seconds: _,
        } = self;
    }
}

impl Copies {
    /// Lists with no room.
    pub fn new(alloc: Global) -> Copies {
        Copies {
            firsts: VecDeque::new(alloc),
            seconds: VecDeque::new(alloc),
        }
    }

    /// Copies of these posts, in place of what the lists held. Where each is copied once, what the
    /// second list holds counts for nothing. It fails with [`Memory`] alone.
    pub fn fill(&mut self, alloc: Global, posts: &[Post], twice: bool) -> Result<(), Memory>
        ensures firsts { OnOk result (self.new.firsts.items ≡ posts.now) }
        ensures seconds { OnOk result (IsTrue twice → self.new.seconds.items ≡ posts.now) }
    {
        copy_all(alloc, posts, &mut self.firsts)?;
        if twice {
            copy_again(alloc, posts, &mut self.seconds)
        } else {
            Ok(())
        }
    }
}

/// Each post, in place of what the list held.
fn copy_all(alloc: Global, posts: &[Post], copies: &mut VecDeque<Post>) -> Result<(), Memory>
    ensures { OnOk result (copies.new.items ≡ posts.now) }
{
    if !copies.is_empty() {
        copies.clear();
    }
    copies.reserve(posts.len())?;
    for post in posts {
        let Ok(copy) = post.copy(alloc) else {
            return Err(Memory);
        };
        copies.push_back_reserved(copy);
    }
    Ok(())
}

/// The same for the second copies. It is rare, so it has a function of its own.
#[cold]
#[inline(never)]
fn copy_again(alloc: Global, posts: &[Post], copies: &mut VecDeque<Post>) -> Result<(), Memory>
    ensures { OnOk result (copies.new.items ≡ posts.now) }
{
    copy_all(alloc, posts, copies)
}
