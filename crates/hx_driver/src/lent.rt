use hx_outbox::Copies;
use hx_types::{Notes, Posts};
use std::alloc::Global;

/// The lists that a desk lends for each step: what the step posts and notes, and the copies of its
/// posts. They keep their room from step to step. What they hold between steps counts for nothing.
pub struct Lent {
    pub posts: Posts,
    pub notes: Notes,
    pub copies: Copies,
}

impl Drop for Lent {
    fn drop(self) {
        let Lent {
            posts: _,
            notes: _,
            copies: _,
        } = self;
    }
}

impl Lent {
    /// Lists with no room.
    pub fn new(alloc: Global) -> Lent {
        Lent {
            posts: Posts::new(alloc),
            notes: Notes::new(alloc),
            copies: Copies::new(alloc),
        }
    }
}
