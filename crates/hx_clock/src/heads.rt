use hx_types::{Actor, Stamp};

/// What an actor took, without the post that was delivered.
#[derive(Clone, Copy)]
pub enum InputHead {
    Tick,
    Halt,
    /// A delivery; `at` is its place among all of the part.
    Delivered { at: u32 },
}

/// An entry with its stamp, without its posts and notes: where they begin among all of the part.
/// They end where those of the next head begin.
#[derive(Clone, Copy)]
pub struct PartHead {
    pub stamp: Stamp,
    pub actor: Actor,
    pub input: InputHead,
    pub posts: u32,
    pub notes: u32,
}
