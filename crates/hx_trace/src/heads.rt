use hx_types::Actor;

/// What an actor took, or the whole entry where that is kept. A post of the trace is named and not
/// held once more.
#[derive(Clone, Copy)]
pub enum InputHead {
    Tick,
    Halt,
    /// A delivery of a post of the trace; `at` is where it lies among all posts.
    Sent { entry: u32, place: u32, at: u32 },
    /// An entry that is kept whole; `at` is its place among these. Its head's actor counts for
    /// nothing.
    Whole { at: u32 },
}

/// An entry that was put at the end, without its posts and notes: where they begin among all. They
/// end where those of the next head begin.
#[derive(Clone, Copy)]
pub struct Head {
    pub actor: Actor,
    pub input: InputHead,
    pub posts: u32,
    pub notes: u32,
}
