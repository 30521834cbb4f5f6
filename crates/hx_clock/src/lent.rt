use hx_types::{Actor, Message, Note, Post, PostId};

/// What an actor took in an entry, lent from where it lies.
#[derive(Clone, Copy)]
pub enum InputRef<'a> {
    /// Its own turn.
    Tick,
    /// It failed.
    Halt,
    /// A post that was sent to it.
    Deliver {
        id: PostId,
        from: Actor,
        message: &'a Message,
    },
}

/// An entry, lent from where it lies: the input that its actor took, and what it posted and noted.
#[derive(Clone, Copy)]
pub struct EntryRef<'a> {
    pub actor: Actor,
    pub input: InputRef<'a>,
    pub outputs: &'a [Post],
    pub notes: &'a [Note],
}
