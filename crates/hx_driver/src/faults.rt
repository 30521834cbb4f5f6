use hx_types::Actor;

/// Why a turn wasn't made.
#[derive(Clone, Copy, PartialEq, Eq)]
pub enum Fault {
    /// There was no memory for it, or it has more posts or envelopes than can be counted.
    Memory,
    /// The actor has made the most entries that it may make, and had one more to make.
    Worn(Actor),
}
