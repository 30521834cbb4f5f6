//! What seats carry and know. These types are for contracts: no value of them is made.
use crate::parts::Stamped;
use hx_types::Sequence;

/// What the actor of one number has made, from its first entry on.
pub struct NumberedPart {
    pub number: u32,
    pub entries: Sequence<Stamped>,
}

/// What a seat carries and knows.
pub struct View {
    /// The parts that this seat alone carries, each whole.
    pub carried: Sequence<NumberedPart>,
    /// What the seat knows of any part. Of one number there may be several, one a prefix of the
    /// other.
    pub known: Sequence<NumberedPart>,
    /// The number of actors enrolled, in the one seat that counts them.
    pub count: Option<u64>,
}
