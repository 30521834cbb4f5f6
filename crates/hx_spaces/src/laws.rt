//! What the one order of all entries says of the calls of a session.

ghost use Rattle.hx_spaces.specs.Following.{BeginsFollowEnds, EntriesHaveOneOrder};

/// The entries of all spaces have exactly one order in which those of each space are its trace and
/// their spaces are the numbers that [`Cluster::order`](crate::Cluster::order) gives.
pub fn entries_have_one_order()
    ensures { EntriesHaveOneOrder }
{}

/// In that order a session begins a call behind the note with which each call that it began before
/// ended, whatever their spaces.
pub fn begins_follow_ends()
    ensures { BeginsFollowEnds }
{}
