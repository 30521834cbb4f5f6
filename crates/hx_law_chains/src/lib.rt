//! The laws on chains over all runs: what replicas hold of each line and keep for later, what is
//! under way between them and whom they hear, whatever is delivered, lost, repeated, halted,
//! stopped or added.
//!
//! That what a replica accepted all before it accepted, and what it committed all after it
//! committed, is chain replication's; that it holds of chains that depend on values, and while
//! configurations overlap, is this project's.
#![tactic(auto)]

ghost use Rattle.hx_law_chains.specs.Chains.{RunsAnswerCommitted, RunsAssignUpdates, RunsHearNeighbours, RunsHoldParts, RunsKeepOrder, RunsKeepWhatStands, RunsPostsStand, RunsSendParts};

/// In every run each update of a key's line has the next version and is the effect of a write
/// of the script on the object before it, or is refused because a configuration of the run has
/// lost a place that the effect asks for, the first such one; it goes through the key's region
/// and, where it changes the object, through the regions of the object before and after it, in
/// each after the last version that had a place there.
pub fn updates_are_assigned()
    ensures { RunsAssignUpdates }
{}

/// In every run an installed replica whose server hasn't halted, or that the newest
/// configuration lists, holds of each key its region's part of the key's line up to some
/// version, with nothing left out and nothing else, whether it was there from the start or
/// began from a snapshot, and though lines are cut where a leader halts.
pub fn replicas_hold_their_part()
    ensures { RunsHoldParts }
{}

/// In every run a snapshot, of whatever epoch, that is under way to a joiner holds of each key,
/// with its pending updates, the region's part of the key's line up to some version.
pub fn snapshots_hold_their_part()
    ensures { RunsSendParts }
{}

/// In every run what a replica has accepted is accepted by every replica before it in the
/// update's chain, and what it has committed is committed by every one after it, in whatever
/// configurations; a snapshot under way to a joiner counts as the replica that it makes.
pub fn chains_keep_their_order()
    ensures { RunsKeepOrder }
{}

/// In every run what a session was answered is committed by all: each update up to the version
/// that the answer names, by every installed replica of its chain that hasn't halted or that
/// the newest configuration lists, and in every snapshot under way to a joiner.
pub fn answers_are_committed()
    ensures { RunsAnswerCommitted }
{}

/// In every run what an installed replica of a server that hasn't halted keeps for later stands.
/// An early update stands in its key's line, and all before the replica in its chain have accepted
/// it. An acknowledged version stands there too, all before the replica have accepted it, and all
/// after it have committed it; by its server's own configuration the chain ends at the replica, or
/// goes on at an installed one.
pub fn replicas_keep_what_stands()
    ensures { RunsKeepWhatStands }
{}

/// In every run each update, acknowledgement and snapshot under way came from an installed replica.
///
/// An update is sent to a replica that came next in its chain, by a configuration of the run. Where
/// the newest one lists the sender, the update stands in its key's line and the sender has accepted
/// it. Where its receiver may hear it, by its own configuration or a later one, it stands in the
/// line, the newest configuration lists the receiver, and all before the receiver in its chain have
/// accepted it.
///
/// An acknowledged version stands in its key's line, and all of its chain have accepted it. Where
/// the newest configuration lists the sender, that has committed it. Where the receiver may hear
/// of it, the newest configuration lists the receiver, and all after that have committed it.
///
/// A snapshot is sent by the last ready member of its region to the member right after it, by the
/// configuration of its epoch. Where the receiver hasn't halted, the newest configuration lists it;
/// where it has no installed replica either, the snapshot and its pending updates hold the region's
/// part of each key's line up to some version.
pub fn posts_under_way_stand()
    ensures { RunsPostsStand }
{}

/// In every run a server takes an update only from its predecessor, where its replica is installed;
/// an acknowledgement only from its successor, for a pending update and at the region that it
/// names; and a snapshot only from the member before it, where it has a replica of the region. All
/// that is by its own configuration; any other leaves it as it is, and at most it asks for the
/// newest configuration.
pub fn replicas_hear_their_neighbours()
    ensures { RunsHearNeighbours }
{}
