//! The laws on configurations over all runs: whatever is delivered, lost, repeated, halted,
//! stopped or added.
//!
//! That configurations are numbered and one follows on another is chain replication's; that each
//! has one change, and waits for nobody, is this project's choice.
#![tactic(auto)]

ghost use Rattle.hx_law_epochs.specs.Epochs.{RunsFollowOn, RunsKeepEpochs, RunsLoseReplicas, RunsNumberEpochs};

/// In every run of a valid script a configuration follows on the one before it: servers only
/// leave, each region's list is the one before without the departed, with at most one joiner more
/// at its end, who is ready stays so, and what is lost stays lost; and each server that it leaves
/// out had halted before it was issued.
pub fn configurations_follow_on()
    ensures { RunsFollowOn }
{}

/// In every run of a valid script the epochs run 1, 2, 3 and so on up to the coordinator's, each
/// with one configuration.
pub fn epochs_are_numbered()
    ensures { RunsNumberEpochs }
{}

/// After every run of a valid script: the configurations of all actors are that of epoch 1 or
/// issued ones, and so is the configuration of each Install that was posted; no server has a
/// newer one than the coordinator; each server that hasn't halted is in the newest configuration;
/// a replica is installed only where its server's own configuration lists it; each ready member
/// of whatever configuration is installed; and what servers told of halts and readiness stays so.
pub fn epochs_hold()
    ensures { RunsKeepEpochs }
{}

/// In every run of a valid script a region that some configuration has lost has lost its
/// replicas: each server that any configuration had as a ready member of it has halted.
pub fn lost_regions_have_lost_their_replicas()
    ensures { RunsLoseReplicas }
{}
