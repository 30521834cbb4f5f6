//! Laws of all runs: what is posted is sound, and versions and epochs stay small.
//!
//! What counts as sound is this project's choice.
#![tactic(auto)]

ghost use Rattle.hx_model.specs.Types.{Script};
ghost use Rattle.hx_types.specs.Fitting.{IsScript};
ghost use Rattle.hx_law_posts.specs.Posts.{EpochsStaySmall, PostsStaySound, VersionsStaySmall};

/// In every run everything that is posted belongs to the script, whatever is delivered, lost,
/// repeated, halted, stopped or added: senders, receivers and regions exist, operations, objects,
/// rows, snapshots, configurations and updates are of the space, and no version or epoch is above
/// the number of the post's entry by more than 1. No slot of a server has a version above the
/// number of entries, and no configuration of an actor an epoch above it by more than 1.
pub fn posts_of_runs_are_sound()
    ensures posts { (script : Script) → IsScript script → PostsStaySound script }
    ensures versions { (script : Script) → IsScript script → VersionsStaySmall script }
    ensures epochs { (script : Script) → IsScript script → EpochsStaySmall script }
{}
