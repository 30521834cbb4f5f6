//! The law on causes over all runs: why each call was answered as it was.
//!
//! That each answer has its cause in what was known is this project's choice of what to promise.
#![tactic(auto)]

ghost use Rattle.hx_law_causes.specs.Causes.{RunsAnswerAll, RunsHaveCauses};

/// In every run of every valid script each answer of each call has its cause in the trace. An
/// answer of an operation on a key is the effect's on the object before the call in the key's
/// history; rows are those of a search that is whole and true. A call is refused for a region that
/// is lost in the configuration of the epoch that is named, known before the answer: a get, or a
/// write that was never sent, for its key's region; a write with a version for the first lost place
/// of its effect on the object after the version before; a search for the region that its plan
/// names. A write is in doubt where its key's region is lost and it was sent, or where its leader
/// told so while a version was pending that has a place in the lost region. A Stop or an Add is
/// fulfilled by a configuration issued after it began, and refused by one that shows why.
pub fn answers_have_causes()
    ensures { RunsHaveCauses }
{}

/// In every run of every valid script in whose configurations no region of the space is lost no
/// call is refused or in doubt.
pub fn present_regions_answer_all()
    ensures { RunsAnswerAll }
{}
