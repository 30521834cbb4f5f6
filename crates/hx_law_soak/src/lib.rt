//! The law on soaks: what the summary of a generated script's run is, whatever is delivered, lost
//! or repeated, and so however many drivers take part.
//!
//! Summaries that no schedule changes are this project's choice.
#![tactic(auto)]

ghost use Rattle.hx_law_soak.specs.Soaks.{SoaksSumUpInOrder};

/// In every run of a generated script in which no server is halted and each call ends, the summary
/// is that of the calls taken one after the other on one map, in the order in which they are drawn.
/// It depends on the seed and on how many calls are drawn, and on nothing else of the run.
pub fn soaks_sum_up_in_order()
    ensures { SoaksSumUpInOrder }
{}
