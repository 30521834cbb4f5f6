//! The headline for every run: whatever is delivered, lost, repeated, halted, stopped or added,
//! histories are linear, and searches true and whole.
//!
//! Linear histories are Herlihy's and Wing's; searches over committed versions, with what is under
//! way, are HyperDex's.
#![tactic(auto)]

ghost use Rattle.hx_law_searches.specs.Headline.{RunsAreLinear, RunsFit, RunsKeepRows, RunsSearchWell, RunsServeCalls};

/// In every run of every valid script - whatever is delivered, lost or repeated, whichever servers
/// halt or are stopped, whichever replicas are added, in whatever configurations - the history of
/// every key is linear: each item is the effect of its operation on the object before it, every
/// ended call stands once with its answer, every item is a begun call of the script on that key, at
/// most once, and a call that ended before another began stands before it.
pub fn histories_are_linear()
    ensures { RunsAreLinear }
{}

/// In every run of every valid script each finished search, whatever subspace it asks, holds every
/// match that was committed before it began and not changed meanwhile, and only versions that were
/// committed or under way during it.
pub fn searches_are_true_and_whole()
    ensures { RunsSearchWell }
{}

/// Every run of every valid script fits its script: each begin and end is of a call of that
/// session, a call begins once and ends once, after its begin, a get ends with an object, with none
/// or refused, a search with rows or refused, and each assigned update is of a write of the script
/// on its key, refused or answered as that operation can be.
pub fn runs_fit_their_scripts()
    ensures { RunsFit }
{}

/// In every run of every valid script each row that a session was ever sent, by a member of
/// whatever region in whatever epoch, is of a change that stands in its key's line, and so in each
/// later line: what was shown is never cut off, whichever servers halt.
pub fn found_rows_stay()
    ensures { RunsKeepRows }
{}

/// In every run of every valid script servers serve the calls: lines grow by effects of newer
/// writes or by refusals, each reply tells of an update of the line or of the object after the
/// version that it names, the line stays up to each version that was told without a doubt, a get
/// names no lower one, and rows are what the region keeps of each line up to a version as high as
/// any that was told.
pub fn servers_serve_calls()
    ensures { RunsServeCalls }
{}
