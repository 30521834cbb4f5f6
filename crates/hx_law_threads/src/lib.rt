//! The laws on what several threads make: what each actor made on its own, merged by the stamps of
//! one clock, is a run of the script, so that every law over all runs holds of it.
//!
//! And the law on posts, actor by actor: what one actor makes on its own thread is sound, as long
//! as what it is given is. So a driver that knows no more of a run than its own actors' entries and
//! the posts that they took knows that each post which it puts is sound, and that its actors can
//! take their next input. The laws over whole runs say the same of the merged trace, which no
//! thread has yet.
//!
//! Stamps of one clock are a ticket counter's, and what a seat knows is Lamport's order of events.
#![tactic(auto)]

ghost use Rattle.hx_law_threads.specs.Calls.{CallsOfDoneSessionsEnd, CallsUnderWayAreOpen};
ghost use Rattle.hx_law_threads.specs.Counting.{CutsAddUp, OpenAreCounted, PostsAreNamedOnce, PostsOfCutsWeigh, TracesAddUp};
ghost use Rattle.hx_law_threads.specs.Feeding.{ActorsStaySound};
ghost use Rattle.hx_law_threads.specs.PartPacing.{PacedPartsPaceTraces, PartsTellPace};
ghost use Rattle.hx_law_threads.specs.Offers.{OpenWereLost, RepeatsWerePut};
ghost use Rattle.hx_law_threads.specs.Laws.{CutsAreReadInParts, EntriesAreOfParts, EntriesOfRunsAreOwn, MergedPartsAreRuns, MergedStampsArePlaces, PostsAreFound, RetriersWaited, RetriesWait, StatesAreByOwnEntries};

/// An actor's state, and what it makes of an input, are those after its own entries, whatever
/// others do in between; and in every run its entries are its own steps.
pub fn actors_see_their_own_entries()
    ensures states { StatesAreByOwnEntries }
    ensures entries { EntriesOfRunsAreOwn }
{}

/// Parts of different actors of a script, each the actor's own steps from its start, that are
/// causal and leave no stamp out, merged by stamp make a run of the script, in which each actor's
/// entries are its part and each entry's number is its stamp plus 1; no entry is of no part, and
/// each post is found by its name.
pub fn merged_parts_are_runs()
    ensures runs { MergedPartsAreRuns }
    ensures places { MergedStampsArePlaces }
    ensures entries { EntriesAreOfParts }
    ensures posts { PostsAreFound }
{}

/// In every run a retry is of an actor that hasn't halted, is no idle session and has something to
/// do: so after no cut does anybody retry who didn't wait there.
pub fn only_waiting_actors_retry()
    ensures retries { RetriesWait }
    ensures cuts { RetriersWaited }
{}

/// In every run a session that has no call under way and none left has ended each of its calls; and
/// where it has one under way, that call began and hasn't ended.
pub fn sessions_note_their_calls()
    ensures done { CallsOfDoneSessionsEnd }
    ensures under_way { CallsUnderWayAreOpen }
{}

/// What an actor has made by a cut, and what it makes next, is read in its part, and what the
/// entries of a cut of merged parts add up to can be counted part by part: so too the posts that
/// they made and delivered, each of which has a name of its own. Where whatever holds of no post
/// that was delivered, and of none to a halted server, holds of at most so many, at most so many
/// are open.
pub fn cuts_add_up()
    ensures parts { CutsAreReadInParts }
    ensures cuts { CutsAddUp }
    ensures traces { TracesAddUp }
    ensures posts { PostsOfCutsWeigh }
    ensures few_open { OpenAreCounted }
    ensures names { PostsAreNamedOnce }
{}

/// Where each post was offered once and put as often as it was then delivered, those to halted
/// servers aside, at most as many are open as were never put. Where no post was put more than
/// twice, and none delivered more often than put, none is delivered thrice, and at most as many
/// twice as were put twice.
pub fn open_posts_were_lost()
    ensures lost { OpenWereLost }
    ensures repeats { RepeatsWerePut }
{}

/// Whether each retry of a trace is its actor's first entry after a cut, whether after a cut
/// exactly those retry who waited, and whether a call is under way there, is read in the parts of
/// which the trace is merged: so parts that were made with retries at some cuts alone make a trace
/// that is paced by these.
pub fn parts_tell_the_pace()
    ensures parts { PartsTellPace }
    ensures traces { PacedPartsPaceTraces }
{}

/// An actor that made its steps on sound posts of entries with smaller stamps, each stamp above the
/// one before it, made sound posts alone, each for the number of its entry; it has its own number,
/// no epoch of its configuration and no version of its slots is above the number of its newest
/// entry by more than 1, and what it took comes after lower versions.
pub fn actors_stay_sound()
    ensures { ActorsStaySound }
{}
