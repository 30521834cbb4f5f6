//! The laws on a run of drivers, whatever their threads did: what their actors made is paced, so
//! that an actor retries only where nothing else can go on but for what was lost.
//!
//! That a lost message is sent again where nothing else is left to do is this project's choice.
#![tactic(auto)]

ghost use Rattle.hx_law_drivers.specs.Laws.{EndedRunsEndCalls, PartsAreOwn, PutsArePosts, RestedRunsArePacedToEnd, RunsArePaced, TracesGoOn, TracesShowDesks, WornActorsAreDue};

/// The parts of all desks of drivers, merged by their stamps, are a run of the script in which no
/// entry is a halt, and each actor's entries in it are those of its desk.
pub fn traces_show_desks()
    ensures shown { TracesShowDesks }
{}

/// Where an actor has one more entry to make, of what was taken for it and not delivered or of a
/// tick that makes something, there is an entry of it with which the trace of all parts is still a
/// run; it is still paced too, unless that entry is a retry of an actor that made something since
/// the last moment of retries. What a driver met worn is such an actor, and its entry no such
/// retry.
pub fn traces_go_on()
    ensures more { TracesGoOn }
    ensures worn { WornActorsAreDue }
{}

/// What a driver put into a box are posts that its own actors made in the trace of all parts, none
/// of them more than twice.
pub fn puts_are_posts()
    ensures posts { PutsArePosts }
{}

/// What drivers made between retries that came all together, each where the drivers were at rest,
/// is a trace that is paced by these moments: each retry is its actor's first entry after one of
/// them; after each of them but the last exactly the actors that waited retry; at each of them a
/// call is under way, and no more posts are open than were lost in all. No post is delivered
/// thrice, and no more twice than were put twice. Where the drivers came to rest, this holds of the
/// last moment and of the end too; and where all sessions ended, each call has ended.
pub fn runs_of_drivers_are_paced()
    ensures own { PartsAreOwn }
    ensures paced { RunsArePaced }
    ensures rested { RestedRunsArePacedToEnd }
    ensures ended { EndedRunsEndCalls }
{}
