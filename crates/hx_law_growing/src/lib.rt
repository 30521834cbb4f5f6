//! The law on scripts that grow: a run of a script is a run of it with calls appended. A tick
//! without a call makes no entry, so none of a run's entries tells that there was no further call.
//!
//! Scripts that grow are this project's choice.
#![tactic(auto)]

ghost use Rattle.hx_law_growing.specs.Alone.{LoneCallersReplay, ReplaysAreOne};
ghost use Rattle.hx_law_growing.specs.Growing.{CallsGrow, QuietStays, RunsGrow, ScriptsStay, StatesGrow};
ghost use Rattle.hx_law_growing.specs.Serving.{SchedulesServe};

/// Every run of a script is a run of each script that it grows to.
pub fn runs_grow()
    ensures { RunsGrow }
{}

/// After a run of a script the actors of a script that it grows to are in the same states, but that
/// sessions have the further calls.
pub fn states_grow()
    ensures { StatesGrow }
{}

/// After a run of a script with nothing left to do, nothing is left of a script that it grows to
/// either, where each session has a call under way or no further calls.
pub fn quiet_stays()
    ensures { QuietStays }
{}

/// With a call appended to those of a session a script has what it had and that call; and it stays
/// within the limits where the call fits its space and it hadn't the most calls.
pub fn calls_grow()
    ensures grows { CallsGrow }
    ensures valid { ScriptsStay }
{}

/// The schedule makes no entries but ticks that begin calls and deliveries of posts that were never
/// delivered.
pub fn schedules_serve()
    ensures { SchedulesServe }
{}

/// One caller that makes the calls of a script alone, session after session, and lets the schedule
/// go on after each, comes to the trace of the script's replay; and a script has one replay.
pub fn lone_callers_replay()
    ensures replay { LoneCallersReplay }
    ensures one { ReplaysAreOne }
{}
