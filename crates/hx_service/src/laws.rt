ghost use Rattle.hx_service.specs.Laws.{FreeSessionsRest, RunsAreBooked, RunsShowProgress};

/// In every run each receipt is its call's record, those of a session are of its calls 1, 2, 3 and
/// so on up to the last that ended, and each call that ended has one.
pub fn runs_are_booked()
    ensures { RunsAreBooked }
{}

/// In every run how far a session's calls are by their notes is how far they are by its state.
pub fn runs_show_progress()
    ensures { RunsShowProgress }
{}

/// In every run a session is free exactly where no call of it is under way and all have begun.
pub fn free_sessions_are_at_rest()
    ensures { FreeSessionsRest }
{}
