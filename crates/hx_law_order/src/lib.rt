//! One order over the calls of all keys: where the history of every key is linear, so are all of
//! them together.
//!
//! That what is linear key by key is linear as a whole is Herlihy's and Wing's locality.
#![tactic(auto)]

ghost use Rattle.hx_law_order.specs.Headline.{HistoriesHaveOneOrder, RunsHaveOneOrder, RunsKeepTurns};

/// Of finitely many histories, in each of which every call stands once and a call that ended
/// before another began stands before it, there is one order: it has each history as it is, and a
/// call that ended before another began, whatever their keys, stands before it. Calls may be of
/// any kind, so it serves a report that was read as well as a run.
pub fn histories_have_one_order<T>()
    ensures { HistoriesHaveOneOrder T }
{}

/// In every run of every valid script there is one order over the calls of all keys: what stands
/// in it of a key is that key's history; a call that ended before another began, whatever their
/// keys, stands before it; and each call is the effect of its operation on the object that its
/// key had, so it is a legal history of one store that takes one call at a time.
pub fn runs_have_one_order()
    ensures { RunsHaveOneOrder }
{}

/// In every run of every valid script a session's call that ended did so before its later calls
/// began. So the order has the calls of each session in turn, but for those in doubt, which may
/// take effect late.
pub fn sessions_take_turns()
    ensures { RunsKeepTurns }
{}
