//! What a verdict on a report means, and that the reports of runs break nothing.
//!
//! That a verdict is worth something only where it is an equivalence is this project's choice.
#![tactic(auto)]

ghost use Rattle.hx_law_audit.specs.Meaning.{AccountsAgree, VerdictsAreUnique, YesMeansLinear, YesMeansOneOrder};
ghost use Rattle.hx_law_audit.specs.Running.{RunsBreakNothing};
ghost use Rattle.hx_law_audit.specs.Lines.{LinesAreCounted};

/// A report has one verdict: where no clause is broken it is yes, and else it names the first
/// clause that is broken anywhere and the lowest line at which it is.
pub fn verdicts_are_unique()
    ensures { VerdictsAreUnique }
{}

/// The verdict is yes exactly where the report is consistent: by the calls, the histories and the
/// rows that it has, the history of each key of each space is linear, and each finished search is
/// whole and true. The order of time is one of different calls, since a report may have a call that
/// ended before it began.
pub fn yes_means_linear()
    ensures { YesMeansLinear }
{}

/// Where the verdict is yes, and no call ended before it began, the items of all keys of a space
/// have one order: it has each key's history as it is, and what ended before another began,
/// whatever their keys, stands before it. So the histories are one history of one store.
pub fn yes_means_one_order()
    ensures { YesMeansOneOrder }
{}

/// By what a run of a script tells of calls and histories, the definitions that reports are judged
/// by say what the store's own promise says: a history that is linear in the run is linear, and the
/// same searches are whole and true.
pub fn accounts_agree()
    ensures { AccountsAgree }
{}

/// The report of a run breaks nothing: for every valid script that the language can say, and every
/// run of it - whatever is delivered, lost, repeated, halted, stopped or added - the text that is
/// printed of it, with or without the lines of its trace and with any totals of drivers, is that of
/// a report, on which the verdict is yes. Entries are numbered with 64 bits, and drivers with 32.
pub fn runs_break_nothing()
    ensures { RunsBreakNothing }
{}

/// The line that a verdict names is that line of the report's text, where lines are numbered from 1
/// and each ends with a newline: the line of a call is the one on which that call is printed, the
/// lines after it are those of its rows, and so for a history and its items. A clause is broken
/// only at one of these lines.
pub fn lines_are_counted()
    ensures { LinesAreCounted }
{}
