//! What a report breaks.

ghost use Rattle.std.specs.Prelude.{◌≡◌};
ghost use Rattle.hx_audit.specs.Verdicts.{clause_word};

/// What a report may break, in the order in which it is judged: a later clause is judged only where
/// no earlier one is broken anywhere.
#[derive(Clone, Copy, PartialEq, Eq, Debug)]
pub enum Clause {
    /// Each item is of a call on the key that wasn't refused, and stands once in its history.
    Foreign,
    /// Each item is the effect of its call's operation on the object before it.
    Legal,
    /// Each call on a key that ended and wasn't refused stands in the key's history with its
    /// answer.
    Missing,
    /// No item stands after one of a call that began after its own call had ended.
    Order,
    /// Each finished search shows all that was committed before it and not changed meanwhile.
    Whole,
    /// Each row was committed or under way during its search, and rows stand in byte order of keys.
    True,
}

/// Whether a report is consistent.
#[derive(Clone, Copy, PartialEq, Eq, Debug)]
pub enum Verdict {
    /// No clause is broken.
    Yes,
    /// The first clause that is broken anywhere, and its lowest line, from 1.
    No { line: u64, clause: Clause },
}

/// The word for a clause: `foreign`, `legal`, `missing`, `order`, `whole` or `true`.
pub fn clause_text(clause: Clause) -> &'static str
    ensures { result.now ≡ clause_word clause }
{
    match clause {
        Clause::Foreign => "foreign",
        Clause::Legal => "legal",
        Clause::Missing => "missing",
        Clause::Order => "order",
        Clause::Whole => "whole",
        Clause::True => "true",
    }
}
