//! The calls of a report.

use hx_types::{Answer, Caller, Op, Sequence, Version};

/// A call: its operation, when it began and ended, and what it was answered.
pub struct CallLine {
    /// Who called.
    pub caller: Caller,
    /// When the call began, in entries of the trace or any other steps of time.
    pub begin: u64,
    /// When it ended. It has no end where it has no answer, or where the answer is in doubt.
    pub end: Option<u64>,
    /// What was called.
    pub op: Op,
    /// The version that its answer names, or 0 where that names none.
    pub version: Version,
    /// What it was answered, and for a search the rows; `None` where the call is open.
    pub answer: Option<Answer>,
}

impl Drop for CallLine {
    fn drop(self) {
        let CallLine {
            caller: _,
            begin: _,
            end: _,
            op: _,
            version: _,
            answer: _,
        } = self;
    }
}

/// Calls by session and number.
pub type CallLines = Sequence<CallLine>;
