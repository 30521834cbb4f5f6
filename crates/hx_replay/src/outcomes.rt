ghost use Rattle.std.specs.Prelude.{◌≡◌, ◌++◌, IfOk, OnOk};
ghost use Rattle.hx_replay.specs.Outcomes.{fault_line, reason_word, refusal_line, status_of, worn_line, wrong_line};

use hx_audit::{Clause, clause_text};
use hx_io::ReadError;
use hx_print::{put_actor, put_bytes, put_number};
use hx_report_lines::AuditError;
use hx_script::{Reason, ScriptError};
use hx_spaces::Traces;
use hx_types::{Actor, Memory};
use std::alloc::Global;

/// How a call of the program ended.
#[derive(Clone, Copy, PartialEq, Eq)]
pub enum Outcome {
    /// The answer was written.
    Fine,
    /// The words are no command.
    Usage,
    /// The text is no script: its first faulty line, from 1, and what is wrong with it. Or, for the
    /// reason `Step`: the line of the first step that a replay can't take. Under `audit` the text
    /// is no report: the first line with which no report begins, and the reason `Order`.
    Refused { line: u64, reason: Reason },
    /// The source gave more than 16,777,216 bytes.
    TooLarge,
    /// The source failed.
    ReadFault,
    /// The sink failed; a prefix of the answer was written.
    WriteFault,
    /// Memory was wanting; nothing was written.
    Memory,
    /// The next entry of a replay is one of this actor, which has made 1,048,576 entries and makes
    /// no more; nothing was written. The limit is this project's choice.
    Worn(Actor),
    /// The report breaks a clause: the first of all clauses that is broken anywhere, and the lowest
    /// line at which it is, from 1; nothing was written.
    Wrong { line: u64, clause: Clause },
}

/// What a command writes for a script, of one space or several, with the steps that it stands for.
#[derive(Drop)]
pub struct Written {
    /// For each space the steps of all its actors; empty where none took one.
    pub traces: Traces,
    /// The bytes to be written.
    pub bytes: Vec<u8>,
}

/// What a command makes of a script.
#[derive(Drop)]
pub enum Ended {
    /// The answer.
    Whole(Written),
    /// A replay that ended at the step on this line, which can't be taken, and the entries before
    /// it.
    Refused { line: u64, traces: Traces },
    /// A replay that ended where this actor had made all its entries, and the entries up to there.
    Worn { actor: Actor, traces: Traces },
}

/// What a call of the program gives back.
#[derive(Drop)]
pub struct Done {
    /// The status with which the process ends.
    pub status: u8,
    pub outcome: Outcome,
    /// For each space in order the steps of all its actors, up to the worn actor's where the
    /// outcome is `Worn`, and up to the step that can't be taken where that is refused. Under
    /// `plan` each is empty. Where there is no answer else, and under `audit`, there is none.
    pub traces: Traces,
}

impl From<Memory> for Outcome {
    ghost use Rattle.hx_replay.specs.declared.outcomes.Outcome.TheVariants as an_outcome;

    ghost from_gives = { λ _ outcome. outcome ≡ an_outcome.Memory };

    fn from(_: Memory) -> Self {
        Outcome::Memory
    }
}

impl From<ReadError> for Outcome {
    ghost use Rattle.hx_replay.specs.Causes.{outcome_of_reading};

    ghost from_gives = { λ error outcome. outcome ≡ outcome_of_reading error };

    fn from(error: ReadError) -> Self {
        match error {
            ReadError::Memory => Outcome::Memory,
            ReadError::ReadFault => Outcome::ReadFault,
            ReadError::TooLarge => Outcome::TooLarge,
        }
    }
}

impl From<ScriptError> for Outcome {
    ghost use Rattle.hx_replay.specs.Causes.{outcome_of_script};

    ghost from_gives = { λ error outcome. outcome ≡ outcome_of_script error };

    fn from(error: ScriptError) -> Self {
        match error {
            ScriptError::Memory => Outcome::Memory,
            ScriptError::Refused { line, reason } => Outcome::Refused { line, reason },
        }
    }
}

impl From<AuditError> for Outcome {
    ghost use Rattle.hx_replay.specs.Audits.{outcome_of_audit};

    ghost from_gives = { λ error outcome. outcome ≡ outcome_of_audit error };

    fn from(error: AuditError) -> Self {
        match error {
            AuditError::Memory => Outcome::Memory,
            AuditError::Unread { line } => Outcome::Refused {
                line,
                reason: Reason::Order,
            },
        }
    }
}

/// The status of an outcome: 0 fine, 1 a report that breaks a clause, 2 usage, 3 a text that can't
/// be run or is no report, 4 and 5 a fault of reading or writing, 6 want of memory, 7 an actor that
/// has made 1,048,576 entries. The numbers are this project's choice.
pub fn status(outcome: Outcome) -> u8
    ensures { result ≡ status_of outcome }
{
    match outcome {
        Outcome::Fine => 0,
        Outcome::Usage => 2,
        Outcome::Refused { .. } | Outcome::TooLarge => 3,
        Outcome::ReadFault => 4,
        Outcome::WriteFault => 5,
        Outcome::Memory => 6,
        Outcome::Worn(_) => 7,
        Outcome::Wrong { .. } => 1,
    }
}

/// The line that is printed on standard error, with its newline; nothing where all went well.
///
/// # Errors
///
/// [`Memory`] alone, where there is no room for the line.
pub fn fault_text(alloc: Global, outcome: &Outcome) -> Result<Vec<u8>, Memory>
    ensures { IfOk result (λ text. text.items ≡ fault_line outcome.now) }
{
    let mut text = Vec::new(alloc);
    put_fault(&mut text, *outcome)?;
    Ok(text)
}

fn put_fault(out: &mut Vec<u8>, outcome: Outcome) -> Result<(), Memory>
    ensures { OnOk result (out.new.items ≡ out.old.items ++ fault_line outcome) }
{
    match outcome {
        Outcome::Fine => Ok(()),
        Outcome::Usage => put_bytes(
            out,
            b"usage: hx replay or run or soak or plan or share or audit\n",
        ),
        Outcome::Refused { line, reason } => put_refusal(out, line, reason),
        Outcome::TooLarge => put_bytes(out, b"too large\n"),
        Outcome::ReadFault => put_bytes(out, b"read fault\n"),
        Outcome::WriteFault => put_bytes(out, b"write fault\n"),
        Outcome::Memory => put_bytes(out, b"no memory\n"),
        Outcome::Worn(actor) => put_worn(out, actor),
        Outcome::Wrong { line, clause } => put_wrong(out, line, clause),
    }
}

#[tactic(auto, unfolding(crate::specs::Outcomes::worn_line))]
fn put_worn(out: &mut Vec<u8>, actor: Actor) -> Result<(), Memory>
    ensures { OnOk result (out.new.items ≡ out.old.items ++ worn_line actor) }
{
    put_bytes(out, b"worn ")?;
    put_actor(out, &actor)?;
    put_bytes(out, b"\n")
}

#[tactic(auto, unfolding(crate::specs::Outcomes::refusal_line))]
fn put_refusal(out: &mut Vec<u8>, line: u64, reason: Reason) -> Result<(), Memory>
    ensures { OnOk result (out.new.items ≡ out.old.items ++ refusal_line line reason) }
{
    put_bytes(out, b"line ")?;
    put_number(out, line)?;
    put_bytes(out, b": ")?;
    put_bytes(out, reason_word(reason))?;
    put_bytes(out, b"\n")
}

#[tactic(auto, unfolding(crate::specs::Outcomes::wrong_line))]
fn put_wrong(out: &mut Vec<u8>, line: u64, clause: Clause) -> Result<(), Memory>
    ensures { OnOk result (out.new.items ≡ out.old.items ++ wrong_line line clause) }
{
    put_bytes(out, b"line ")?;
    put_number(out, line)?;
    put_bytes(out, b": ")?;
    put_bytes(out, clause_text(clause).as_bytes())?;
    put_bytes(out, b"\n")
}

fn reason_word(reason: Reason) -> &'static [u8]
    ensures { result.now ≡ reason_word reason }
{
    match reason {
        Reason::Token => b"token",
        Reason::Order => b"order",
        Reason::Unknown => b"unknown",
        Reason::Twice => b"twice",
        Reason::TypeOf => b"type",
        Reason::Bounds => b"bounds",
        Reason::Limit => b"limit",
        Reason::Step => b"step",
    }
}
