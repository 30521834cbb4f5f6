ghost use Rattle.std.specs.Prelude.{◌≡◌, ◌≢◌, ◌⊎◌, List, IfErr, IsErrOf, OnOk};
ghost use Rattle.std.specs.declared.string.String.{String};
ghost use Rattle.std.specs.declared.alloc.Global.{Global};
ghost use Rattle.std.specs.Io.KnownBytes.{Appends};
ghost use Rattle.hx_io.specs.Causes.{Rose};
ghost use Rattle.hx_io.specs.Pieces.{AppendsPrefix};
ghost use Rattle.hx_replay.specs.Calling.{Shows};
ghost use Rattle.hx_command.specs.Telling.{Answers, EndsProgram, IsUnread, Prints, Told};
ghost use Rattle.hx_command.specs.Threads.{Handed, HasEnough};
ghost use Rattle.hx_words.specs.Saying.{Asks};
ghost use Rattle.hx_replay.specs.Outcomes.{IsSilent, fault_line, status_of};
ghost use Rattle.hx_command.specs.Showing.{shown_text};
ghost use Rattle.hx_words.specs.declared.commands.Question.{Question};
ghost use Rattle.hx_replay.specs.Streams.{drawn, filled};

use crate::finished::Finished;
use crate::top::hyperstore;
use hx_driver::Open;
use hx_fate::{Fate, Losing};
use hx_io::{Sink, Source, write_all};
use hx_replay::{Done, Outcome, fault_text, status};
use hx_types::{MOST_DRIVERS, Memory};
use hx_words::{Question, Request, request_of};
use std::alloc::Global;
use std::mem::ManuallyDrop;
use std::rt::Env;
use std::sync::Wait;
use std::thread::Threads;
use std::{env, io};

/// What `hx --help` prints.
const HELP: &[u8] = b"hx: a searchable key-value store whose histories are proved linear

usage: hx replay [--trace] < SCRIPT
       hx run [--workers W] [--lose N] [--repeat N] [--seed S]
              [--trace] < SCRIPT
       hx soak SEED CALLS [--workers W]
       hx plan < SCRIPT
       hx share [--workers W] < SCRIPT
       hx audit < REPORT

Commands:
  replay       run the script that stands on standard input, and write every
               reply and every key's history on standard output;
               with --trace every step of every actor too
  run          the same on W threads (1 to 16; 2 where it isn't said), losing
               and repeating one message in so many of each thread's
               (0 to 1000000; never where it isn't said), which are counted,
               or drawn from the seed S where it is said (any number of 64 bits)
  soak         run 1 to 16384 calls drawn from a seed on W threads, and write
               a summary that is the same for every W
  plan         write which regions each search of the script asks
  share        make the script's calls one at a time behind one lock, by W
               callers on threads (1 to 16; 2 where it isn't said), and write
               the report; the script's steps are not taken
  audit        read a report, of whichever store, and write audit yes where
               each key's history is linear and each search whole and true;
               else tell the first of the clauses foreign, legal, missing,
               order, whole and true that is broken, and its lowest line.
               It says nothing of versions of items, of causes, or of calls
               that the report leaves out; with status 3, order means that
               no report has such a line

Options:
  --help       print this help
  --version    print the version

Status: 0 fine, 1 a report that breaks a clause, 2 usage, 3 a text that can't
be run or is no report, 4 a fault of reading, 5 a fault of writing, 6 want of
memory, 7 an actor made 1,048,576 entries.
";

/// What `hx --version` prints.
const VERSION: &[u8] = b"hx 0.1.0\n";

/// Why the line of an outcome wasn't printed.
#[derive(Clone, Copy, PartialEq, Eq)]
enum Unprinted {
    /// There was no room for the line.
    Memory,
    /// The sink failed; a prefix of the line was printed.
    WriteFault,
}

impl From<Memory> for Unprinted {
    ghost use Rattle.hx_command.specs.declared.program.Unprinted.TheVariants as a_reason;

    ghost from_gives = { λ _ reason. reason ≡ a_reason.Memory };

    fn from(_: Memory) -> Self {
        Unprinted::Memory
    }
}

/// Runs the program on the words of the process, and gives the status with which it ends.
///
/// The line of its outcome goes to `errors`. Where that can't be printed, the status alone tells.
pub fn run<R, S, K, E>(rt: &R, source: &mut S, sink: &mut K, errors: &mut E) -> u8
where
    R: Env + AllocGlobal + Threads + Wait + Sync,
    S: Source,
    K: Sink,
    E: Sink,
    // The status is that of the call with some words, or that of words that couldn't be read, with
    // which nothing is read or written; and the line of that outcome was printed.
    ensures told { (outcome : Outcome) × (result ≡ status_of outcome)
        × (((words : List (String Global)) × EndsProgram words (drawn S.Source source.old source.new) (filled K.Sink sink.old sink.new) outcome)
        ⊎ (IsUnread outcome × (source.new ≡ source.old) × (sink.new ≡ sink.old)))
        × Prints (filled E.Sink errors.old errors.new) (fault_line outcome) }

    // With status 0 what was asked was shown, or the answer to the source's text was written.
    ensures fine { result ≡ 0 → (words : List (String Global)) × (
        ((question : Question) × Asks words question × Appends (K.held sink.old) (K.held sink.new) (shown_text question))
        ⊎ ((h : Handed) × Answers words (drawn S.Source source.old source.new) (filled K.Sink sink.old sink.new) h)) }

    // The status is that of the outcome: a fault has its cause, and only an answer is written.
    ensures read_fault { result ≡ 4 → Rose (S.faults source.old) (S.faults source.new) }
    ensures write_fault { result ≡ 5 → Rose (K.faults sink.old) (K.faults sink.new) }
    ensures silent { result ≢ 0 → result ≢ 5 → sink.new ≡ sink.old }
{
    let outcome = match words_of(rt) {
        Ok(words) => command(rt, rt.alloc(), words.as_slice(), source, sink),
        Err(outcome) => outcome,
    };
    let _printed = print_outcome(rt.alloc(), errors, &outcome);
    status(outcome)
}

/// Answers `--help` and `--version`, and hands all other words on.
fn command<R: Threads + Wait + Sync, S: Source, K: Sink>(
    rt: &R,
    alloc: Global,
    words: &[String],
    source: &mut S,
    sink: &mut K,
) -> Outcome
    ensures shown { (question : Question) → Asks words.now question → Shows (filled K.Sink sink.old sink.new) (shown_text question) result }
    ensures unread { (question : Question) → Asks words.now question → source.new ≡ source.old }
    ensures told { ((question : Question) → ¬ Asks words.now question) → Told words.now (drawn S.Source source.old source.new) (filled K.Sink sink.old sink.new) result }
    ensures fine { result ≡ Outcome.Fine →
        ((question : Question) × Asks words.now question × Appends (K.held sink.old) (K.held sink.new) (shown_text question))
        ⊎ ((h : Handed) × Answers words.now (drawn S.Source source.old source.new) (filled K.Sink sink.old sink.new) h) }
    ensures read_fault { result ≡ Outcome.ReadFault → Rose (S.faults source.old) (S.faults source.new) }
    ensures write_fault { result ≡ Outcome.WriteFault → Rose (K.faults sink.old) (K.faults sink.new) }
    ensures silent { IsSilent result → sink.new ≡ sink.old }
{
    if let Some(Request::Question(question)) = request_of(words) {
        return show(sink, shown_text(question));
    }
    called(rt, alloc, words, source, sink)
}

/// How many drivers the words may start, and the seed that their fates draw from, where they say
/// one.
fn drivers_of(words: &[String]) -> (u32, Option<u64>)
    ensures { HasEnough words.now result.0 }
{
    match request_of(words) {
        Some(Request::Run(run)) => (MOST_DRIVERS, run.seed),
        Some(Request::Soak(soak)) => (soak.workers, None),
        _ => (0, None),
    }
}

/// Makes the call with fates that lose and repeat by number, or by a draw where the words say a
/// seed, and a gate that holds nobody.
fn called<R: Threads + Wait + Sync, S: Source, K: Sink>(
    rt: &R,
    alloc: Global,
    words: &[String],
    source: &mut S,
    sink: &mut K,
) -> Outcome
    ensures told { Told words.now (drawn S.Source source.old source.new) (filled K.Sink sink.old sink.new) result }
    ensures fine { result ≡ Outcome.Fine → (h : Handed) × Answers words.now (drawn S.Source source.old source.new) (filled K.Sink sink.old sink.new) h }
    ensures read_fault { result ≡ Outcome.ReadFault → Rose (S.faults source.old) (S.faults source.new) }
    ensures write_fault { result ≡ Outcome.WriteFault → Rose (K.faults sink.old) (K.faults sink.new) }
    ensures silent { IsSilent result → sink.new ≡ sink.old }
{
    let mut fates: Vec<Box<dyn Fate + Send>> = Vec::new(alloc);
    let (drivers, seed) = drivers_of(words);
    for driver in 0..drivers {
        let Ok(fate) = Box::new(alloc, Losing::new(seed, driver)) else {
            return Outcome::Memory;
        };
        let Ok(()) = fates.push(fate) else {
            return Outcome::Memory;
        };
    }
    let Finished { done, ports, .. } = hyperstore(rt, alloc, words, source, sink, fates, &Open);
    drop(ports);
    let Done {
        outcome,
        traces,
        ..
    } = done;
    let _left = ManuallyDrop::new(traces);
    outcome
}

/// The words of the process without the program's name. A word that isn't UTF-8 is no command.
fn words_of<R: Env + AllocGlobal>(rt: &R) -> Result<Vec<String>, Outcome>
    ensures { IfErr result (λ outcome. (outcome ≡ Outcome.Memory) ⊎ (outcome ≡ Outcome.Usage)) }
{
    let mut words = Vec::new(rt.alloc());
    let all = env::args(rt).map_err(|error| match error.kind() {
        io::ErrorKind::OutOfMemory => Outcome::Memory,
        _ => Outcome::Usage,
    })?;
    for word in all.skip(1) {
        words.push(word).map_err(|_| Outcome::Memory)?;
    }
    Ok(words)
}

/// What is shown to a question.
fn shown_text(question: Question) -> &'static [u8]
    ensures { result.now ≡ shown_text question }
{
    match question {
        Question::Help => HELP,
        Question::Version => VERSION,
    }
}

fn show<K: Sink>(sink: &mut K, text: &[u8]) -> Outcome
    ensures { Shows (filled K.Sink sink.old sink.new) text.now result }
{
    match write_all(sink, text) {
        Ok(()) => Outcome::Fine,
        Err(_) => Outcome::WriteFault,
    }
}

/// Prints an outcome's line.
fn print_outcome<E: Sink>(alloc: Global, errors: &mut E, outcome: &Outcome) -> Result<(), Unprinted>
    ensures printed { OnOk result (Appends (E.held errors.old) (E.held errors.new) (fault_line outcome.now)) }
    ensures fault { IsErrOf result Unprinted.WriteFault → Rose (E.faults errors.old) (E.faults errors.new)
        × AppendsPrefix (E.held errors.old) (E.held errors.new) (fault_line outcome.now) }
    ensures memory { IsErrOf result Unprinted.Memory → errors.new ≡ errors.old }
{
    let line = fault_text(alloc, outcome)?;
    match write_all(errors, line.as_slice()) {
        Ok(()) => Ok(()),
        Err(_) => Err(Unprinted::WriteFault),
    }
}
