//! The program `hx`: it reads a script, runs it or plans its searches, and writes what came of it;
//! or judges a report.
//!
//! `hx_command::run` says of any source and sinks what the status tells; that the words are those
//! of the process, and the streams its standard ones, is what `main` adds.
//!
//! That `main` does no more than this is this project's choice.
#![tactic(auto)]

use hx_command::run;
use hx_io::{StdSink, StdSource};
use std::process::ExitCode;

fn main(rt: HostRuntime) -> ExitCode {
    let mut source = StdSource::new(rt.stdin());
    let mut sink = StdSink::new(rt.stdout());
    let mut errors = StdSink::new(rt.stderr());
    ExitCode::from(run(&rt, &mut source, &mut sink, &mut errors))
}
