//! A picture of a run: reads the report of `hx replay --trace` on standard input, and writes a
//! space-time diagram of it as SVG on standard output, one below the other where it has several
//! spaces.
//!
//! Every actor has a line, time runs down, each entry is a point on the line of its actor, and each
//! delivery an arrow from the entry that made the post; a post that was never delivered ends in
//! nothing. That is the form of Lamport's diagrams; what is drawn of a message is this project's
//! choice. Nothing is proved of the picture but that making it is safe and ends.
#![tactic(auto)]

mod actors;
mod drawing;
mod errors;
mod labels;
mod layout;
mod runs;
mod svg;

use errors::PictureError;
use hx_io::{Sink, Source, StdSink, StdSource, read_all, write_all};
use hx_types::LONGEST_SCRIPT;
use std::alloc::Global;
use std::process::ExitCode;
use std::rt::Env;
use std::{env, str};

/// The most bytes of a report that are read: a few for each byte of a longest script.
const LONGEST_REPORT: usize = 4 * LONGEST_SCRIPT;

fn main(rt: HostRuntime) -> ExitCode {
    let mut source = StdSource::new(rt.stdin());
    let mut sink = StdSink::new(rt.stdout());
    match draw(&rt, &mut source, &mut sink) {
        Ok(()) => ExitCode::from(0),
        Err(error) => {
            let _printed = eprintln!(rt; "{error}");
            ExitCode::from(error.status())
        }
    }
}

/// Reads a report from the source and writes its picture into the sink.
fn draw<R, S, K>(rt: &R, source: &mut S, sink: &mut K) -> Result<(), PictureError>
where
    R: Env + AllocGlobal,
    S: Source,
    K: Sink,
{
    let alloc = rt.alloc();
    if env::args(rt)?.count() > 1 {
        return Err(PictureError::Usage);
    }
    let bytes = read_all(alloc, source, LONGEST_REPORT)?;
    let picture = picture_of(alloc, bytes.as_slice())?;
    write_all(sink, picture.as_bytes())?;
    Ok(())
}

/// The picture of a report.
fn picture_of(alloc: Global, bytes: &[u8]) -> Result<String, PictureError> {
    let Ok(text) = str::from_utf8(bytes) else {
        return Err(PictureError::NoReport { line: 1 });
    };
    let runs = runs::read_runs(alloc, text)?;
    drawing::picture(alloc, runs.as_slice())
}
