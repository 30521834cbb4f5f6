use hx_io::{ReadError, WriteFault};
use hx_types::Memory;
use std::alloc::{AllocError, AllocFailed};
use std::{fmt, io};

/// The most entries that a picture shows: beyond them nobody can read it.
pub const MOST_DRAWN: usize = 600;

/// Why there is no picture.
#[derive(Clone, Copy)]
pub enum PictureError {
    /// There are words, and the program takes none.
    Usage,
    /// The line isn't one of a report.
    NoReport { line: usize },
    /// The report has no entries: it was written without `--trace`, or nothing was done.
    NoTrace,
    /// The run has more entries than [`MOST_DRAWN`].
    TooLong { entries: usize },
    /// The input has more bytes than are read.
    TooLarge,
    /// Standard input failed.
    ReadFault,
    /// Standard output failed; a prefix was written.
    WriteFault,
    /// There was no room.
    Memory,
}

impl PictureError {
    /// The status with which the program ends, as those of `hx`.
    pub fn status(self) -> u8 {
        match self {
            PictureError::Usage => 2,
            PictureError::NoReport { .. }
            | PictureError::NoTrace
            | PictureError::TooLong { .. }
            | PictureError::TooLarge => 3,
            PictureError::ReadFault => 4,
            PictureError::WriteFault => 5,
            PictureError::Memory => 6,
        }
    }
}

impl fmt::Display for PictureError {
    fn fmt<W: fmt::Write>(&self, f: &mut fmt::Formatter<W>) -> fmt::Result {
        match self {
            PictureError::Usage => f.write_str("usage: hx picture < REPORT"),
            PictureError::NoReport { line } => write!(f, "line {line}: no line of a report"),
            PictureError::NoTrace => {
                f.write_str("no entries: write the report with hx replay --trace")
            }
            PictureError::TooLong { entries } => {
                write!(f, "{entries} entries: a picture has at most {MOST_DRAWN}")
            }
            PictureError::TooLarge => f.write_str("too large"),
            PictureError::ReadFault => f.write_str("read fault"),
            PictureError::WriteFault => f.write_str("write fault"),
            PictureError::Memory => f.write_str("no memory"),
        }
    }
}

impl From<AllocError> for PictureError {
    fn from(_: AllocError) -> Self {
        PictureError::Memory
    }
}

impl<T: Drop> From<AllocFailed<T>> for PictureError {
    fn from(_: AllocFailed<T>) -> Self {
        PictureError::Memory
    }
}

impl From<Memory> for PictureError {
    fn from(_: Memory) -> Self {
        PictureError::Memory
    }
}

impl From<ReadError> for PictureError {
    fn from(error: ReadError) -> Self {
        match error {
            ReadError::Memory => PictureError::Memory,
            ReadError::ReadFault => PictureError::ReadFault,
            ReadError::TooLarge => PictureError::TooLarge,
        }
    }
}

impl From<WriteFault> for PictureError {
    fn from(_: WriteFault) -> Self {
        PictureError::WriteFault
    }
}

impl From<io::Error> for PictureError {
    fn from(_: io::Error) -> Self {
        PictureError::ReadFault
    }
}
