//! Printed reports as values: what a report has of each space, its text, and reading it.
//!
//! A [`Report`] is of version 1, with one block, or of version 2, with one block or more. A
//! [`Block`] has a space, the calls of its sessions, the histories of its keys, its configurations,
//! the lines of its trace and those of drivers. What its type keeps is told in `specs/Values.antt`.
//! Its text is that which `hx_report` writes (`specs/Printed.antt`), a line for each thing; the
//! several spaces of version 2 are this project's choice, as all of the format is.
//!
//! [`print_report`] gives the text. [`read_report`] reads it line by line: it takes each line apart
//! loosely, texts and values by the reader of calls, prints what it found, and keeps it where that
//! is the line. So what is read has exactly the text (`ok`), and a text that no report has is never
//! read (`total`). A text is refused only where no report has it, and at the first line at which
//! the lines so far begin no report's text, or at the one after the last (`unread` and
//! `specs/Unread.antt`).
//!
//! No contract says that there is memory, so functions that always answered `Memory` would be
//! proved. Tests in another crate show each succeed.
#![tactic(auto)]

// Where the definitions of `specs/` speak of a type of these modules it is `pub`. None of them is
// handed out but those below.
mod answers;
mod blocks;
mod call_lines;
mod calls;
mod cursor;
mod drafts;
mod epochs;
mod errors;
mod histories;
mod items;
mod kinds;
mod printing;
mod reading;
mod reports;
mod tails;
mod values;

pub use blocks::{Block, Blocks, DriverLine, DriverLines, RawLines};
pub use calls::{CallLine, CallLines};
pub use epochs::{EpochLine, EpochLines};
pub use errors::AuditError;
pub use histories::{Histories, HistoryLines, ItemLine, ItemLines, ItemWord};
pub use printing::print_report;
pub use reading::read_report;
pub use reports::Report;
