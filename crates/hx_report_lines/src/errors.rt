//! Why a text isn't read as a report.

ghost use Rattle.std.specs.Prelude.{◌≡◌};
ghost use Rattle.hx_report_lines.specs.declared.errors.Stop.TheVariants as stops;

use std::alloc::{AllocError, AllocFailed};

/// Why there is no report.
#[derive(Clone, Copy, Debug, PartialEq, Eq)]
pub enum AuditError {
    /// Memory was wanting.
    Memory,
    /// The line, from 1, isn't one that may come behind those before it, or is the one after the
    /// last where more lines are wanting.
    Unread { line: u64 },
}

/// Why a line, or a part of one, isn't read.
#[derive(Clone, Copy)]
pub(crate) enum Stop {
    Memory,
    Unread,
}

impl From<hx_types::Memory> for Stop {
    ghost from_gives = { λ _ e. e ≡ stops.Memory };

    fn from(_: hx_types::Memory) -> Stop {
        Stop::Memory
    }
}

impl From<AllocError> for Stop {
    ghost from_gives = { λ _ e. e ≡ stops.Memory };

    fn from(_: AllocError) -> Stop {
        Stop::Memory
    }
}

impl<T: Drop> From<AllocFailed<T>> for Stop {
    ghost from_gives = { λ _ e. e ≡ stops.Memory };

    fn from(_: AllocFailed<T>) -> Stop {
        Stop::Memory
    }
}
