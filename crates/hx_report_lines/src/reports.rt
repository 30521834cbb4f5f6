//! Reports.

ghost use Rattle.std.specs.Prelude.{◌≡◌};
ghost use Rattle.hx_report_lines.specs.Values.{IsReportValue};

use crate::blocks::Blocks;
use std::marker::Model;

/// A report: its version, and a block for each space.
///
/// Its type keeps that it is one that some text tells (`IsReportValue` in `specs/Values.antt`): the
/// version is 1 or 2, and of 1 there is one block; all in a block is of its space; calls, histories
/// and configurations ascend by caller, key and epoch; each history has items.
pub struct Report {
    version: u32,
    blocks: Blocks,
}

impl Drop for Report {
    fn drop(self) {
        let Report {
            version: _,
            blocks: _,
        } = self;
    }
}

impl Model for Report {
    ghost use Rattle.hx_report_lines.specs.Values.{ReportValue, IsReportValue};

    ghost Value = { ReportValue };

    ghost view = { λ r. record { version = r.version; blocks = r.blocks } };

    ghost invariant = { λ r. IsReportValue (record { version = r.version; blocks = r.blocks }) };
}

impl Report {
    /// The report of this version and these blocks.
    pub(crate) fn new(version: u32, blocks: Blocks) -> Report
        requires { IsReportValue (record { version = version; blocks = blocks }) }
        ensures { result ≡ record { version = version; blocks = blocks } }
    {
        Report { version, blocks }
    }

    /// The version of the format: 1, or 2 where there may be several spaces.
    pub fn version(&self) -> u32
        ensures value { result ≡ self.now.version }
        ensures sound { IsReportValue self.now }
    {
        self.version
    }

    /// The blocks in order, one at least.
    pub fn blocks(&self) -> &Blocks
        ensures value { result.now ≡ self.now.blocks }
        ensures sound { IsReportValue self.now }
    {
        &self.blocks
    }
}
