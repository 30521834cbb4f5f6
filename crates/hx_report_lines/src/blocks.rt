//! The part of a report that is of one space.

use crate::calls::CallLines;
use crate::epochs::EpochLines;
use crate::histories::Histories;
use hx_types::{Sequence, Space, Text, Totals};

/// What a driver did with the posts of its actors.
#[derive(Clone, Copy)]
pub struct DriverLine {
    /// The number of the driver.
    pub driver: u32,
    pub totals: Totals,
}

/// Lines of drivers.
pub type DriverLines = Sequence<DriverLine>;

/// Lines of a trace as they stand, each without its newline.
pub type RawLines = Sequence<Text>;

/// What a report has of one space.
pub struct Block {
    pub space: Space,
    pub calls: CallLines,
    pub histories: Histories,
    pub epochs: EpochLines,
    /// The entries of the trace and their posts: each line begins with `entry ` or `post `.
    pub raw: RawLines,
    pub drivers: DriverLines,
}

impl Drop for Block {
    fn drop(self) {
        let Block {
            space: _,
            calls: _,
            histories: _,
            epochs: _,
            raw: _,
            drivers: _,
        } = self;
    }
}

/// The blocks of a report, one for each space.
pub type Blocks = Sequence<Block>;
