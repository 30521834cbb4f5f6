//! The configurations of a report.

use hx_types::{Epoch, RegionList, Sequence, ServerList};

/// A configuration: its epoch, its servers in ascending order, and the regions that are lost in it.
pub struct EpochLine {
    pub epoch: Epoch,
    pub servers: ServerList,
    pub lost: RegionList,
}

impl Drop for EpochLine {
    fn drop(self) {
        let EpochLine {
            epoch: _,
            servers: _,
            lost: _,
        } = self;
    }
}

/// Configurations by epoch.
pub type EpochLines = Sequence<EpochLine>;
