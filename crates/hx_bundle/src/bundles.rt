use hx_types::{Script, Sequence, Step};

/// The scripts of spaces, in the order in which these were declared.
pub type Scripts = Sequence<Script>;

/// For each session the spaces of its calls in order, numbered from 0.
pub type Turns = Sequence<Sequence<u32>>;

/// A step of one of several spaces, with the number of its line.
#[derive(Clone, Copy)]
pub struct BundleStep {
    pub line: u64,
    /// The space in which it is taken, from 0.
    pub space: u32,
    pub step: Step,
}

/// The steps in order, whatever their spaces.
pub type BundleSteps = Sequence<BundleStep>;

/// The scripts of 1 to [`MOST_SPACES`](crate::MOST_SPACES) spaces, with no steps of their own, the
/// spaces of each session's calls in order, and the first steps.
///
/// A session's calls to a space stand in the script of that space. So its next call is the next one
/// of the script of its next turn.
pub struct Bundle {
    pub spaces: Scripts,
    pub turns: Turns,
    pub steps: BundleSteps,
}

impl Drop for Bundle {
    fn drop(self) {
        let Bundle {
            spaces: _,
            turns: _,
            steps: _,
        } = self;
    }
}
