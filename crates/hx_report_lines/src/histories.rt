//! The histories of a report.

use hx_types::{Caller, Object, Sequence, Text, Version};

/// What a call is answered, as an item of a history tells it.
#[derive(Clone, Copy, PartialEq, Eq)]
pub enum ItemWord {
    /// The write was done.
    Done,
    /// There was no object of the key.
    NotFound,
    /// A tested value differed.
    CmpFail,
    /// A get found the object.
    Found,
    /// A sum was no number of 64 bits.
    Overflow,
    /// A text would have had too many bytes.
    TooLong,
}

/// A call in the history of a key, with the object after it.
pub struct ItemLine {
    /// The version that the call made, or the one that a get read.
    pub version: Version,
    /// Who called.
    pub caller: Caller,
    /// What it was answered.
    pub word: ItemWord,
    /// The object after the call; `None` where there was none.
    pub object: Option<Object>,
}

impl Drop for ItemLine {
    fn drop(self) {
        let ItemLine {
            version: _,
            caller: _,
            word: _,
            object: _,
        } = self;
    }
}

/// The items of a history, the oldest first.
pub type ItemLines = Sequence<ItemLine>;

/// The history of a key: one item at least.
pub struct HistoryLines {
    pub key: Text,
    pub items: ItemLines,
}

impl Drop for HistoryLines {
    fn drop(self) {
        let HistoryLines { key: _, items: _ } = self;
    }
}

/// Histories in byte order of keys.
pub type Histories = Sequence<HistoryLines>;
