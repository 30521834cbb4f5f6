ghost use Rattle.std.specs.Prelude.{◌≡◌, ◌++◌, map};
ghost use Rattle.std.specs.Iterator.{YieldsFirstBy, item_count};
ghost use Rattle.hx_trace.specs.Entries.{entry_seen};

use crate::heads::Head;
use crate::lists::{Lists, entry_in_part, entry_of};
use crate::places::EntryPlace;
use hx_clock::EntryRef;
use std::marker::Model;

/// The entries of a trace in order.
#[derive(Drop)]
pub struct Entries<'a> {
    pub(crate) places: &'a [EntryPlace],
    pub(crate) heads: &'a [Head],
    pub(crate) lists: &'a Lists,
}

impl<'a> Model for Entries<'a> {
    ghost use Rattle.std.specs.Prelude.{List};
    ghost use Rattle.hx_types.specs.declared.traces.Entry.{Entry};
    ghost use Rattle.hx_trace.specs.Lists.{AreIn, entries_of};

    ghost Value = { List Entry };

    ghost view = { λ e. entries_of e.lists.now e.places.now e.heads.now };

    ghost invariant = { λ e. AreIn e.lists.now e.places.now e.heads.now };
}

impl<'a> Iterator for Entries<'a> {
    type Item = EntryRef<'a>;

    ghost next_gives = { YieldsFirstBy entry_seen (λ entries. entries) };

    ghost remaining = { item_count (λ entries. entries) };

    #[inline(always)]
    fn next(&mut self) -> Option<EntryRef<'a>> {
        if let Some((place, rest)) = self.places.split_first() {
            self.places = rest;
            return Some(entry_in_part(self.lists, *place));
        }
        let (head, rest) = self.heads.split_first()?;
        self.heads = rest;
        Some(entry_of(self.lists, head, rest.first()))
    }
}
