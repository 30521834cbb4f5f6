ghost use Rattle.std.specs.Prelude.{◌≡◌, ◌<◌, length};
ghost use Rattle.hx_trace.specs.Places.{IsPlaceIn, part_at};

use hx_clock::Part;

/// The place of an entry of a part: which of its entries stands next in a trace.
#[derive(Clone, Copy)]
pub struct EntryPlace {
    /// The part's place among all parts, from 0.
    pub part: u16,
    /// The entry's place in its part, from 0.
    pub at: u32,
    /// Whether the entry has notes: most have none, and need not be looked at for them.
    pub has_notes: bool,
}

/// The part in which an entry has its place.
#[inline(always)]
pub fn part_at_place(parts: &[Part], place: EntryPlace) -> &Part
    requires { IsPlaceIn parts.now place }
    ensures part { result.now ≡ part_at parts.now place.part }
    ensures there { place.at < length result.now }
{
    &parts[place.part as usize]
}
