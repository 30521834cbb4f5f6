ghost use Rattle.std.specs.Prelude.{◌≡◌, map, slice_get, slice_set, true, false, IfNone, IfSome, IsSomeAnd};
ghost use Rattle.std.specs.List.{list_all, list_any};
ghost use Rattle.hx_session.specs.declared.parts.SearchPart.{SearchPart as PartOf};
ghost use Rattle.hx_session.specs.Changes.{afresh, is_found, lacks_rows, part_seen, parts_after};

use hx_types::{RegionId, Rows, Sequence};
use std::alloc::Global;

/// The rows of a region that a search asked: none until it has answered.
pub struct SearchPart {
    pub region: RegionId,
    pub rows: Option<Rows>,
}

impl Drop for SearchPart {
    fn drop(self) {
        let SearchPart { region: _, rows: _ } = self;
    }
}

/// The parts of a search, in ascending order of regions.
pub type Parts = Sequence<SearchPart>;

/// How a step changes the parts of a search.
pub enum PartsChange {
    Stay,
    /// There are these parts instead.
    Replace(Parts),
    /// There is another part at a place.
    Put { place: usize, part: SearchPart },
}

impl Drop for PartsChange {
    fn drop(self) {
        match self {
            Self::Stay => {}
            Self::Replace(_) => {}
            Self::Put { place: _, part: _ } => {}
        }
    }
}

impl PartsChange {
    /// The same change where there were no parts before. It takes no memory.
    pub fn afresh(self, alloc: Global) -> PartsChange
        ensures { result ≡ afresh self }
    {
        match self {
            PartsChange::Replace(parts) => PartsChange::Replace(parts),
            PartsChange::Stay => PartsChange::Replace(Parts::new(alloc)),
            PartsChange::Put { place: _, part: _ } => PartsChange::Replace(Parts::new(alloc)),
        }
    }

    /// Makes the change of the parts. It takes no memory.
    pub fn apply(self, parts: &mut Parts)
        ensures { map part_seen parts.new ≡ parts_after (map part_seen parts.old) self }
    {
        match self {
            PartsChange::Stay => {}
            PartsChange::Replace(others) => *parts = others,
            PartsChange::Put { place, part } => put_part(parts, place, part),
        }
    }
}

fn put_part(parts: &mut Parts, place: usize, part: SearchPart)
    ensures { map part_seen parts.new ≡ slice_set (map part_seen parts.old) place (part_seen part) }
{
    if place < parts.len() {
        parts.set(place, part);
    }
}

/// The place of the region's part, where it has no rows yet.
pub fn lacking(parts: &[SearchPart], region: RegionId) -> Option<usize>
    ensures none { IfNone result (list_any (lacks_rows region) parts.now ≡ false) }
    ensures some { IfSome result (λ place. list_any (lacks_rows region) parts.now ≡ true) }
    ensures region { IfSome result (λ place. IsSomeAnd (slice_get parts.now place) (λ (p : PartOf). p.region ≡ region)) }
{
    for (place, part) in parts.iter().enumerate() {
        if part.region == region && part.rows.is_none() {
            return Some(place);
        }
    }
    None
}

/// Whether every part has rows once the region's has.
pub fn all_found(parts: &[SearchPart], region: RegionId) -> bool
    ensures { result ≡ list_all (is_found region) parts.now }
{
    parts
        .iter()
        .all(|part| part.region == region || part.rows.is_some())
}
