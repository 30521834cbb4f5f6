ghost use Rattle.std.specs.Prelude.{ℕ, ◌≡◌, ◌==◌, ◌≤◌, ◌<◌, ◌^◌, ◌+◌, ◌++◌, drop, length, OnOk};
ghost use Rattle.std.proofs.Common.{rules};
ghost use Rattle.std.specs.Cmp.{partial_order_from_own_ties};
ghost use Rattle.std.specs.Cmp.Rules.{comparing};
ghost use Rattle.std.specs.Iterator.{YieldsFirst, item_count};
ghost use Rattle.std.specs.Ordering.{as_partial_cmp, nat_cmp, on};
ghost use Rattle.hx_gather.specs.Stretches.{IsRunIn, following, places_in, stretches_from};

use hx_clock::Part;
use hx_trace::EntryPlace;
use hx_types::Memory;
use std::cmp::Ordering;
use std::marker::Model;

/// Entries of a part whose stamps follow one another, so that no other part has one between them.
/// Two are compared by their first stamps alone.
#[derive(Drop)]
pub(crate) struct Stretch<'a> {
    part: &'a Part,
    // The part's place among all parts.
    place: u16,
    // The place in the part of the first entry, and that after the last.
    at: u32,
    end: u32,
    stamp: u64,
}

impl<'a> Model for Stretch<'a> {
    ghost use Rattle.std.specs.Prelude.{slice_range};
    ghost use Rattle.hx_gather.specs.Stretches.{StretchSeen, IsRunIn};

    ghost Value = { StretchSeen };

    ghost view = { λ s. record { part = s.place; at = s.at; stamp = s.stamp; entries = slice_range s.part.now s.at s.end } };

    ghost invariant = { λ s. IsRunIn s.part.now s.at s.end };
}

impl<'a> PartialEq for Stretch<'a> {
    ghost eq = { on (λ s. s.stamp) ◌==◌ };

    ghost laws = { Prim.search (comparing, rules) };

    fn eq(&self, other: &Stretch<'a>) -> bool {
        self.stamp == other.stamp
    }
}

impl<'a> Eq for Stretch<'a> {
    ghost laws = { Prim.search (comparing, rules) };
}

impl<'a> Ord for Stretch<'a> {
    ghost cmp = { on (λ s. s.stamp) nat_cmp };

    ghost total = { Prim.search (comparing, rules) };

    ghost matches_partial_cmp = { Prim.search (comparing, rules) };

    ghost matches_eq = { Prim.search (comparing, rules) };

    fn cmp(&self, other: &Stretch<'a>) -> Ordering {
        self.stamp.cmp(&other.stamp)
    }
}

impl<'a> PartialOrd for Stretch<'a> {
    ghost partial_cmp = { as_partial_cmp (on (λ s. s.stamp) nat_cmp) };

    ghost laws = { partial_order_from_own_ties (Prim.search (comparing, rules)) (Prim.search (comparing, rules)) };

    fn partial_cmp(&self, other: &Stretch<'a>) -> Option<Ordering> {
        Some(self.cmp(other))
    }
}

impl<'a> Stretch<'a> {
    /// Puts the places of its entries at the end.
    pub(crate) fn put_places(&self, places: &mut Vec<EntryPlace>) -> Result<(), Memory>
        ensures { OnOk result (places.new.items ≡ places.old.items ++ places_in self.now) }
    {
        places.reserve((self.end - self.at) as usize)?;
        for at in self.at..self.end {
            places.push_reserved(EntryPlace {
                part: self.place,
                at,
                has_notes: self.part.has_notes(at as usize),
            });
        }
        Ok(())
    }
}

/// The stretches of a part that are left, in order. Contracts see them.
#[derive(Drop)]
pub(crate) struct Stretches<'a> {
    part: &'a Part,
    place: u16,
    at: u32,
}

impl<'a> Model for Stretches<'a> {
    ghost use Rattle.std.specs.Prelude.{List, drop, length};
    ghost use Rattle.hx_gather.specs.Stretches.{StretchSeen, IsRunIn, stretches_from};

    ghost Value = { List StretchSeen };

    ghost view = { λ s. stretches_from s.place s.at (drop s.at s.part.now) };

    ghost invariant = { λ s. IsRunIn s.part.now s.at (length s.part.now) };
}

impl<'a> Stretches<'a> {
    /// The stretches of the part that has this place among all parts.
    pub(crate) fn new(place: u16, part: &'a Part) -> Stretches<'a>
        requires few { length part.now < 2 ^ 32 }
        ensures { result ≡ stretches_from place 0 part.now }
    {
        Stretches { part, place, at: 0 }
    }
}

impl<'a> Iterator for Stretches<'a> {
    type Item = Stretch<'a>;

    ghost next_gives = { YieldsFirst (λ stretches. stretches) };

    ghost remaining = { item_count (λ stretches. stretches) };

    fn next(&mut self) -> Option<Stretch<'a>> {
        let at = self.at;
        if at as usize >= self.part.len() {
            return None;
        }
        let stamp = self.part.stamp(at as usize).0;
        let end = at + count_following(self.part, at, stamp);
        self.at = end;
        Some(Stretch {
            part: self.part,
            place: self.place,
            at,
            end,
            stamp,
        })
    }
}

/// How many entries of a part, from a place on, have stamps that follow one another, from this one
/// on.
fn count_following(part: &Part, at: u32, stamp: u64) -> u32
    requires { IsRunIn part.now at (length part.now) }
    ensures count { result ≡ following stamp (drop at part.now) }
    ensures bound { at + result ≤ length part.now }
{
    let entries = part.len() as u32 - at;
    for count in 0..entries {
        let next = part.stamp((at + count) as usize).0;
        if next < stamp || next - stamp != u64::from(count) {
            return count;
        }
    }
    entries
}
