ghost use Rattle.std.specs.Prelude.{◌≡◌, ◌<◌, ◌≤◌, ◌^◌, ◌↔◌, [], ◌∷◌, ◌++◌, length, slice_get, OnOk, OnErr, IsTrue};
ghost use Rattle.std.specs.Iterator.Adapters.{IterYieldsInOrder};
ghost use Rattle.std.specs.Iterator.Runs.{EveryRun, ItemsMapTo};
ghost use Rattle.std.specs.Option.{option_copied};
ghost use Rattle.std.specs.Slice.Iter.{iter_rest, iter_steps};

use crate::copies::Exact;
use crate::errors::Memory;
use crate::updates::Place;
use smallvec::SmallVec;
use std::alloc::{AllocError, Global};
use std::marker::Model;
use std::slice;

/// The places of an update in the order of its chain: at most [`MOST_PLACES`](crate::MOST_PLACES).
/// Contracts see them as that list.
///
/// Up to five of them, as many as an update of two declared subspaces can have, are kept in the
/// value itself.
pub struct Places {
    items: SmallVec<Place, 5>,
}

/// The parts are let go here alone: who drops places has nothing to prove of them.
impl Drop for Places {
    fn drop(self) {
        let Places { items: _ } = self;
    }
}

impl Model for Places {
    ghost use Rattle.std.specs.Prelude.{List};
    ghost use Rattle.hx_types.specs.declared.updates.Place.{Place};

    ghost Value = { List Place };

    ghost view = { λ p. p.items.items };
}

impl Places {
    /// No place. It takes no memory.
    pub fn new(alloc: Global) -> Self
        ensures { result ≡ [] }
    {
        Places {
            items: SmallVec::new(alloc),
        }
    }

    /// The places as a slice.
    pub fn as_slice(&self) -> &[Place]
        ensures { result.now ≡ self.now }
    {
        self.items.as_slice()
    }

    /// How many places there are.
    pub fn len(&self) -> usize
        ensures { result ≡ length self.now }
    {
        self.items.len()
    }

    /// Whether there is no place.
    pub fn is_empty(&self) -> bool
        ensures { IsTrue result ↔ (self.now ≡ []) }
    {
        self.as_slice().is_empty()
    }

    /// The place with a number from 0, or `None` past the end.
    pub fn get(&self, number: usize) -> Option<&Place>
        ensures { option_copied result ≡ slice_get self.now number }
    {
        self.as_slice().get(number)
    }

    /// The places in order.
    pub fn iter(&self) -> slice::Iter<'_, Place>
        ensures rest { iter_rest result ≡ self.now }
        ensures bound { length (iter_rest result) < 2 ^ 64 }
        ensures runs { IterYieldsInOrder Place }
    {
        self.as_slice().iter()
    }

    /// Adds a place at the end. Where there is no memory the places stay.
    pub fn push(&mut self, place: Place) -> Result<(), Memory>
        ensures ok { OnOk result (self.new ≡ self.old ++ place ∷ []) }
        ensures err { OnErr result (self.new ≡ self.old) }
    {
        self.items.push(place)?;
        Ok(())
    }
}

impl<'a> IntoIterator for &'a Places {
    ghost use Rattle.hx_types.specs.declared.updates.Place.{Place};

    type Item = &'a Place;

    type IntoIter = slice::Iter<'a, Place>;

    ghost into_iter_gives = { λ s it. (iter_rest it ≡ s.now) × (length (iter_rest it) < 2 ^ 64)
        × EveryRun (iter_steps {A = Place}) (λ p. ItemsMapTo p (λ x. x.now) (iter_rest p.from)) };

    fn into_iter(self) -> slice::Iter<'a, Place> {
        self.as_slice().iter()
    }
}

impl Clone for Places {
    ghost is_clone = { λ x y. y ≡ x };

    fn clone(&self) -> Result<Places, AllocError> {
        let items = SmallVec::from_slice(*self.items.allocator(), self.as_slice())?;
        Ok(Places { items })
    }
}

impl Exact for Places {
    ghost exact = { λ x y e. e };
}
