ghost use Rattle.std.specs.Prelude.{◌≡◌, ◌<◌, ◌^◌, ◌↔◌, [], ◌∷◌, ◌++◌, length, slice_get, slice_set, OnOk, OnErr, IfOk, IsTrue};
ghost use Rattle.std.specs.Iterator.Adapters.{IterYieldsInOrder};
ghost use Rattle.std.specs.Iterator.Runs.{EveryRun, ItemsMapTo};
ghost use Rattle.std.specs.Option.{option_copied};
ghost use Rattle.std.specs.Slice.Iter.{iter_rest, iter_steps};
ghost use Rattle.hx_types.specs.Lists.{items_of};

use crate::copies::{Exact, Same};
use crate::errors::Memory;
use crate::lists::{all_same, clone_all};
use std::alloc::{AllocError, Global};
use std::marker::Model;
use std::ops::Deref;
use std::slice;
use std::sync::Arc;

/// A list of values in order, which copies share until one of them changes. Contracts see it as
/// that list.
pub struct SharedList<T> {
    alloc: Global,
    items: Option<Arc<Vec<T>, Global>>,
}

impl<T: Drop> Drop for SharedList<T> {
    fn drop(self) {
        let SharedList { alloc: _, items: _ } = self;
    }
}

impl<T> Model for SharedList<T> {
    ghost use Rattle.std.specs.Prelude.{List};
    ghost use Rattle.hx_types.specs.Lists.{items_of};

    ghost Value = { List T };

    ghost view = { λ s. items_of s.items };
}

impl<T> SharedList<T> {
    /// The empty list. It takes no memory.
    pub fn new(alloc: Global) -> Self
        ensures { result ≡ [] }
    {
        SharedList { alloc, items: None }
    }

    /// The list of a vector's items, or [`Memory`] where there is no room for what holds them.
    pub fn from_vec(alloc: Global, items: Vec<T>) -> Result<Self, Memory>
    where
        T: Drop,
        ensures { IfOk result (λ made. made ≡ items.items) }
    {
        if items.is_empty() {
            return Ok(SharedList::new(alloc));
        }
        let held = Arc::new(alloc, items)?;
        Ok(SharedList {
            alloc,
            items: Some(held),
        })
    }

    /// The items as a slice.
    pub fn as_slice(&self) -> &[T]
        ensures { result.now ≡ self.now }
    {
        match &self.items {
            Some(items) => Deref::deref(items).as_slice(),
            None => &[],
        }
    }

    /// How many items there are.
    pub fn len(&self) -> usize
        ensures { result ≡ length self.now }
    {
        self.as_slice().len()
    }

    /// Whether there is no item.
    pub fn is_empty(&self) -> bool
        ensures { IsTrue result ↔ (self.now ≡ []) }
    {
        self.as_slice().is_empty()
    }

    /// The item at a place from 0, or `None` past the end.
    pub fn get(&self, place: usize) -> Option<&T>
        ensures { option_copied result ≡ slice_get self.now place }
    {
        self.as_slice().get(place)
    }

    /// The items in order.
    pub fn iter(&self) -> slice::Iter<'_, T>
        ensures rest { iter_rest result ≡ self.now }
        ensures bound { length (iter_rest result) < 2 ^ 64 }
        ensures runs { IterYieldsInOrder T }
    {
        self.as_slice().iter()
    }
}

impl<T: Exact> SharedList<T> {
    /// Puts an item in the place of another. Where there is no memory the list stays.
    pub fn set(&mut self, place: usize, item: T) -> Result<(), Memory>
        requires { place < length self.old }
        ensures ok { OnOk result (self.new ≡ slice_set self.old place item) }
        ensures err { OnErr result (self.new ≡ self.old) }
    {
        if let Some(held) = &mut self.items
            && let Some(items) = Arc::get_mut(held)
        {
            items[place] = item;
            return Ok(());
        }
        let mut items = copy_of(self.alloc, &self.items)?;
        items[place] = item;
        self.items = Some(Arc::new(self.alloc, items)?);
        Ok(())
    }

    /// Adds an item at the end. Where there is no memory the list stays and the item is dropped.
    pub fn push(&mut self, item: T) -> Result<(), Memory>
        ensures ok { OnOk result (self.new ≡ self.old ++ item ∷ []) }
        ensures err { OnErr result (self.new ≡ self.old) }
    {
        if let Some(held) = &mut self.items
            && let Some(items) = Arc::get_mut(held)
        {
            items.push(item)?;
            return Ok(());
        }
        let mut items = copy_of(self.alloc, &self.items)?;
        items.reserve_exact(2)?;
        items.push(item)?;
        self.items = Some(Arc::new(self.alloc, items)?);
        Ok(())
    }
}

/// A copy of the items with one owner.
fn copy_of<T: Exact>(alloc: Global, items: &Option<Arc<Vec<T>, Global>>) -> Result<Vec<T>, Memory>
    ensures { IfOk result (λ copies. copies.items ≡ items_of items.now) }
{
    match items {
        Some(held) => Ok(clone_all(Deref::deref(held))?),
        None => Ok(Vec::new(alloc)),
    }
}

impl<'a, T> IntoIterator for &'a SharedList<T> {
    type Item = &'a T;

    type IntoIter = slice::Iter<'a, T>;

    ghost into_iter_gives = { λ s it. (iter_rest it ≡ s.now) × (length (iter_rest it) < 2 ^ 64)
        × EveryRun (iter_steps {A = T}) (λ p. ItemsMapTo p (λ x. x.now) (iter_rest p.from)) };

    fn into_iter(self) -> slice::Iter<'a, T> {
        self.as_slice().iter()
    }
}

impl<T: Drop> Clone for SharedList<T> {
    ghost is_clone = { λ x y. y ≡ x };

    fn clone(&self) -> Result<SharedList<T>, AllocError> {
        match &self.items {
            Some(items) => Ok(SharedList {
                alloc: self.alloc,
                items: Some(Arc::try_clone(items)?),
            }),
            None => Ok(SharedList {
                alloc: self.alloc,
                items: None,
            }),
        }
    }
}

impl<T: Drop> Exact for SharedList<T> {
    ghost exact = { λ x y e. e };
}

impl<T: Same> Same for SharedList<T> {
    fn same(&self, other: &Self) -> bool {
        all_same(self.as_slice(), other.as_slice())
    }
}
