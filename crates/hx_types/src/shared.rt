ghost use Rattle.std.specs.Prelude.{◌≡◌, IfOk};

use crate::copies::{Exact, Same};
use crate::errors::Memory;
use std::alloc::{AllocError, Global};
use std::marker::Model;
use std::ops::Deref;
use std::sync::Arc;

/// A value that has several owners and never changes. A copy is another owner, so that it takes
/// the room of a pointer whatever the value's size. Contracts see it as the value.
pub struct Shared<T> {
    held: Arc<T, Global>,
}

impl<T: Drop> Drop for Shared<T> {
    fn drop(self) {
        let Shared { held: _ } = self;
    }
}

impl<T> Model for Shared<T> {
    ghost use Rattle.std.specs.Arc.{arc_value};

    ghost Value = { T };

    ghost view = { λ s. arc_value s.held };
}

impl<T> Shared<T> {
    /// The value with its first owner, or [`Memory`] where there is no room for it.
    pub fn new(alloc: Global, value: T) -> Result<Self, Memory>
    where
        T: Drop,
        ensures { IfOk result (λ made. made ≡ value) }
    {
        let held = Arc::new(alloc, value)?;
        Ok(Shared { held })
    }

    /// The value.
    pub fn get(&self) -> &T
        ensures { result.now ≡ self.now }
    {
        Deref::deref(&self.held)
    }
}

impl<T: Drop> Clone for Shared<T> {
    ghost is_clone = { λ x y. y ≡ x };

    fn clone(&self) -> Result<Shared<T>, AllocError> {
        let held = Arc::try_clone(&self.held)?;
        Ok(Shared { held })
    }
}

impl<T: Drop> Exact for Shared<T> {
    ghost exact = { λ x y e. e };
}

impl<T: Same> Same for Shared<T> {
    fn same(&self, other: &Self) -> bool {
        self.get().same(other.get())
    }
}

impl<T> Deref for Shared<T> {
    type Target = T;

    ghost deref_gives = { λ s x. x ≡ s };

    fn deref(&self) -> &T
        ensures { result.now ≡ self.now }
    {
        self.get()
    }
}
