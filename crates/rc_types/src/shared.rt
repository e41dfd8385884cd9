//! A list that no longer changes, inside plain data, with any number of owners.

ghost use Rattle.std.specs.Prelude.{◌≡◌, [], length, nat_eq, IfOk, slice_get};
ghost use Rattle.std.specs.Option.{option_copied};
ghost use Rattle.std.specs.Cmp.Lexicographic.{pointwise, lists_per};

use crate::sequence::TryClone;
use std::alloc::{AllocError, Global};
use std::marker::Model;
use std::sync::Arc;

/// A list of plain data that no longer changes, which contracts see as a list and as nothing else. A copy of it is
/// one more owner of the same elements: it copies none of them and takes no memory. So a written value is in memory
/// once, however many events, messages, logs and replicas have it, and so is a server list that goes to many servers.
pub struct Shared<T> {
    /// Nothing for the list that was made empty.
    items: Option<Arc<Vec<T>>>,
}

impl<T: Drop> Drop for Shared<T> {
    fn drop(self) {
        let Shared { items: _ } = self;
    }
}

impl<T> Model for Shared<T> {
    ghost use Rattle.std.specs.Prelude.{List, [], Vec, option_map, unwrap_or};
    ghost use Rattle.std.specs.Arc.{arc_value};

    ghost Value = { List T };

    ghost view = { λ s. unwrap_or (option_map (λ items. (arc_value {X = Vec T _} items).items) s.items) [] };
}

impl<T: Drop> Shared<T> {
    /// The empty list. It takes no memory.
    pub fn empty() -> Shared<T>
        ensures { result ≡ [] }
    {
        Shared { items: None }
    }

    /// The list of the vector's elements. Only memory can be refused.
    pub fn from_vec(alloc: Global, items: Vec<T>) -> Result<Shared<T>, AllocError>
        ensures { IfOk result (λ shared. shared ≡ items.items) }
    {
        Ok(Shared {
            items: Some(Arc::new(alloc, items)?),
        })
    }

    /// One more owner of the same elements. It fails only where more owners can't be counted.
    pub fn share(&self) -> Result<Shared<T>, AllocError>
        ensures { IfOk result (λ shared. shared ≡ self.now) }
    {
        let items = match &self.items {
            None => None,
            Some(items) => Some(items.clone()?),
        };
        Ok(Shared { items })
    }
}

impl<T> Shared<T> {
    /// The elements as a slice.
    pub fn as_slice(&self) -> &[T]
        ensures { result.now ≡ self.now }
    {
        match &self.items {
            None => &[],
            Some(items) => items.as_slice(),
        }
    }

    /// How many elements there are.
    pub fn len(&self) -> usize
        ensures { result ≡ length self.now }
    {
        self.as_slice().len()
    }

    /// Whether there is no element.
    pub fn is_empty(&self) -> bool
        ensures { result ≡ nat_eq (length self.now) 0 }
    {
        self.as_slice().is_empty()
    }

    /// The element at `index`, counted from 0.
    pub fn get(&self, index: usize) -> Option<&T>
        ensures { option_copied result ≡ slice_get self.now index }
    {
        self.as_slice().get(index)
    }
}

/// Equality of elements, one by one.
impl<T: PartialEq> PartialEq for Shared<T> {
    ghost eq = { λ x y. pointwise T.eq x y };

    ghost laws = { lists_per T.laws };

    fn eq(&self, other: &Self) -> bool {
        self.as_slice() == other.as_slice()
    }
}

/// One more owner of the same elements.
impl<T: Drop> TryClone for Shared<T> {
    fn try_clone(&self, _alloc: Global) -> Result<Shared<T>, AllocError> {
        Ok(self.share()?)
    }
}
