//! A list inside plain data, and copies of plain data.

ghost use Rattle.std.specs.Prelude.{◌≡◌, [], ◌∷◌, ◌++◌, List, length, IfOk, OnOk, Some, slice_get};
ghost use Rattle.std.specs.Prelude.{is_some, IsTrue, ◌↔◌, ◌<◌, nat_eq};
ghost use Rattle.std.specs.Option.{option_copied};
ghost use Rattle.std.specs.Cmp.Lexicographic.{pointwise, lists_per};

use crate::copies::copied;
use crate::ids::ServerId;
use std::alloc::{AllocError, Global};
use std::marker::Model;

/// A list of plain data, which contracts see as a list and as nothing else: two of them with the
/// same elements are equal. It is made from a `Vec` and gives it back without taking memory.
pub struct Seq<T> {
    inner: Vec<T>,
}

impl<T: Drop> Drop for Seq<T> {
    fn drop(self) {
        let Seq { inner: _ } = self;
    }
}

impl<T> Model for Seq<T> {
    ghost use Rattle.std.specs.Prelude.{List};

    ghost Value = { List T };

    ghost view = { λ s. s.inner.items };
}

impl<T> Seq<T> {
    /// The empty list. It takes no memory until something is pushed.
    pub fn new(alloc: Global) -> Self
        ensures { result ≡ [] }
    {
        Seq {
            inner: Vec::new(alloc),
        }
    }

    /// The list of the vector's elements.
    pub fn from_vec(items: Vec<T>) -> Self
        ensures { result ≡ items.items }
    {
        Seq { inner: items }
    }

    /// The elements as a vector again.
    pub fn into_vec(self) -> Vec<T>
        ensures { result.items ≡ self }
    {
        let Seq { inner } = self;
        inner
    }

    /// The elements as a slice.
    pub fn as_slice(&self) -> &[T]
        ensures { result.now ≡ self.now }
    {
        self.inner.as_slice()
    }

    /// How many elements there are.
    pub fn len(&self) -> usize
        ensures { result ≡ length self.now }
    {
        self.inner.len()
    }

    /// Whether there is no element.
    pub fn is_empty(&self) -> bool
        ensures { result ≡ nat_eq (length self.now) 0 }
    {
        self.inner.is_empty()
    }

    /// The element at `index`, counted from 0.
    pub fn get(&self, index: usize) -> Option<&T>
        ensures { option_copied result ≡ slice_get self.now index }
    {
        self.inner.as_slice().get(index)
    }
}

/// Equality of elements, one by one.
impl<T: PartialEq> PartialEq for Seq<T> {
    ghost eq = { λ x y. pointwise T.eq x y };

    ghost laws = { lists_per T.laws };

    fn eq(&self, other: &Self) -> bool {
        self.as_slice() == other.as_slice()
    }
}

/// A copy of plain data. It equals its source, and fails only where memory was refused, or where what is
/// shared can have no more owners (F1).
pub trait TryClone {
    /// The copy, made with this allocator.
    fn try_clone(&self, alloc: Global) -> Result<Self, AllocError>
        ensures { IfOk result (λ c. c ≡ self.now) };
}

impl TryClone for u8 {
    fn try_clone(&self, _alloc: Global) -> Result<u8, AllocError> {
        Ok(*self)
    }
}

impl TryClone for u16 {
    fn try_clone(&self, _alloc: Global) -> Result<u16, AllocError> {
        Ok(*self)
    }
}

impl TryClone for (ServerId, u16) {
    fn try_clone(&self, _alloc: Global) -> Result<(ServerId, u16), AllocError> {
        Ok(*self)
    }
}

impl<T: TryClone + Drop> TryClone for Seq<T> {
    fn try_clone(&self, alloc: Global) -> Result<Seq<T>, AllocError> {
        Ok(Seq {
            inner: copied(alloc, self.as_slice())?,
        })
    }
}

impl<T: TryClone + Drop> TryClone for Option<T> {
    fn try_clone(&self, alloc: Global) -> Result<Option<T>, AllocError> {
        match self {
            None => Ok(None),
            Some(value) => Ok(Some(value.try_clone(alloc)?)),
        }
    }
}
