//! `Items`: a `Vec` that contracts see as the list of its items.
ghost use Rattle.std.specs.Prelude.{◌≡◌, List, [], ◌∷◌, ◌++◌, ◌↔◌, OnOk, OnErr, IfOk, IsTrue};
ghost use Rattle.std.specs.Prelude.{length};

use crate::memory::NoMemory;
use crate::part::Part;
use std::alloc::{AllocFailed, Global};
use std::marker::Model;
use std::slice;

/// A `Vec` whose contracts mention its items, but not its capacity or address.
#[derive(Debug, Drop)]
pub struct Items<T> {
    inner: Vec<T>,
}

impl<T> Model for Items<T> {
    ghost use Rattle.std.specs.Prelude.{List};

    ghost Value = { List T };

    ghost view = { λ items. items.inner.items };
}

impl<T> Items<T> {
    /// An empty list. Allocates nothing.
    pub fn new(alloc: Global) -> Items<T>
        ensures { result ≡ [] }
    {
        Items {
            inner: Vec::new(alloc),
        }
    }

    /// Wraps a `Vec`. Allocates nothing.
    pub fn from_vec(items: Vec<T>) -> Items<T>
        ensures { result ≡ items.items }
    {
        Items { inner: items }
    }

    /// Unwraps the `Vec`. Allocates nothing.
    pub fn into_vec(self) -> Vec<T>
        ensures { result.items ≡ self }
    {
        let Items { inner } = self;
        inner
    }

    /// The items in order.
    pub fn as_slice(&self) -> &[T]
        ensures { result.now ≡ self.now }
    {
        self.inner.as_slice()
    }

    /// The number of items.
    pub fn len(&self) -> usize
        ensures { result ≡ length self.now }
    {
        self.inner.len()
    }

    /// Whether there are no items.
    pub fn is_empty(&self) -> bool
        ensures { IsTrue result ↔ (self.now ≡ []) }
    {
        self.inner.is_empty()
    }

    /// Appends the item. Out of memory: `Err` hands back an item, and the list is unchanged.
    pub fn push(&mut self, item: T) -> Result<(), AllocFailed<T>>
        ensures ok { OnOk result (self.new ≡ self.old ++ item ∷ []) }
        ensures err { OnErr result (self.new ≡ self.old) }
    {
        self.inner.push(item)
    }

    /// The allocator of the underlying `Vec`.
    pub fn alloc(&self) -> Global {
        *self.inner.allocator()
    }
}

impl<T: Part> Items<T> {
    /// A copy with the same items in the same order. `NoMemory` if an allocation fails, here or in
    /// the copy of an item.
    pub fn try_copy(&self) -> Result<Items<T>, NoMemory>
        ensures { IfOk result (λ copy. copy ≡ self.now) }
    {
        let mut inner = Vec::with_capacity(self.alloc(), self.inner.len())?;
        for item in &self.inner {
            inner.push(item.try_copy()?)?;
        }
        Ok(Items { inner })
    }

    /// Whether both have the same items in the same order.
    pub fn is_same(&self, other: &Items<T>) -> bool
        ensures { IsTrue result ↔ (self.now ≡ other.now) }
    {
        if self.inner.len() != other.inner.len() {
            return false;
        }
        for (i, item) in self.inner.iter().enumerate() {
            if !item.is_same(&other.inner[i]) {
                return false;
            }
        }
        true
    }
}

impl<T> From<Vec<T>> for Items<T> {
    ghost use Rattle.std.specs.Prelude.{◌≡◌};

    ghost from_gives = { λ vec items. items ≡ vec.items };

    fn from(vec: Vec<T>) -> Items<T> {
        Items::from_vec(vec)
    }
}

impl<T: PartialEq> PartialEq for Items<T> {
    ghost use Rattle.std.specs.Cmp.Lexicographic.{pointwise, lists_per};

    ghost eq = { λ a b. pointwise T.eq a b };

    ghost laws = { lists_per T.laws };

    fn eq(&self, other: &Items<T>) -> bool {
        self.as_slice() == other.as_slice()
    }
}

impl<T: Eq> Eq for Items<T> {
    ghost use Rattle.std.specs.Cmp.Lexicographic.{lists_equiv};

    ghost laws = { lists_equiv T.Eq.laws };
}

impl<'a, T> IntoIterator for &'a Items<T> {
    ghost use Rattle.std.specs.Prelude.{◌≡◌, ◌<◌, ◌^◌, length};
    ghost use Rattle.std.specs.Slice.Iter.{iter_rest, iter_steps};
    ghost use Rattle.std.specs.Iterator.Runs.{EveryRun, ItemsMapTo};

    type Item = &'a T;

    type IntoIter = slice::Iter<'a, T>;

    ghost into_iter_gives = { λ items it. (iter_rest it ≡ items.now)
        × (length (iter_rest it) < 2 ^ 64)
        × EveryRun (iter_steps {A = T}) (λ p. ItemsMapTo p (λ x. x.now) (iter_rest p.from)) };

    fn into_iter(self) -> slice::Iter<'a, T> {
        self.as_slice().iter()
    }
}
