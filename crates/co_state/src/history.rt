//! Lists that grow by newer and newer elements.
ghost use Rattle.std.specs.Prelude.{◌≡◌, ◌==◌, ◌<◌, [], ◌∷◌, ◌++◌, length, reverse, slice_get, OnOk, OnErr};

use std::alloc::{AllocError, Global};
use std::marker::Model;

/// A list that is seen newest first: what was added last is its first element.
#[derive(Drop)]
pub struct History<T> {
    oldest_first: Vec<T>,
}

impl<T> Model for History<T> {
    ghost use Rattle.std.specs.Prelude.{List, reverse};

    ghost Value = { List T };

    ghost view = { λ h. reverse h.oldest_first.items };
}

impl<T> History<T> {
    /// No elements. Takes no memory.
    pub fn new(alloc: Global) -> History<T>
        ensures { result ≡ [] }
    {
        History {
            oldest_first: Vec::new(alloc),
        }
    }

    /// How many elements there are.
    pub fn len(&self) -> usize
        ensures { result ≡ length self.now }
    {
        self.oldest_first.len()
    }

    /// Whether there is no element.
    pub fn is_empty(&self) -> bool
        ensures { result ≡ (length self.now == 0) }
    {
        self.oldest_first.is_empty()
    }

    /// The element at a place, counted from the newest one at place 0.
    pub fn at(&self, place: usize) -> &T
        requires { place < length self.now }
        ensures { slice_get self.now place ≡ Some result.now }
    {
        &self.oldest_first[self.oldest_first.len() - 1 - place]
    }

    /// The elements, the oldest first.
    pub fn oldest_first(&self) -> &[T]
        ensures { result.now ≡ reverse self.now }
    {
        self.oldest_first.as_slice()
    }

    /// The elements as a vector, the oldest first.
    pub fn into_oldest_first(self) -> Vec<T>
        ensures { reverse result.items ≡ self }
    {
        self.oldest_first
    }

    /// Adds a newest element. Want of memory leaves the list as it was.
    pub fn push(&mut self, item: T) -> Result<(), AllocError>
    where
        T: Drop,
        ensures ok { OnOk result (self.new ≡ item ∷ self.old) }
        ensures err { OnErr result (self.new ≡ self.old) }
    {
        self.oldest_first.push(item)?;
        Ok(())
    }

    /// Adds elements, the oldest first. Want of memory leaves the list as it was.
    pub fn extend(&mut self, newer: Vec<T>) -> Result<(), AllocError>
    where
        T: Drop,
        ensures { OnOk result (self.new ≡ reverse newer.items ++ self.old) }
    {
        let mut newer = newer;
        self.oldest_first.append(&mut newer)?;
        Ok(())
    }
}
