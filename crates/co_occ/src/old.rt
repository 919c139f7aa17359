//! The write sets of recent installs.
ghost use Rattle.std.specs.Prelude.{◌≡◌, ◌<◌, [], ◌∷◌, ◌++◌, length, slice_get, OnOk};

use co_base::Writes;
use std::alloc::{AllocError, Global};
use std::collections::VecDeque;
use std::marker::Model;

/// Write sets in the order of installation. A contract sees the list of them.
#[derive(Drop)]
pub struct OldWrites {
    queue: VecDeque<Writes>,
}

impl Model for OldWrites {
    ghost use Rattle.std.specs.Prelude.{List};
    ghost use Rattle.co_base.specs.declared.written.Written.{Written};

    ghost Value = { List (List Written) };

    ghost view = { λ o. o.queue.items };
}

impl OldWrites {
    /// No write sets. Takes no memory.
    pub fn new(alloc: Global) -> OldWrites
        ensures { result ≡ [] }
    {
        OldWrites {
            queue: VecDeque::new(alloc),
        }
    }

    /// How many write sets are kept.
    pub fn len(&self) -> usize
        ensures { result ≡ length self.now }
    {
        self.queue.len()
    }

    /// The write set at a place, counted from the oldest one at place 0.
    pub fn at(&self, place: usize) -> &Writes
        requires { place < length self.now }
        ensures { slice_get self.now place ≡ Some result.now }
    {
        &self.queue[place]
    }

    /// Adds the write set of the newest install.
    pub fn push(&mut self, writes: Writes) -> Result<(), AllocError>
        ensures { OnOk result (self.new ≡ self.old ++ writes ∷ []) }
    {
        self.queue.push_back(writes)?;
        Ok(())
    }

    /// Forgets the oldest write set and gives it. Takes no memory.
    pub fn pop(&mut self) -> Writes
        requires { 0 < length self.old }
        ensures { self.old ≡ result ∷ self.new }
    {
        match self.queue.pop_front() {
            Some(writes) => writes,
            None => unreachable!(),
        }
    }
}
