//! Locks of ranges.
ghost use Rattle.std.specs.Prelude.{◌≡◌, ◌<◌, ◌≤◌, ℕ, OnOk};
ghost use Rattle.std.specs.FinMap as map;
ghost use Rattle.co_locktab.specs.Forks.{fork_of, middle_of, with_middle};
ghost use Rattle.co_locktab.specs.Holding.{is_held, with_holder, without_holder};
ghost use Rattle.co_locktab.specs.Locks.{IsLeast};
ghost use Rattle.co_locktab.specs.Places.{IsFirstFrom, IsIndexed};
ghost use Rattle.co_locktab.specs.Weighed.{Weighs, holds_over};

use crate::fork::{Fork, byte_at, middle_of};
use crate::fork_index::ForkIndex;
use crate::range_holders::RangeHolders;
use co_base::{Key, Range, Txn};
use std::alloc::{AllocError, Global};

/// The holders of each range's lock, and the ranges by where their bounds part.
#[derive(Drop)]
pub struct RangeIndex {
    held: RangeHolders,
    forks: ForkIndex,
}

impl RangeIndex {
    /// No locks. Takes no memory.
    pub fn new(alloc: Global) -> RangeIndex
        ensures held { result.held ≡ map.empty }
        ensures indexed { IsIndexed result.held result.forks }
    {
        RangeIndex {
            held: RangeHolders::new(alloc),
            forks: ForkIndex::new(alloc),
        }
    }

    /// Whether a transaction holds a range's lock.
    pub fn is_held(&self, range: &Range, t: Txn) -> bool
        ensures { result ≡ is_held self.now.held range.now t }
    {
        self.held.is_held(range, t)
    }

    /// The least holder of a lock whose range has a key, other than one transaction.
    pub fn least_over(&self, key: &Key, t: Txn) -> Option<Txn>
        ensures { IsIndexed self.now.held self.now.forks → IsLeast (holds_over self.now.held key.now t) result }
    {
        let text = key.text();
        let mut least = None;
        let mut next = self.forks.first_from(&Fork::at(&[], 0));
        for shared in 0..text.len() + 1 {
            let Some(known) = next else {
                return least;
            };
            let start = Fork::at(&text[..shared], 0);
            next = self.forks.next_from(known, &start);
            least = self.least_behind(next, &start, byte_at(text, shared), key, t, least);
        }
        least
    }

    /// The least other holder of the ranges with a key whose bounds part behind the same bytes as at a fork, at a
    /// block that has the next byte of the key, where the first fork from there on is known.
    fn least_behind(
        &self,
        first: Option<Fork>,
        start: &Fork,
        byte: u8,
        key: &Key,
        t: Txn,
        before: Option<Txn>,
    ) -> Option<Txn>
        ensures { IsIndexed self.now.held self.now.forks → IsFirstFrom self.now.forks.lower (with_middle start.now 0) first
            → Weighs self.now.held key.now t before result (λ s. (height : ℕ) × (height < 8) × (fork_of s ≡ with_middle start.now (middle_of height byte))) }
    {
        let Some(first) = first else {
            return before;
        };
        if first.is_beside(start) {
            return self.least_beside(first, byte, key, t, before);
        }
        before
    }

    /// The least other holder of the ranges with a key whose bounds part behind the same bytes as at a fork, at a
    /// block that has the next byte of the key and whose middle is not below that of the fork.
    fn least_beside(
        &self,
        first: Fork,
        byte: u8,
        key: &Key,
        t: Txn,
        before: Option<Txn>,
    ) -> Option<Txn>
        ensures { IsIndexed self.now.held self.now.forks
            → Weighs self.now.held key.now t before result (λ s. (height : ℕ) × (height < 8) × (first.middle ≤ middle_of height byte) × (fork_of s ≡ with_middle first (middle_of height byte))) }
    {
        let Some(last) = self.forks.last_below(&first.with_middle(Fork::END)) else {
            return before;
        };
        let mut least = before;
        for height in 0..8 {
            let middle = middle_of(height, byte);
            if first.middle <= middle && middle <= last.middle {
                least = self.least_at(first.with_middle(middle), byte, key, t, least);
            }
        }
        least
    }

    /// The least other holder of the ranges with a key whose bounds part at a fork, where the next byte of the key
    /// is given.
    fn least_at(&self, fork: Fork, byte: u8, key: &Key, t: Txn, before: Option<Txn>) -> Option<Txn>
        ensures { IsIndexed self.now.held self.now.forks → Weighs self.now.held key.now t before result (λ s. fork_of s ≡ fork) }
    {
        if u16::from(byte) < fork.middle {
            self.forks
                .least_from_below(&self.held, fork, key, t, before)
        } else {
            self.forks
                .least_from_above(&self.held, fork, key, t, before)
        }
    }

    /// A transaction holds a range's lock.
    pub fn add(&mut self, alloc: Global, range: &Range, t: Txn) -> Result<(), AllocError>
        ensures held { OnOk result (self.new.held ≡ with_holder self.old.held range.now t) }
        ensures indexed { IsIndexed self.old.held self.old.forks → OnOk result (IsIndexed self.new.held self.new.forks) }
    {
        self.forks.add(range)?;
        self.held.add(alloc, range, t)
    }

    /// A transaction holds a range's lock no longer, and a lock that nobody holds is gone. Takes no memory.
    pub fn remove(&mut self, range: &Range, t: Txn)
        ensures held { self.new.held ≡ without_holder self.old.held range.now t }
        ensures indexed { IsIndexed self.old.held self.old.forks → IsIndexed self.new.held self.new.forks }
    {
        if let Some(ended) = self.held.remove(range, t) {
            self.forks.remove(ended);
        }
    }
}
