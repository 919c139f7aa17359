//! Ranges by their forks.
ghost use Rattle.std.specs.Prelude.{◌≡◌, ◌||◌, ◌&&◌, not, true, false, Some, OnOk};
ghost use Rattle.std.specs.BTreeSet.{contains};
ghost use Rattle.std.specs.Ordering.{eq_by_cmp, is_gt};
ghost use Rattle.co_base.specs.Span.{span_has};
ghost use Rattle.co_locktab.specs.Forks.{fork_of, IsOnPath};
ghost use Rattle.co_locktab.specs.Places.{by_lower, by_upper, lower_place, upper_place, fork_cmp, IsFirstFrom, IsLastBelow};
ghost use Rattle.co_locktab.specs.Weighed.{Weighs};

use crate::fork::Fork;
use crate::place::{ByUpper, Place};
use crate::range_holders::RangeHolders;
use co_base::{Key, Range, Txn};
use co_state::lesser;
use std::alloc::{AllocError, Global};
use std::collections::BTreeSet;
use std::ops::Bound;

/// Ranges by their forks, and those of one fork by each of their bounds.
#[derive(Drop)]
pub struct ForkIndex {
    /// Those of a fork by their lower bounds, the least first.
    lower: BTreeSet<Place<Range>>,
    /// Those of a fork by their upper bounds, the greatest first.
    upper: BTreeSet<Place<ByUpper>>,
}

impl ForkIndex {
    /// No ranges. Takes no memory.
    pub fn new(alloc: Global) -> ForkIndex
        ensures lower { (p : _) → contains by_lower result.lower p ≡ false }
        ensures upper { (p : _) → contains by_upper result.upper p ≡ false }
    {
        ForkIndex {
            lower: BTreeSet::new(alloc),
            upper: BTreeSet::new(alloc),
        }
    }

    /// A range stands at its fork, which each of its keys has on its path.
    pub fn add(&mut self, range: &Range) -> Result<(), AllocError>
        ensures lower { OnOk result ((p : _) → contains by_lower self.new.lower p ≡ (eq_by_cmp by_lower (lower_place range.now) p || contains by_lower self.old.lower p)) }
        ensures upper { OnOk result ((p : _) → contains by_upper self.new.upper p ≡ (eq_by_cmp by_upper (upper_place range.now) p || contains by_upper self.old.upper p)) }
        ensures path { (key : _) → span_has range.now key ≡ true → IsOnPath key (fork_of range.now) }
    {
        let fork = Fork::of(range);
        self.lower.insert(Place {
            fork,
            range: Some(range.copy()?),
        })?;
        self.upper.insert(Place {
            fork,
            range: Some(ByUpper {
                range: range.copy()?,
            }),
        })?;
        Ok(())
    }

    /// A range stands at its fork no longer. Takes no memory.
    pub fn remove(&mut self, range: Range)
        ensures lower { (p : _) → contains by_lower self.new.lower p ≡ (not (eq_by_cmp by_lower (lower_place range) p) && contains by_lower self.old.lower p) }
        ensures upper { (p : _) → contains by_upper self.new.upper p ≡ (not (eq_by_cmp by_upper (upper_place range) p) && contains by_upper self.old.upper p) }
    {
        let fork = Fork::of(&range);
        let lower = Place {
            fork,
            range: Some(range),
        };
        let _ = self.lower.remove(&lower);
        let upper = Place {
            fork,
            range: lower.range.map(|range| ByUpper { range }),
        };
        let _ = self.upper.remove(&upper);
    }

    /// The first fork at which a range stands that is not below a fork.
    pub fn first_from(&self, fork: &Fork) -> Option<Fork>
        ensures { IsFirstFrom self.now.lower fork.now result }
    {
        let start = Place::before(*fork);
        let first = self
            .lower
            .range((Bound::Included(&start), Bound::Unbounded))
            .next()?;
        Some(first.fork)
    }

    /// The first fork at which a range stands that is not below a fork, where the first that is not below an earlier
    /// one is known.
    pub fn next_from(&self, known: Fork, fork: &Fork) -> Option<Fork>
        ensures { (earlier : _) → is_gt (fork_cmp earlier fork.now) ≡ false → IsFirstFrom self.now.lower earlier (Some known) → IsFirstFrom self.now.lower fork.now result }
    {
        if known.cmp(fork).is_lt() {
            return self.first_from(fork);
        }
        Some(known)
    }

    /// The last fork at which a range stands that is below a fork.
    pub fn last_below(&self, fork: &Fork) -> Option<Fork>
        ensures { IsLastBelow self.now.lower fork.now result }
    {
        let end = Place::before(*fork);
        let last = self
            .lower
            .range((Bound::Unbounded, Bound::Excluded(&end)))
            .next_back()?;
        Some(last.fork)
    }

    /// The least other holder of the ranges at a fork that have a key which is below all their upper bounds.
    pub fn least_from_below(
        &self,
        held: &RangeHolders,
        fork: Fork,
        key: &Key,
        t: Txn,
        before: Option<Txn>,
    ) -> Option<Txn>
        ensures { Weighs held.now key.now t before result (λ s. contains by_lower self.now.lower (record { fork = fork; range = Some s }) ≡ true) }
    {
        let mut least = before;
        let start = Place::before(fork);
        for place in self
            .lower
            .range((Bound::Excluded(&start), Bound::Unbounded))
        {
            let Some(range) = place.range_at(&fork) else {
                return least;
            };
            if key < range.lo() {
                return least;
            }
            if range.has(key) {
                least = lesser(least, held.first_other(range, t));
            }
        }
        least
    }

    /// The least other holder of the ranges at a fork that have a key which is above all their lower bounds.
    pub fn least_from_above(
        &self,
        held: &RangeHolders,
        fork: Fork,
        key: &Key,
        t: Txn,
        before: Option<Txn>,
    ) -> Option<Txn>
        ensures { Weighs held.now key.now t before result (λ s. contains by_upper self.now.upper (record { fork = fork; range = Some (record { range = s }) }) ≡ true) }
    {
        let mut least = before;
        let start = Place::before(fork);
        for place in self
            .upper
            .range((Bound::Excluded(&start), Bound::Unbounded))
        {
            let Some(by_upper) = place.range_at(&fork) else {
                return least;
            };
            let range = &by_upper.range;
            if range.hi() < key {
                return least;
            }
            if range.has(key) {
                least = lesser(least, held.first_other(range, t));
            }
        }
        least
    }
}
