//! Ranges at their forks.
ghost use Rattle.std.specs.Prelude.{◌≡◌, ◌&&◌, nat_eq, refl, option_copied, None, if◌then◌else◌};
ghost use Rattle.std.specs.Ordering.{as_partial_cmp, flip_args};
ghost use Rattle.std.specs.Cmp.Lexicographic.{pointwise};
ghost use Rattle.std.specs.Cmp.{partial_order_from_own_ties};
ghost use Rattle.std.specs.Cmp.Rules.{comparing};
ghost use Rattle.std.proofs.Common.{rules};
ghost use Rattle.co_base.specs.Order.{key_cmp};
ghost use Rattle.co_locktab.specs.Upper.{upper_cmp};
ghost use Rattle.co_locktab.specs.Places.{same_fork};

use crate::fork::Fork;
use co_base::Range;
use std::cmp::Ordering;

/// A range, where ranges are ordered by their upper bounds, the greatest first.
#[derive(Drop)]
pub struct ByUpper {
    /// The range.
    pub range: Range,
}

impl PartialEq for ByUpper {
    ghost eq = { λ a b. pointwise nat_eq a.range.lo b.range.lo && pointwise nat_eq a.range.hi b.range.hi };

    ghost laws = { Prim.search (comparing, rules) };

    fn eq(&self, other: &ByUpper) -> bool {
        self.range == other.range
    }
}

impl Eq for ByUpper {
    ghost laws = { Prim.search (comparing, rules) };
}

impl PartialOrd for ByUpper {
    ghost partial_cmp = { as_partial_cmp upper_cmp };

    ghost laws = { partial_order_from_own_ties (Prim.search (comparing, rules)) (Prim.search (comparing, rules)) };

    fn partial_cmp(&self, other: &ByUpper) -> Option<Ordering> {
        Some(self.cmp(other))
    }
}

impl Ord for ByUpper {
    ghost cmp = { upper_cmp };

    ghost total = { Prim.search (comparing, rules) };

    ghost matches_partial_cmp = { λ x y. refl };

    ghost matches_eq = { Prim.search (comparing, rules) };

    fn cmp(&self, other: &ByUpper) -> Ordering {
        let (lo, hi) = self.range.bounds();
        let (other_lo, other_hi) = other.range.bounds();
        other_hi.cmp(hi).then(other_lo.cmp(lo))
    }
}

/// A range at its fork; without one, the place before all ranges of the fork.
#[derive(PartialEq, Eq, PartialOrd, Ord, Drop)]
pub struct Place<R> {
    /// The fork.
    pub fork: Fork,
    /// The range.
    pub range: Option<R>,
}

impl<R> Place<R> {
    /// The place before all ranges of a fork.
    pub fn before(fork: Fork) -> Place<R>
        ensures { result ≡ record { fork = fork; range = None } }
    {
        Place { fork, range: None }
    }

    /// The range, where it stands at this fork.
    pub fn range_at(&self, fork: &Fork) -> Option<&R>
        ensures { option_copied result ≡ (if same_fork self.now.fork fork.now then self.now.range else None) }
    {
        if self.fork.cmp(fork).is_eq() {
            self.range.as_ref()
        } else {
            None
        }
    }
}
