//! Ranges of keys.
ghost use Rattle.std.specs.Prelude.{◌≡◌, ◌↔◌, IfOk, IsErrOf, IsTrue, ◌&&◌, nat_eq, refl, false};
ghost use Rattle.std.specs.Ordering.{is_gt, as_partial_cmp};
ghost use Rattle.std.specs.Cmp.Lexicographic.{pointwise};
ghost use Rattle.std.specs.Cmp.{partial_order_from_own_ties};
ghost use Rattle.std.specs.Cmp.Rules.{comparing};
ghost use Rattle.std.proofs.Common.{rules};
ghost use Rattle.co_base.specs.Order.{key_cmp};
ghost use Rattle.co_base.specs.Span.{span_has, span_of_key, span_cmp};

use crate::fault::BaseFault;
use crate::key::Key;
use crate::sequence::Sequence;
use std::alloc::AllocError;
use std::cmp::Ordering;
use std::marker::Model;

/// The keys from `lo` to `hi`, both included; `lo` is never above `hi`.
///
/// Ranges are ordered by their lower bound, then by their upper one.
#[derive(Drop)]
pub struct Range {
    lo: Key,
    hi: Key,
}

impl Model for Range {
    ghost use Rattle.std.specs.Prelude.{◌≡◌, false};
    ghost use Rattle.std.specs.Ordering.{is_gt};
    ghost use Rattle.co_base.specs.Order.{key_cmp};
    ghost use Rattle.co_base.specs.Span.{Span};

    ghost Value = { Span };

    ghost view = { λ r. record { lo = r.lo; hi = r.hi } };

    ghost invariant = { λ r. is_gt (key_cmp r.lo r.hi) ≡ false };

    ghost inverse = { λ s. record { lo = s.lo; hi = s.hi } };
}

/// A list of ranges.
pub type Ranges = Sequence<Range>;

impl Range {
    /// The keys from `lo` to `hi`. `Order` comes exactly where `lo` is above `hi`.
    pub fn new(lo: Key, hi: Key) -> Result<Range, BaseFault>
        ensures ok { IfOk result (λ range. range ≡ record { lo = lo; hi = hi }) }
        ensures order { IsErrOf result BaseFault.Order ↔ IsTrue (is_gt (key_cmp lo hi)) }
        ensures only { (fault : _) → result ≡ Err fault → fault ≡ BaseFault.Order }
    {
        if lo > hi {
            return Err(BaseFault::Order);
        }
        Ok(Range { lo, hi })
    }

    /// The one key alone, twice in memory.
    pub fn of_key(key: &Key) -> Result<Range, AllocError>
        ensures { IfOk result (λ range. range ≡ span_of_key key.now) }
    {
        Ok(Range {
            lo: key.copy()?,
            hi: key.copy()?,
        })
    }

    /// The least key of the range.
    pub fn lo(&self) -> &Key
        ensures { result.now ≡ self.now.lo }
    {
        &self.lo
    }

    /// The greatest key of the range, which is not below the least.
    pub fn hi(&self) -> &Key
        ensures { result.now ≡ self.now.hi }
    {
        &self.hi
    }

    /// The least key and the greatest key, of which the least is not above the greatest.
    pub fn bounds(&self) -> (&Key, &Key)
        ensures lo { result.0.now ≡ self.now.lo }
        ensures hi { result.1.now ≡ self.now.hi }
        ensures order { is_gt (key_cmp result.0.now result.1.now) ≡ false }
    {
        (&self.lo, &self.hi)
    }

    /// Whether the key stands in the range.
    pub fn has(&self, key: &Key) -> bool
        ensures { result ≡ span_has self.now key.now }
    {
        self.lo <= *key && *key <= self.hi
    }

    /// An equal range.
    pub fn copy(&self) -> Result<Range, AllocError>
        ensures { IfOk result (λ range. range ≡ self.now) }
    {
        Ok(Range {
            lo: self.lo.copy()?,
            hi: self.hi.copy()?,
        })
    }
}

impl PartialEq for Range {
    ghost eq = { λ a b. pointwise nat_eq a.lo b.lo && pointwise nat_eq a.hi b.hi };

    ghost laws = { Prim.search (comparing, rules) };

    fn eq(&self, other: &Range) -> bool {
        self.lo == other.lo && self.hi == other.hi
    }
}

impl Eq for Range {
    ghost laws = { Prim.search (comparing, rules) };
}

impl PartialOrd for Range {
    ghost partial_cmp = { as_partial_cmp span_cmp };

    ghost laws = { partial_order_from_own_ties (Prim.search (comparing, rules)) (Prim.search (comparing, rules)) };

    fn partial_cmp(&self, other: &Range) -> Option<Ordering> {
        Some(self.cmp(other))
    }
}

impl Ord for Range {
    ghost cmp = { span_cmp };

    ghost total = { Prim.search (comparing, rules) };

    ghost matches_partial_cmp = { λ x y. refl };

    ghost matches_eq = { Prim.search (comparing, rules) };

    fn cmp(&self, other: &Range) -> Ordering {
        self.lo.cmp(&other.lo).then(self.hi.cmp(&other.hi))
    }
}
