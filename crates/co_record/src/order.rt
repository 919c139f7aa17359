//! The orders of lent keys and ranges.
ghost use Rattle.std.specs.Prelude.{◌≡◌};
ghost use Rattle.std.specs.Ordering.{is_gt, is_lt};
ghost use Rattle.co_base.specs.Order.{key_cmp};
ghost use Rattle.co_base.specs.Span.{span_cmp};
ghost use Rattle.co_record.specs.Reading.{span_of};

use crate::element::Pair;

/// Whether a key is above another.
pub fn is_key_above(key: &[u8], other: &[u8]) -> bool
    ensures { result ≡ is_gt (key_cmp key.now other.now) }
{
    key.cmp(&other).is_gt()
}

/// Whether a key is below another.
pub fn is_key_below(key: &[u8], other: &[u8]) -> bool
    ensures { result ≡ is_lt (key_cmp key.now other.now) }
{
    key.cmp(&other).is_lt()
}

/// Whether a range is below another: by the lower bound, then by the upper one.
pub fn is_range_below(range: Pair, other: Pair) -> bool
    ensures { result ≡ is_lt (span_cmp (span_of (range.entry.0.now, range.entry.1.now)) (span_of (other.entry.0.now, other.entry.1.now))) }
{
    range.0.cmp(&other.0).then(range.1.cmp(&other.1)).is_lt()
}
