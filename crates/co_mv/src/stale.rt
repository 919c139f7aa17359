//! The least key that was written after it was read.
ghost use Rattle.std.specs.Prelude.{◌≡◌, filter, option_copied};
ghost use Rattle.std.specs.FinMap.{entries};
ghost use Rattle.co_base.specs.Span.{span_has};
ghost use Rattle.co_mv.specs.Ordered.{AreOrdered};
ghost use Rattle.co_mv.specs.Overwritten.{written_keys, written_within};
ghost use Rattle.co_state.specs.Keys.{least_key};
ghost use Rattle.co_state.specs.Search.{least_with};

use crate::chains::Chains;
use co_base::{Key, Range};
use co_index::lesser_key;

/// The least key that was found before, or that was written in the range after the first so many installs.
fn least_within<'a>(
    found: Option<&'a Key>,
    chains: &'a Chains,
    range: &Range,
    installs: u64,
) -> Option<&'a Key>
    ensures { AreOrdered (entries chains.now) → option_copied result ≡ least_with (option_copied found.entry) (written_keys installs (filter (λ e. span_has range.now e.0) (entries chains.now))) }
{
    let mut least = found;
    for (key, chain) in chains.within(range) {
        if chain.is_written_since(installs) {
            least = lesser_key(least, key);
        }
    }
    least
}

/// The least key that was written in some of the ranges after the first so many installs.
pub fn least_written<'a>(chains: &'a Chains, ranges: &[Range], installs: u64) -> Option<&'a Key>
    ensures { AreOrdered (entries chains.now) → option_copied result ≡ least_key (written_within installs (entries chains.now) ranges.now) }
{
    let mut least = None;
    for range in ranges {
        least = least_within(least, chains, range, installs);
    }
    least
}
