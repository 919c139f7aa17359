//! Overwritten reads.
ghost use Rattle.std.specs.Prelude.{◌≡◌, nat_lt, option_copied, filter, reverse};
ghost use Rattle.std.specs.FinMap.{entries};
ghost use Rattle.co_base.specs.Span.{span_has};
ghost use Rattle.co_index.specs.Listed.{keys_that};
ghost use Rattle.co_state.specs.Keys.{least_key};
ghost use Rattle.co_state.specs.Search.{least_with};
ghost use Rattle.co_occ.specs.Last.{keys_after};

use crate::reads::Read;
use co_base::Key;
use co_index::{KeyMap, lesser_key};

/// The least key that was found before, or that was read and written by a later install than the read saw.
fn least_unseen<'a>(found: Option<&'a Key>, read: &Read, lasts: &'a KeyMap<u64>) -> Option<&'a Key>
    ensures { option_copied result ≡ least_with (option_copied found.entry) (keys_that (λ n. nat_lt read.now.stamp n) (filter (λ e. span_has read.now.range e.0) (entries lasts.now))) }
{
    let mut least = found;
    for (key, last) in lasts.within(&read.range) {
        if read.stamp < *last {
            least = lesser_key(least, key);
        }
    }
    least
}

/// The least key that one of the reads, which stand oldest first, read and that was written since. The last
/// install of each key is given.
pub fn stale_key<'a>(lasts: &'a KeyMap<u64>, reads: &[Read]) -> Option<&'a Key>
    ensures { option_copied result ≡ least_key (keys_after (entries lasts.now) (reverse reads.now)) }
{
    let mut least = None;
    let mut place = reads.len();
    while 0 < place {
        place -= 1;
        least = least_unseen(least, &reads[place], lasts);
    }
    least
}
