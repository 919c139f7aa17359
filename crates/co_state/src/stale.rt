//! Overwritten reads.
ghost use Rattle.std.specs.Prelude.{◌≡◌, [], ◌∷◌, option_copied, map, filter, reverse};
ghost use Rattle.co_state.specs.Changes.{span_read};
ghost use Rattle.co_state.specs.Search.{least_with, range_has};
ghost use Rattle.co_state.specs.StaleRead.{keys_since, overwritten, stale_keys};
ghost use Rattle.co_state.specs.Keys.{least_key};

use crate::engine_state::{Install, Operation};
use co_base::{Key, Op, Written};

/// Whether the operation reads a range that has the key.
pub fn reads(op: &Op, key: &Key) -> bool
    ensures { result ≡ range_has (span_read op.now) key.now }
{
    match op {
        Op::Read(read) => *read <= *key && *key <= *read,
        Op::Scan(range) => range.has(key),
        Op::Write(_, _) => false,
        Op::Erase(_) => false,
    }
}

/// The lesser of a key and of one that was found before.
fn lesser_key<'a>(found: Option<&'a Key>, key: &'a Key) -> Option<&'a Key>
    ensures { option_copied result ≡ least_with (option_copied found.entry) (key.now ∷ []) }
{
    match found {
        None => Some(key),
        Some(least) => if *key < *least { Some(key) } else { found },
    }
}

/// The least key that was found before, or that was changed here and is in what the operation reads.
fn least_changed<'a>(found: Option<&'a Key>, op: &Op, changes: &'a [Written]) -> Option<&'a Key>
    ensures { option_copied result ≡ least_with (option_copied found.entry) (filter (range_has (span_read op.now)) (map (λ w. w.key) changes.now)) }
{
    let mut least = found;
    for change in changes {
        if reads(op, &change.key) {
            least = lesser_key(least, &change.key);
        }
    }
    least
}

/// The least key that was found before, or that an install after the operation wrote in what it read.
fn least_since<'a>(
    found: Option<&'a Key>,
    operation: &Operation,
    installs: &'a [Install],
) -> Option<&'a Key>
    ensures { option_copied result ≡ least_with (option_copied found.entry) (overwritten (span_read operation.now.op) (keys_since (reverse installs.now) operation.now.stamp)) }
{
    let mut least = found;
    let mut place = installs.len();
    while operation.stamp < place as u64 {
        place -= 1;
        least = least_changed(least, &operation.op, installs[place].writes.as_slice());
    }
    least
}

/// The least key that one of the operations read and that was written since. Installs and operations
/// stand oldest first.
pub fn stale_key<'a>(installs: &'a [Install], operations: &[Operation]) -> Option<&'a Key>
    ensures { option_copied result ≡ least_key (stale_keys (reverse installs.now) (reverse operations.now)) }
{
    let mut least = None;
    let mut place = operations.len();
    while 0 < place {
        place -= 1;
        least = least_since(least, &operations[place], installs);
    }
    least
}
