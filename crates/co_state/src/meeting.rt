//! Which keys and ranges of keys meet which.
ghost use Rattle.std.specs.Prelude.{◌≡◌};
ghost use Rattle.co_state.specs.Keys.{reads_key, writes_key, writes_within, reads_meet, writes_meet};

use co_base::{Key, Range, Written};

/// Whether some range has the key.
pub fn reads_key(ranges: &[Range], key: &Key) -> bool
    ensures { result ≡ reads_key ranges.now key.now }
{
    for range in ranges {
        if range.has(key) {
            return true;
        }
    }
    false
}

/// Whether some change is one of the key.
pub fn writes_key(changes: &[Written], key: &Key) -> bool
    ensures { result ≡ writes_key changes.now key.now }
{
    for change in changes {
        if change.key.cmp(key).is_eq() {
            return true;
        }
    }
    false
}

/// Whether some change is one of a key of the range.
pub fn writes_within(changes: &[Written], range: &Range) -> bool
    ensures { result ≡ writes_within changes.now range.now }
{
    for change in changes {
        if range.has(&change.key) {
            return true;
        }
    }
    false
}

/// Whether a read meets a write: a range has a key that is changed.
pub fn reads_meet(ranges: &[Range], changes: &[Written]) -> bool
    ensures { result ≡ reads_meet ranges.now changes.now }
{
    for change in changes {
        if reads_key(ranges, &change.key) {
            return true;
        }
    }
    false
}

/// Whether two writes meet: one key is changed by both.
pub fn writes_meet(changes: &[Written], others: &[Written]) -> bool
    ensures { result ≡ writes_meet changes.now others.now }
{
    for other in others {
        if writes_key(changes, &other.key) {
            return true;
        }
    }
    false
}
