//! The value at one key, once changes are laid over what was found there.
ghost use Rattle.std.specs.Prelude.{◌≡◌, if◌then◌else◌, option_copied};
ghost use Rattle.std.specs.FinMap as map;
ghost use Rattle.co_serial.specs.Records.{Records, with_changes};
ghost use Rattle.co_state.specs.Keys.{same_key};

use co_base::{Key, Value, Written};

/// The value of a change of this key, and else what was found before.
fn changed<'a>(found: Option<&'a Value>, change: &'a Written, key: &Key) -> Option<&'a Value>
    ensures { option_copied result ≡ (if same_key change.now.key key.now then change.now.value else option_copied found.entry) }
{
    if change.key.cmp(key).is_eq() {
        change.value.as_ref()
    } else {
        found
    }
}

/// The value at a key, once changes are laid over what was found there. Takes no memory.
pub fn value_after<'a>(
    found: Option<&'a Value>,
    changes: &'a [Written],
    key: &Key,
) -> Option<&'a Value>
    ensures { (records : Records) → map.get records key.now ≡ option_copied found.entry → option_copied result ≡ map.get (with_changes records changes.now) key.now }
{
    let mut seen = found;
    for change in changes {
        seen = changed(seen, change, key);
    }
    seen
}
