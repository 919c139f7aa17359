//! The last installs of keys.
ghost use Rattle.std.specs.Prelude.{◌≡◌, ◌-◌, drop, length, OnOk};
ghost use Rattle.std.specs.FinMap.{get};
ghost use Rattle.co_occ.specs.Last.{AreLast, forgotten, forgotten_at, is_last, noted};

use crate::old::OldWrites;
use co_base::{Key, Written};
use co_index::KeyMap;
use std::alloc::AllocError;

/// The install of this number wrote keys.
pub fn note(lasts: &mut KeyMap<u64>, writes: &[Written], install: u64) -> Result<(), AllocError>
    ensures { OnOk result (lasts.new ≡ noted lasts.old writes.now install) }
{
    for change in writes {
        lasts.insert(change.key.copy()?, install)?;
    }
    Ok(())
}

/// Whether an install is the last one of a key.
fn is_last(lasts: &KeyMap<u64>, key: &Key, install: u64) -> bool
    ensures { result ≡ is_last (get lasts.now key.now) install }
{
    match lasts.get(key) {
        Some(last) => *last == install,
        None => false,
    }
}

/// Takes a key away where an install is its last one.
fn forget_key(lasts: &mut KeyMap<u64>, key: &Key, install: u64)
    ensures { lasts.new ≡ forgotten_at lasts.old key.now install }
{
    if is_last(lasts, key, install) {
        let _ = lasts.remove(key);
    }
}

/// Takes the keys away of which an install is the last one.
fn forget(lasts: &mut KeyMap<u64>, writes: &[Written], install: u64)
    ensures { lasts.new ≡ forgotten lasts.old writes.now install }
{
    for change in writes {
        forget_key(lasts, &change.key, install);
    }
}

/// Forgets the oldest write sets, so that no more than so many are left, and the keys that only they wrote.
/// Takes no memory.
pub fn keep_newest(recent: &mut OldWrites, lasts: &mut KeyMap<u64>, installs: u64, count: u64)
    ensures recent { recent.new ≡ drop (length recent.old - count) recent.old }
    ensures lasts { AreLast lasts.old recent.old installs → AreLast lasts.new (drop (length recent.old - count) recent.old) installs }
{
    while count < recent.len() as u64 {
        let install = installs.saturating_sub(recent.len() as u64 - 1);
        let oldest = recent.pop();
        forget(lasts, oldest.as_slice(), install);
    }
}
