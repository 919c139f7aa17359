//! Tables by key.
ghost use Rattle.std.specs.Prelude.{length, ◌≡◌, filter, OnOk, option_copied};
ghost use Rattle.std.specs.FinMap as map;
ghost use Rattle.std.specs.FinMap.{entries};
ghost use Rattle.co_base.specs.Span.{span_has};

use co_base::{Key, Range};
use std::alloc::{AllocError, Global};
use std::collections::{BTreeMap, btree_map};
use std::marker::Model;
use std::ops::Bound;

/// A table from keys to entries. A contract sees the finite map.
#[derive(Drop)]
pub struct KeyMap<V> {
    pub(crate) entries: BTreeMap<Key, V>,
}

impl<V> Model for KeyMap<V> {
    ghost use Rattle.std.specs.Coded.{coded_ℕ, coded_list};
    ghost use Rattle.std.specs.FinMap as map;
    ghost use Rattle.co_base.specs.Order.{key_cmp};

    ghost Value = { map.FinMap key_cmp V };

    ghost coded = { map.code (coded_list coded_ℕ) V.code };

    ghost view = { λ t. map.from_entries t.entries.entries };
}

impl<V> KeyMap<V> {
    /// No entries. Takes no memory.
    pub fn new(alloc: Global) -> KeyMap<V>
        ensures { result ≡ map.empty }
    {
        KeyMap {
            entries: BTreeMap::new(alloc),
        }
    }

    /// The entry of a key, or none where there is no such entry.
    pub fn get(&self, key: &Key) -> Option<&V>
        ensures { option_copied result ≡ map.get self.now key.now }
    {
        self.entries.get(key)
    }

    /// How many entries there are. Takes no memory.
    pub fn len(&self) -> usize
        ensures { result ≡ length (entries self.now) }
    {
        self.entries.len()
    }

    /// Every entry, in the order of the keys.
    pub fn iter(&self) -> btree_map::Iter<'_, Key, V>
        ensures { result ≡ entries self.now }
    {
        self.entries.iter()
    }

    /// The entries of the keys of a range, in the order of the keys.
    pub fn within(&self, range: &Range) -> btree_map::Range<'_, Key, V>
        ensures { result ≡ filter (λ e. span_has range.now e.0) (entries self.now) }
    {
        let (lo, hi) = range.bounds();
        self.entries
            .range((Bound::Included(lo), Bound::Included(hi)))
    }

    /// Lays in an entry in place of the one of its key.
    pub fn insert(&mut self, key: Key, entry: V) -> Result<(), AllocError>
    where
        V: Drop,
        ensures { OnOk result (self.new ≡ map.insert self.old key entry) }
    {
        self.entries.insert(key, entry)?;
        Ok(())
    }

    /// Takes the entry of a key away and gives it, where there is one. Takes no memory.
    pub fn remove(&mut self, key: &Key) -> Option<V>
        ensures entry { result ≡ map.get self.old key.now }
        ensures rest { self.new ≡ map.remove self.old key.now }
    {
        self.entries.remove(key)
    }
}
