//! Values by key, where a key may stand without a value.
ghost use Rattle.std.specs.Prelude.{◌≡◌, [], ◌∷◌, filter, OnOk, MatchOption, option_copied};
ghost use Rattle.co_base.specs.Span.{span_has};
ghost use Rattle.std.specs.FinMap as map;
ghost use Rattle.std.specs.FinMap.{entries};
ghost use Rattle.co_store.specs.Images.{value_in, replaced, restored, settled};

use co_base::{Key, Range, Value};
use std::alloc::{AllocError, Global};
use std::collections::BTreeMap;
use std::collections::btree_map::{self, Iter};
use std::marker::Model;
use std::ops::Bound;

/// What stands at a key: a value, or none where the record is absent.
#[derive(Drop)]
pub struct Slot {
    /// The value.
    pub value: Option<Value>,
}

/// What stands at keys. A contract sees the finite map.
#[derive(Drop)]
pub struct Slots {
    map: BTreeMap<Key, Slot>,
}

impl Model for Slots {
    ghost use Rattle.std.specs.Coded.{codes, coded_ℕ, coded_list};
    ghost use Rattle.std.specs.FinMap.{FinMap, code, from_entries};
    ghost use Rattle.co_base.specs.Order.{key_cmp};
    ghost use Rattle.co_store.specs.contracts.slots.Slot as slot;
    ghost use Rattle.co_store.specs.declared.slots.Slot.{Slot};

    ghost Value = { FinMap key_cmp Slot };

    ghost coded = { Prim.hlevel (codes, code {R = key_cmp} (coded_list coded_ℕ) slot.the_row.coded) };

    ghost view = { λ s. from_entries s.map.entries };
}

impl Slots {
    /// Nothing. Takes no memory.
    pub fn new(alloc: Global) -> Slots
        ensures { result ≡ map.empty }
    {
        Slots {
            map: BTreeMap::new(alloc),
        }
    }

    /// What stands at a key, if the key is there.
    pub fn get(&self, key: &Key) -> Option<&Slot>
        ensures { option_copied result ≡ map.get self.now key.now }
    {
        self.map.get(key)
    }

    /// Whether a key is there, with a value or without.
    pub fn contains(&self, key: &Key) -> bool
        ensures { result ≡ map.contains_key self.now key.now }
    {
        self.get(key).is_some()
    }

    /// The value at a key, if there is one.
    pub fn value(&self, key: &Key) -> Option<&Value>
        ensures { option_copied result ≡ value_in (map.get self.now key.now) }
    {
        match self.get(key) {
            Some(slot) => slot.value.as_ref(),
            None => None,
        }
    }

    /// What stands at each key, in the order of the keys.
    pub fn iter(&self) -> Iter<'_, Key, Slot>
        ensures { result ≡ entries self.now }
    {
        self.map.iter()
    }

    /// What stands at the keys of a range, in their order.
    pub fn within(&self, range: &Range) -> btree_map::Range<'_, Key, Slot>
        ensures { result ≡ filter (λ e. span_has range.now e.0) (entries self.now) }
    {
        let (lo, hi) = range.bounds();
        self.map.range((Bound::Included(lo), Bound::Included(hi)))
    }

    /// Lays in a value, or its absence, at a key.
    pub fn lay(&mut self, key: Key, value: Option<Value>) -> Result<(), AllocError>
        ensures { OnOk result (self.new ≡ map.insert self.old key (record { value = value })) }
    {
        self.map.insert(key, Slot { value })?;
        Ok(())
    }

    /// Puts a value in place of what stands at a key; no value takes the key away. Takes no memory.
    pub fn restore(&mut self, key: &Key, value: Option<Value>)
        ensures { self.new ≡ restored self.old key.now value }
    {
        match value {
            Some(_) => self.replace(key, value),
            None => self.remove(key),
        }
    }

    /// Puts a value in place of what stands at a key that is there.
    fn replace(&mut self, key: &Key, value: Option<Value>)
        ensures { self.new ≡ replaced self.old key.now value }
    {
        let Some(slot) = self.map.get_mut(key) else {
            return;
        };
        slot.value = value;
    }

    /// Takes a key away.
    fn remove(&mut self, key: &Key)
        ensures { self.new ≡ map.remove self.old key.now }
    {
        let _ = self.map.remove(key);
    }

    /// Takes a key away that has no value. Takes no memory.
    pub fn settle(&mut self, key: &Key)
        ensures { self.new ≡ settled self.old key.now }
    {
        if self.value(key).is_none() {
            self.remove(key);
        }
    }

    /// Takes the first key away and gives it with what stood there.
    pub fn take_first(&mut self) -> Option<(Key, Slot)>
        ensures { MatchOption result (entries self.old ≡ []) (λ e. entries self.old ≡ e ∷ entries self.new) }
    {
        if self.map.len() == 0 {
            return None;
        }
        let Some(first) = self.map.pop_first() else {
            return None;
        };
        Some(first)
    }
}
