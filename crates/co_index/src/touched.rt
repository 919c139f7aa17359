//! Which transactions touched which keys.
ghost use Rattle.std.specs.Prelude.{◌≡◌, OnOk};
ghost use Rattle.std.specs.FinMap as map;
ghost use Rattle.co_index.specs.Touching.{or_nobody, with_touch, without_touch, with_mark, settled, is_nobody};

use crate::key_map::KeyMap;
use crate::touchers::Touchers;
use co_base::{Key, Txn};
use std::alloc::{AllocError, Global};

/// The transactions that touched each key, each with a mark.
pub(crate) type Touched<V> = KeyMap<Touchers<V>>;

impl<V: Drop> KeyMap<Touchers<V>> {
    /// Takes out those that touched a key.
    fn take(&mut self, alloc: Global, key: &Key) -> Touchers<V>
        ensures value { result ≡ or_nobody (map.get self.old key.now) }
        ensures rest { self.new ≡ map.remove self.old key.now }
    {
        match self.remove(key) {
            Some(txns) => txns,
            None => Touchers::new(alloc),
        }
    }

    /// A transaction touches a key.
    pub(crate) fn add(
        &mut self,
        alloc: Global,
        key: &Key,
        t: Txn,
        mark: V,
    ) -> Result<(), AllocError>
        ensures { OnOk result (self.new ≡ with_touch self.old key.now t mark) }
    {
        let mut txns = self.take(alloc, key);
        txns.insert(t, mark)?;
        self.insert(key.copy()?, txns)
    }

    /// Takes a transaction away at a key that was touched.
    fn take_away(&mut self, key: &Key, t: Txn)
        ensures { self.new ≡ without_touch self.old key.now t }
    {
        let Some(txns) = self.entries.get_mut(key) else {
            return;
        };
        txns.remove(t);
    }

    /// Whether a key stands here that nobody touches.
    fn is_left(&self, key: &Key) -> bool
        ensures { result ≡ is_nobody (map.get self.now key.now) }
    {
        match self.get(key) {
            Some(txns) => txns.is_empty(),
            None => false,
        }
    }

    /// Takes a key away that nobody touches any more.
    fn settle(&mut self, key: &Key)
        ensures { self.new ≡ settled self.old key.now }
    {
        if self.is_left(key) {
            let _ = self.remove(key);
        }
    }

    /// A transaction no longer touches a key. Takes no memory.
    pub(crate) fn forget(&mut self, key: &Key, t: Txn)
        ensures { self.new ≡ settled (without_touch self.old key.now t) key.now }
    {
        self.take_away(key, t);
        self.settle(key);
    }
}

impl KeyMap<Touchers<bool>> {
    /// Marks a transaction at a key that it touched. Takes no memory.
    pub(crate) fn mark(&mut self, key: &Key, t: Txn)
        ensures { self.new ≡ with_mark self.old key.now t }
    {
        let Some(txns) = self.entries.get_mut(key) else {
            return;
        };
        txns.mark(t);
    }
}
