//! Locks of one key each, by their keys.
ghost use Rattle.std.specs.Prelude.{◌≡◌, filter, OnOk, option_copied, None};
ghost use Rattle.std.specs.FinMap as map;
ghost use Rattle.std.specs.FinMap.{entries, get, insert};
ghost use Rattle.co_base.specs.Span.{span_has};
ghost use Rattle.co_locktab.specs.Holding.{is_held, first_in_lock, least_along, joined_at, left_at, settled, with_holder, without_holder, one_holder};

use crate::holders::Holders;
use co_base::{Key, Range, Txn};
use co_state::lesser;
use std::alloc::{AllocError, Global};
use std::collections::{BTreeMap, btree_map};
use std::marker::Model;
use std::ops::Bound;

/// The holders of each key's lock. A contract sees the finite map.
#[derive(Drop)]
pub struct KeyIndex {
    map: BTreeMap<Key, Holders>,
}

impl Model for KeyIndex {
    ghost use Rattle.std.specs.Coded.{codes, coded_ℕ, coded_list};
    ghost use Rattle.std.specs.FinMap.{FinMap, code, from_entries};
    ghost use Rattle.co_base.specs.Order.{key_cmp};
    ghost use Rattle.co_locktab.specs.contracts.holders.Holders as holders;
    ghost use Rattle.co_locktab.specs.declared.holders.Holders.{Holders};

    ghost Value = { FinMap key_cmp Holders };

    ghost coded = { Prim.hlevel (codes, code {R = key_cmp} (coded_list coded_ℕ) holders.the_row.coded) };

    ghost view = { λ x. from_entries x.map.entries };
}

impl KeyIndex {
    /// No locks. Takes no memory.
    pub fn new(alloc: Global) -> KeyIndex
        ensures { result ≡ map.empty }
    {
        KeyIndex {
            map: BTreeMap::new(alloc),
        }
    }

    /// The holders of a key's lock, if there are any.
    fn at(&self, key: &Key) -> Option<&Holders>
        ensures { option_copied result ≡ get self.now key.now }
    {
        self.map.get(key)
    }

    /// Whether a transaction holds a key's lock.
    pub fn is_held(&self, key: &Key, t: Txn) -> bool
        ensures { result ≡ is_held self.now key.now t }
    {
        match self.at(key) {
            Some(holders) => holders.txns.contains(t),
            None => false,
        }
    }

    /// The least holder of a key's lock other than one transaction.
    pub fn first_other(&self, key: &Key, t: Txn) -> Option<Txn>
        ensures { result ≡ first_in_lock t (get self.now key.now) }
    {
        match self.at(key) {
            Some(holders) => holders.first_other(t),
            None => None,
        }
    }

    /// The locks of the keys of a range, in their order.
    fn within(&self, range: &Range) -> btree_map::Range<'_, Key, Holders>
        ensures { result ≡ filter (λ e. span_has range.now e.0) (entries self.now) }
    {
        let (lo, hi) = range.bounds();
        self.map.range((Bound::Included(lo), Bound::Included(hi)))
    }

    /// The least holder of a lock within a range other than one transaction.
    pub fn least_within(&self, range: &Range, t: Txn) -> Option<Txn>
        ensures { result ≡ least_along t None (filter (λ e. span_has range.now e.0) (entries self.now)) }
    {
        let mut least = None;
        for (_, holders) in self.within(range) {
            least = lesser(least, holders.first_other(t));
        }
        least
    }

    /// A transaction holds a key's lock.
    pub fn add(&mut self, alloc: Global, key: &Key, t: Txn) -> Result<(), AllocError>
        ensures { OnOk result (self.new ≡ with_holder self.old key.now t) }
    {
        match self.at(key) {
            Some(_) => self.join(key, t),
            None => self.enter(alloc, key.copy()?, t),
        }
    }

    /// A transaction is the first one to hold a key's lock.
    fn enter(&mut self, alloc: Global, key: Key, t: Txn) -> Result<(), AllocError>
        ensures { OnOk result (self.new ≡ insert self.old key (one_holder t)) }
    {
        let mut holders = Holders::new(alloc);
        holders.join(t)?;
        self.map.insert(key, holders)?;
        Ok(())
    }

    /// A transaction holds a key's lock too, where there are others.
    fn join(&mut self, key: &Key, t: Txn) -> Result<(), AllocError>
        ensures { OnOk result (self.new ≡ joined_at self.old key.now t) }
    {
        let Some(holders) = self.map.get_mut(key) else {
            return Ok(());
        };
        holders.join(t)
    }

    /// A transaction holds a key's lock no longer, and a lock that nobody holds is gone. Takes no memory.
    pub fn remove(&mut self, key: &Key, t: Txn)
        ensures { self.new ≡ without_holder self.old key.now t }
    {
        self.leave(key, t);
        self.settle(key);
    }

    /// A transaction holds a key's lock no longer.
    fn leave(&mut self, key: &Key, t: Txn)
        ensures { self.new ≡ left_at self.old key.now t }
    {
        let Some(holders) = self.map.get_mut(key) else {
            return;
        };
        holders.leave(t);
    }

    /// A lock that nobody holds is gone.
    fn settle(&mut self, key: &Key)
        ensures { self.new ≡ settled self.old key.now }
    {
        match self.at(key) {
            Some(holders) if holders.is_empty() => self.forget(key),
            _ => {}
        }
    }

    /// A key's lock is gone.
    fn forget(&mut self, key: &Key)
        ensures { self.new ≡ map.remove self.old key.now }
    {
        let _ = self.map.remove(key);
    }
}
