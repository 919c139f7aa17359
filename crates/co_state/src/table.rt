//! Tables by transaction number.
ghost use Rattle.std.specs.Prelude.{◌≡◌, OnOk, OnErr, option_copied, length, ◌==◌, filter, nat_lt};
ghost use Rattle.std.specs.FinMap.{entries};
ghost use Rattle.co_state.specs.Table.{no_entries, look, put, without, holds, first_of, is_above, least_where};

use co_base::Txn;
use std::alloc::{AllocError, Global};
use std::collections::BTreeMap;
use std::collections::btree_map::{Iter, Range};
use std::marker::Model;
use std::ops::Bound;

/// A table from transaction numbers to entries. A contract sees the finite map.
#[derive(Drop)]
pub struct Table<V> {
    entries: BTreeMap<Txn, V>,
}

impl<V> Model for Table<V> {
    ghost use Rattle.std.specs.Ordering.{nat_cmp};
    ghost use Rattle.std.specs.FinMap as map;
    ghost use Rattle.std.specs.Coded.{coded_ℕ};

    ghost Value = { map.FinMap nat_cmp V };

    ghost coded = { map.code coded_ℕ V.code };

    ghost view = { λ t. map.from_entries t.entries.entries };
}

impl<V> Table<V> {
    /// No entries. Takes no memory.
    pub fn new(alloc: Global) -> Table<V>
        ensures { result ≡ no_entries }
    {
        Table {
            entries: BTreeMap::new(alloc),
        }
    }

    /// The entry of a transaction, or none where there is no such entry.
    pub fn get(&self, txn: Txn) -> Option<&V>
        ensures { option_copied result ≡ look self.now txn }
    {
        self.entries.get(&txn)
    }

    /// Whether there is an entry of a transaction.
    pub fn contains(&self, txn: Txn) -> bool
        ensures { result ≡ holds self.now txn }
    {
        self.get(txn).is_some()
    }

    /// How many entries there are.
    pub fn len(&self) -> usize
        ensures { result ≡ length (entries self.now) }
    {
        self.entries.len()
    }

    /// Whether there is no entry.
    pub fn is_empty(&self) -> bool
        ensures { result ≡ (length (entries self.now) == 0) }
    {
        self.len() == 0
    }

    /// The entries, ascending by number.
    pub fn iter(&self) -> Iter<'_, Txn, V>
        ensures { result ≡ entries self.now }
    {
        self.entries.iter()
    }

    /// The entries above a number, ascending.
    fn above(&self, txn: Txn) -> Range<'_, Txn, V>
        ensures { result ≡ filter (λ e. nat_lt txn e.0) (entries self.now) }
    {
        self.entries
            .range((Bound::Excluded(&txn), Bound::Unbounded))
    }

    /// The least number of all.
    fn first(&self) -> Option<Txn>
        ensures { result ≡ first_of (entries self.now) }
    {
        let (txn, _) = self.iter().next()?;
        Some(*txn)
    }

    /// The least number above one.
    fn next_above(&self, txn: Txn) -> Option<Txn>
        ensures { result ≡ first_of (filter (λ e. nat_lt txn e.0) (entries self.now)) }
    {
        let (next, _) = self.above(txn).next()?;
        Some(*next)
    }

    /// The least number that has an entry above another one, or the least of all. Takes no memory.
    pub fn first_above(&self, after: Option<Txn>) -> Option<Txn>
        ensures { result ≡ least_where (λ t e. is_above after t) self.now }
    {
        match after {
            Some(txn) => self.next_above(txn),
            None => self.first(),
        }
    }

    /// Lays in an entry in place of the one of its number. Want of memory leaves the table as it was.
    pub fn insert(&mut self, txn: Txn, entry: V) -> Result<(), AllocError>
    where
        V: Drop,
        ensures ok { OnOk result (self.new ≡ put self.old txn entry) }
        ensures err { OnErr result (self.new ≡ self.old) }
    {
        self.entries.insert(txn, entry)?;
        Ok(())
    }

    /// Takes the entry of a transaction away and gives it, where there is one.
    pub fn remove(&mut self, txn: Txn) -> Option<V>
        ensures entry { result ≡ look self.old txn }
        ensures rest { self.new ≡ without self.old txn }
    {
        self.entries.remove(&txn)
    }
}
