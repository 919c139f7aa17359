//! The transactions that touched one key.
ghost use Rattle.std.specs.Prelude.{◌≡◌, ◌==◌, not, OnOk, length};
ghost use Rattle.std.specs.FinMap.{entries};
ghost use Rattle.co_state.specs.Table.{no_entries, put, without, lesser, least_where};
ghost use Rattle.co_index.specs.Touching.{marked};
ghost use Rattle.co_index.specs.Holding.{no_greater, first_voted};

use co_base::Txn;
use std::alloc::{AllocError, Global};
use std::collections::{BTreeMap, btree_map};
use std::marker::Model;

/// Transactions by number, each with a mark. A contract sees the finite map.
#[derive(Drop)]
pub(crate) struct Touchers<V> {
    entries: BTreeMap<Txn, V>,
}

impl<V> Model for Touchers<V> {
    ghost use Rattle.std.specs.Ordering.{nat_cmp};
    ghost use Rattle.std.specs.FinMap as map;
    ghost use Rattle.std.specs.Coded.{coded_ℕ};

    ghost Value = { map.FinMap nat_cmp V };

    ghost coded = { map.code coded_ℕ V.code };

    ghost view = { λ t. map.from_entries t.entries.entries };
}

/// The one that was found before, where a number is no less than it.
pub(crate) fn no_greater(found: &Option<Txn>, t: Txn) -> Option<Txn>
    ensures { result ≡ no_greater found.now t }
{
    match found {
        Some(least) => if t < *least { None } else { Some(*least) },
        None => None,
    }
}

impl<V> Touchers<V> {
    /// Nobody. Takes no memory.
    pub(crate) fn new(alloc: Global) -> Touchers<V>
        ensures { result ≡ no_entries }
    {
        Touchers {
            entries: BTreeMap::new(alloc),
        }
    }

    /// Lays in a transaction with its mark.
    pub(crate) fn insert(&mut self, t: Txn, mark: V) -> Result<(), AllocError>
    where
        V: Drop,
        ensures { OnOk result (self.new ≡ put self.old t mark) }
    {
        self.entries.insert(t, mark)?;
        Ok(())
    }

    /// Takes a transaction away, where it is there. Takes no memory.
    pub(crate) fn remove(&mut self, t: Txn)
    where
        V: Drop,
        ensures { self.new ≡ without self.old t }
    {
        let _ = self.entries.remove(&t);
    }

    /// Whether nobody is there.
    pub(crate) fn is_empty(&self) -> bool
        ensures { result ≡ (length (entries self.now) == 0) }
    {
        self.entries.len() == 0
    }

    /// The transactions, ascending. Takes no memory.
    fn iter(&self) -> btree_map::Iter<'_, Txn, V>
        ensures { result ≡ entries self.now }
    {
        self.entries.iter()
    }

    /// The least one other than a transaction. Takes no memory.
    pub(crate) fn first_other(&self, t: Txn) -> Option<Txn>
        ensures { result ≡ least_where (λ u mark. not (u == t)) self.now }
    {
        for (u, _) in self.iter() {
            if *u != t {
                return Some(*u);
            }
        }
        None
    }
}

impl Touchers<bool> {
    /// Marks a transaction, where it is there. Takes no memory.
    pub(crate) fn mark(&mut self, t: Txn)
        ensures { self.new ≡ marked self.old t }
    {
        let Some(mark) = self.entries.get_mut(&t) else {
            return;
        };
        *mark = true;
    }

    /// The least marked one other than a transaction, or the one that was found before where that is less. Takes
    /// no memory.
    pub(crate) fn first_marked(&self, found: Option<Txn>, t: Txn) -> Option<Txn>
        ensures { result ≡ lesser found (first_voted t self.now) }
    {
        for (u, voted) in self.iter() {
            if let Some(least) = no_greater(&found, *u) {
                return Some(least);
            }
            if *voted && *u != t {
                return Some(*u);
            }
        }
        found
    }
}
