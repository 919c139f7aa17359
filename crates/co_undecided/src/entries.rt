//! Entries by transaction number.
ghost use Rattle.std.specs.Prelude.{◌≡◌, OnOk, filter, nat_lt};
ghost use Rattle.std.specs.FinMap.{entries};
ghost use Rattle.co_state.specs.Table.{no_entries, look, put, without};
ghost use Rattle.co_undecided.specs.Kept.{changed};

use crate::entry::Entry;
use co_base::Txn;
use std::alloc::{AllocError, Global};
use std::collections::{BTreeMap, btree_map};
use std::marker::Model;
use std::ops::Bound;

/// The entries of the undecided transactions. A contract sees the finite map.
#[derive(Drop)]
pub(crate) struct Entries {
    entries: BTreeMap<Txn, Entry>,
}

impl Model for Entries {
    ghost use Rattle.std.specs.Ordering.{nat_cmp};
    ghost use Rattle.std.specs.FinMap as map;
    ghost use Rattle.std.specs.Coded.{codes, coded_ℕ};
    ghost use Rattle.co_undecided.specs.contracts.entry.Entry as entry;
    ghost use Rattle.co_undecided.specs.declared.entry.Entry.{Entry};

    ghost Value = { map.FinMap nat_cmp Entry };

    ghost coded = { Prim.hlevel (codes, map.code {R = nat_cmp} coded_ℕ entry.the_row.coded) };

    ghost view = { λ n. map.from_entries n.entries.entries };
}

impl Entries {
    /// No entries. Takes no memory.
    pub(crate) fn new(alloc: Global) -> Entries
        ensures { result ≡ no_entries }
    {
        Entries {
            entries: BTreeMap::new(alloc),
        }
    }

    /// The entry of a transaction, where it has one.
    pub(crate) fn get(&self, t: Txn) -> Option<Entry>
        ensures { result ≡ look self.now t }
    {
        self.entries.get(&t).copied()
    }

    /// Lays in an entry in place of the one of its number.
    pub(crate) fn put(&mut self, t: Txn, entry: Entry) -> Result<(), AllocError>
        ensures { OnOk result (self.new ≡ put self.old t entry) }
    {
        self.entries.insert(t, entry)?;
        Ok(())
    }

    /// Changes the entry of a transaction, where it has one. Takes no memory.
    pub(crate) fn change(&mut self, t: Txn, entry: Entry)
        ensures { self.new ≡ changed self.old t entry (look self.old t) }
    {
        let Some(slot) = self.entries.get_mut(&t) else {
            return;
        };
        *slot = entry;
    }

    /// Takes the entry of a transaction away, where it has one. Takes no memory.
    pub(crate) fn take(&mut self, t: Txn)
        ensures { self.new ≡ without self.old t }
    {
        let _ = self.entries.remove(&t);
    }

    /// The entries in order. Takes no memory.
    pub(crate) fn iter(&self) -> btree_map::Iter<'_, Txn, Entry>
        ensures { result ≡ entries self.now }
    {
        self.entries.iter()
    }

    /// The entries above a number, in order. Takes no memory.
    pub(crate) fn above(&self, after: Txn) -> btree_map::Range<'_, Txn, Entry>
        ensures { result ≡ filter (λ e. nat_lt after e.0) (entries self.now) }
    {
        self.entries
            .range((Bound::Excluded(&after), Bound::Unbounded))
    }
}
