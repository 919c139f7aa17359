//! The undecided transactions of an engine, each with a mark for its vote.
ghost use Rattle.std.specs.Prelude.{◌≡◌, OnOk, option_copied};
ghost use Rattle.std.specs.FinMap.{entries};
ghost use Rattle.co_state.specs.Table.{no_entries, look, put, without};
ghost use Rattle.co_engine.specs.Undecided.{with_vote, or_new};

use co_base::Txn;
use co_state::Sets;
use std::alloc::{AllocError, Global};
use std::collections::BTreeMap;
use std::collections::btree_map::Iter;
use std::marker::Model;

/// A transaction that is active or has voted.
#[derive(Drop)]
pub struct Undecided {
    /// Whether it has voted.
    pub voted: bool,
    /// What it read and wrote.
    pub sets: Sets,
}

/// The undecided transactions by their numbers. A contract sees the finite map.
#[derive(Drop)]
pub struct Roll {
    entries: BTreeMap<Txn, Undecided>,
}

impl Model for Roll {
    ghost use Rattle.std.specs.Ordering.{nat_cmp};
    ghost use Rattle.std.specs.FinMap as map;
    ghost use Rattle.std.specs.Coded.{codes, coded_ℕ};
    ghost use Rattle.co_engine.specs.contracts.undecided.Undecided as undecided;
    ghost use Rattle.co_engine.specs.declared.undecided.Undecided.{Undecided};

    ghost Value = { map.FinMap nat_cmp Undecided };

    ghost coded = { Prim.hlevel (codes, map.code {R = nat_cmp} coded_ℕ undecided.the_row.coded) };

    ghost view = { λ r. map.from_entries r.entries.entries };
}

impl Roll {
    /// No transactions. Takes no memory.
    pub fn new(alloc: Global) -> Roll
        ensures { result ≡ no_entries }
    {
        Roll {
            entries: BTreeMap::new(alloc),
        }
    }

    /// A transaction of the roll, or none where it is absent.
    pub fn get(&self, t: Txn) -> Option<&Undecided>
        ensures { option_copied result ≡ look self.now t }
    {
        self.entries.get(&t)
    }

    /// The transactions, ascending by number.
    pub fn iter(&self) -> Iter<'_, Txn, Undecided>
        ensures { result ≡ entries self.now }
    {
        self.entries.iter()
    }

    /// Lays in a transaction in place of the one of its number.
    pub fn put(&mut self, t: Txn, undecided: Undecided) -> Result<(), AllocError>
        ensures { OnOk result (self.new ≡ put self.old t undecided) }
    {
        self.entries.insert(t, undecided)?;
        Ok(())
    }

    /// Takes a transaction away and gives it, where it is there.
    pub fn take(&mut self, t: Txn) -> Option<Undecided>
        ensures value { result ≡ look self.old t }
        ensures rest { self.new ≡ without self.old t }
    {
        self.entries.remove(&t)
    }

    /// Takes a transaction away and gives it; where it is absent, an active one that did nothing yet. Takes no
    /// memory.
    pub fn take_or_new(&mut self, alloc: Global, t: Txn) -> Undecided
        ensures value { result ≡ or_new (look self.old t) }
        ensures rest { self.new ≡ without self.old t }
    {
        match self.take(t) {
            Some(undecided) => undecided,
            None => Undecided {
                voted: false,
                sets: Sets::new(alloc),
            },
        }
    }

    /// A transaction votes. Takes no memory.
    pub fn cast(&mut self, t: Txn)
        ensures { self.new ≡ with_vote self.old t }
    {
        let Some(undecided) = self.entries.get_mut(&t) else {
            return;
        };
        undecided.voted = true;
    }
}
