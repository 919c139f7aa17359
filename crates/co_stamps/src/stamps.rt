//! Numbers of transactions.
ghost use Rattle.std.specs.Prelude.{◌≡◌, OnOk, OnErr, length, ◌==◌};
ghost use Rattle.std.specs.FinMap.{entries};
ghost use Rattle.co_state.specs.Table.{no_entries, look, put, without};
ghost use Rattle.co_stamps.specs.Stamped.{IsLeastFrom, IsGreatestBelow};

use crate::bearers::Bearers;
use co_base::Txn;
use co_state::Table;
use std::alloc::{AllocError, Global};
use std::marker::Model;

/// A number for each of some transactions. A contract sees the finite map.
#[derive(Drop)]
pub struct Stamps {
    numbers: Table<u64>,
    bearers: Bearers,
}

impl Model for Stamps {
    ghost use Rattle.std.specs.Prelude.{ℕ};
    ghost use Rattle.std.specs.Ordering.{nat_cmp};
    ghost use Rattle.std.specs.FinMap.{FinMap, code};
    ghost use Rattle.std.specs.Coded.{coded_ℕ};
    ghost use Rattle.co_stamps.specs.Bearing.{Agree};

    ghost Value = { FinMap nat_cmp ℕ };

    ghost coded = { code {R = nat_cmp} coded_ℕ coded_ℕ };

    ghost view = { λ s. s.numbers };

    ghost invariant = { λ s. Agree s.numbers s.bearers };
}

impl Stamps {
    /// No transactions. Takes no memory.
    pub fn new(alloc: Global) -> Stamps
        ensures { result ≡ no_entries }
    {
        Stamps {
            numbers: Table::new(alloc),
            bearers: Bearers::new(alloc),
        }
    }

    /// The number of a transaction, if it has one. Takes no memory.
    pub fn get(&self, t: Txn) -> Option<u64>
        ensures { result ≡ look self.now t }
    {
        match self.numbers.get(t) {
            Some(number) => Some(*number),
            None => None,
        }
    }

    /// Whether no transaction has a number. Takes no memory.
    pub fn is_empty(&self) -> bool
        ensures { result ≡ (length (entries self.now) == 0) }
    {
        self.numbers.is_empty()
    }

    /// The least number at or above one, if there is such a number. Takes no memory.
    pub fn least_from(&self, number: u64) -> Option<u64>
        ensures { IsLeastFrom self.now number result }
    {
        self.bearers.least_from(number)
    }

    /// The greatest number below one, if there is such a number. Takes no memory.
    pub fn greatest_below(&self, number: u64) -> Option<u64>
        ensures { IsGreatestBelow self.now number result }
    {
        self.bearers.greatest_below(number)
    }

    /// Gives a transaction a number in place of the one that it had. After want of memory it has none.
    pub fn insert(&mut self, alloc: Global, t: Txn, number: u64) -> Result<(), AllocError>
        ensures ok { OnOk result (self.new ≡ put self.old t number) }
        ensures err { OnErr result (self.new ≡ without self.old t) }
    {
        let _ = self.remove(t);
        self.bearers.add(alloc, number, t)?;
        match self.numbers.insert(t, number) {
            Ok(()) => Ok(()),
            Err(error) => {
                self.bearers.remove(number, t);
                Err(error)
            }
        }
    }

    /// Takes the number of a transaction away and gives it, where there is one. Takes no memory.
    pub fn remove(&mut self, t: Txn) -> Option<u64>
        ensures number { result ≡ look self.old t }
        ensures rest { self.new ≡ without self.old t }
    {
        let number = self.numbers.remove(t)?;
        self.bearers.remove(number, t);
        Some(number)
    }
}
