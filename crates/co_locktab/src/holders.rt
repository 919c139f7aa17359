//! The transactions that hold one lock.
ghost use Rattle.std.specs.Prelude.{◌≡◌, ◌==◌, not, length, OnOk};
ghost use Rattle.std.specs.FinMap.{entries};
ghost use Rattle.co_state.specs.Table.{no_entries, first_in};
ghost use Rattle.co_locktab.specs.Holding.{joined, left};

use co_base::Txn;
use co_state::Table;
use std::alloc::{AllocError, Global};

/// The transactions that hold one lock.
#[derive(Drop)]
pub struct Holders {
    /// Their numbers.
    pub txns: Table<()>,
}

impl Holders {
    /// Nobody. Takes no memory.
    pub fn new(alloc: Global) -> Holders
        ensures { result ≡ record { txns = no_entries } }
    {
        Holders {
            txns: Table::new(alloc),
        }
    }

    /// A transaction holds the lock too.
    pub fn join(&mut self, t: Txn) -> Result<(), AllocError>
        ensures { OnOk result (self.new ≡ joined t self.old) }
    {
        self.txns.insert(t, ())
    }

    /// A transaction holds the lock no longer. Takes no memory.
    pub fn leave(&mut self, t: Txn)
        ensures { self.new ≡ left t self.old }
    {
        let _ = self.txns.remove(t);
    }

    /// Whether nobody holds the lock.
    pub fn is_empty(&self) -> bool
        ensures { result ≡ (length (entries self.now.txns) == 0) }
    {
        self.txns.is_empty()
    }

    /// The least of them other than one transaction.
    pub fn first_other(&self, t: Txn) -> Option<Txn>
        ensures { result ≡ first_in (λ u x. not (u == t)) (entries self.now.txns) }
    {
        for (u, _) in self.txns.iter() {
            if *u != t {
                return Some(*u);
            }
        }
        None
    }
}
