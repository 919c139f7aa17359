//! Lists of transaction numbers.
ghost use Rattle.std.specs.Prelude.{◌≡◌, [], ◌∷◌, ◌++◌, OnOk, OnErr};
ghost use Rattle.co_base.specs.Order.{IsAscending};

use crate::txn::Txn;
use std::alloc::{AllocError, Global};
use std::marker::Model;

/// Transaction numbers, strictly ascending. A contract sees the list of them.
#[derive(Drop)]
pub struct Txns {
    items: Vec<Txn>,
}

impl Model for Txns {
    ghost use Rattle.std.specs.Prelude.{List, ℕ};
    ghost use Rattle.co_base.specs.Order.{IsAscending};

    ghost Value = { List ℕ };

    ghost view = { λ t. t.items.items };

    ghost invariant = { λ t. IsAscending t.items.items };
}

impl Txns {
    /// No numbers.
    pub fn new(alloc: Global) -> Txns
        ensures { result ≡ [] }
    {
        Txns {
            items: Vec::new(alloc),
        }
    }

    /// These numbers, which ascend.
    pub fn of(items: Vec<Txn>) -> Txns
        requires { IsAscending items.items }
        ensures { result ≡ items.items }
    {
        Txns { items }
    }

    /// Adds a number that is above all others.
    pub fn push(&mut self, txn: Txn) -> Result<(), AllocError>
        requires { IsAscending (self.old ++ txn ∷ []) }
        ensures ok { OnOk result (self.new ≡ self.old ++ txn ∷ []) }
        ensures err { OnErr result (self.new ≡ self.old) }
    {
        self.items.push(txn)?;
        Ok(())
    }

    /// The numbers as a slice.
    pub fn as_slice(&self) -> &[Txn]
        ensures value { result.now ≡ self.now }
        ensures ascending { IsAscending result.now }
    {
        self.items.as_slice()
    }
}
