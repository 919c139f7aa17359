//! Lists of records in the order of their keys.
ghost use Rattle.std.specs.Prelude.{◌≡◌, ◌==◌, [], ◌∷◌, ◌++◌, length, OnOk, OnErr};
ghost use Rattle.std.specs.Cmp.Lexicographic.{pointwise};
ghost use Rattle.std.specs.Cmp.Rules.{comparing};
ghost use Rattle.std.proofs.Common.{rules};
ghost use Rattle.co_base.specs.RowOrder.{IsInKeyOrder};

use crate::row::Row;
use std::alloc::{AllocError, Global};
use std::marker::Model;

/// Records in strictly ascending order of key. A contract sees the list of them.
#[derive(Drop)]
pub struct Rows {
    items: Vec<Row>,
}

impl Model for Rows {
    ghost use Rattle.std.specs.Prelude.{List};
    ghost use Rattle.co_base.specs.declared.row.Row.{Row};
    ghost use Rattle.co_base.specs.RowOrder.{IsInKeyOrder};

    ghost Value = { List Row };

    ghost view = { λ r. r.items.items };

    ghost invariant = { λ r. IsInKeyOrder r.items.items };
}

impl Rows {
    /// No records. Takes no memory.
    pub fn new(alloc: Global) -> Rows
        ensures { result ≡ [] }
    {
        Rows {
            items: Vec::new(alloc),
        }
    }

    /// These records, which stand in the order of their keys.
    pub fn of(items: Vec<Row>) -> Rows
        requires { IsInKeyOrder items.items }
        ensures { result ≡ items.items }
    {
        Rows { items }
    }

    /// The records as a vector.
    pub fn into_vec(self) -> Vec<Row>
        ensures value { result.items ≡ self }
        ensures order { IsInKeyOrder result.items }
    {
        let _ = &self.items;
        self.items
    }

    /// Adds a record whose key is above all others. Want of memory leaves the list as it was.
    pub fn push(&mut self, row: Row) -> Result<(), AllocError>
        requires { IsInKeyOrder (self.old ++ row ∷ []) }
        ensures ok { OnOk result (self.new ≡ self.old ++ row ∷ []) }
        ensures err { OnErr result (self.new ≡ self.old) }
    {
        self.items.push(row)?;
        Ok(())
    }

    /// The records as a slice.
    pub fn as_slice(&self) -> &[Row]
        ensures value { result.now ≡ self.now }
        ensures order { IsInKeyOrder result.now }
    {
        self.items.as_slice()
    }

    /// How many records there are.
    pub fn len(&self) -> usize
        ensures { result ≡ length self.now }
    {
        self.items.len()
    }

    /// Whether there is no record.
    pub fn is_empty(&self) -> bool
        ensures { result ≡ (length self.now == 0) }
    {
        self.items.is_empty()
    }
}

impl PartialEq for Rows {
    ghost eq = { pointwise ⟦<Row as PartialEq>⟧.eq };

    ghost laws = { Prim.search (comparing, rules) };

    fn eq(&self, other: &Rows) -> bool {
        self.items == other.items
    }
}
