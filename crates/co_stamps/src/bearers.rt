//! The transactions that bear each number.
ghost use Rattle.std.specs.Prelude.{◌≡◌, OnOk, OnErr, option_copied, filter, nat_le, nat_lt};
ghost use Rattle.std.specs.FinMap.{entries};
ghost use Rattle.co_state.specs.Table.{no_entries, look, put, without, first_of};
ghost use Rattle.co_stamps.specs.Bearing.{with_bearer, without_bearer, settled, is_nobody, last_of};

use co_base::Txn;
use co_state::Table;
use std::alloc::{AllocError, Global};
use std::collections::BTreeMap;
use std::collections::btree_map::Range;
use std::marker::Model;
use std::ops::Bound;

/// The transactions that bear each number. A contract sees the finite map from numbers to them.
#[derive(Drop)]
pub struct Bearers {
    map: BTreeMap<u64, Table<()>>,
}

impl Model for Bearers {
    ghost use base.Stored.{coded_unit};
    ghost use Rattle.std.specs.Coded.{coded_ℕ};
    ghost use Rattle.std.specs.FinMap.{FinMap, code, from_entries};
    ghost use Rattle.std.specs.Ordering.{nat_cmp};

    ghost Value = { FinMap nat_cmp (FinMap nat_cmp (Unit {0})) };

    ghost coded = { code {R = nat_cmp} coded_ℕ (code {R = nat_cmp} coded_ℕ coded_unit) };

    ghost view = { λ b. from_entries b.map.entries };
}

impl Bearers {
    /// Nobody bears a number. Takes no memory.
    pub fn new(alloc: Global) -> Bearers
        ensures { result ≡ no_entries }
    {
        Bearers {
            map: BTreeMap::new(alloc),
        }
    }

    /// Those that bear a number, if it is borne.
    fn get(&self, number: u64) -> Option<&Table<()>>
        ensures { option_copied result ≡ look self.now number }
    {
        self.map.get(&number)
    }

    /// The numbers at or above one, ascending.
    fn from(&self, number: u64) -> Range<'_, u64, Table<()>>
        ensures { result ≡ filter (λ e. nat_le number e.0) (entries self.now) }
    {
        self.map.range((Bound::Included(&number), Bound::Unbounded))
    }

    /// The numbers below one, ascending.
    fn below(&self, number: u64) -> Range<'_, u64, Table<()>>
        ensures { result ≡ filter (λ e. nat_lt e.0 number) (entries self.now) }
    {
        self.map.range((Bound::Unbounded, Bound::Excluded(&number)))
    }

    /// The least number at or above one. Takes no memory.
    pub fn least_from(&self, number: u64) -> Option<u64>
        ensures { result ≡ first_of (filter (λ e. nat_le number e.0) (entries self.now)) }
    {
        let (least, _) = self.from(number).next()?;
        Some(*least)
    }

    /// The greatest number below one. Takes no memory.
    pub fn greatest_below(&self, number: u64) -> Option<u64>
        ensures { result ≡ last_of (filter (λ e. nat_lt e.0 number) (entries self.now)) }
    {
        let (greatest, _) = self.below(number).next_back()?;
        Some(*greatest)
    }

    /// Takes a number away that is borne, or not. Takes no memory.
    fn drop_number(&mut self, number: u64)
        ensures { self.new ≡ without self.old number }
    {
        let _ = self.map.remove(&number);
    }

    /// A transaction alone bears a number.
    fn begin(&mut self, alloc: Global, number: u64, t: Txn) -> Result<(), AllocError>
        ensures ok { OnOk result (self.new ≡ put self.old number (put no_entries t tt)) }
        ensures err { OnErr result (self.new ≡ self.old) }
    {
        let mut txns = Table::new(alloc);
        txns.insert(t, ())?;
        self.map.insert(number, txns)?;
        Ok(())
    }

    /// A transaction bears a number. Want of memory leaves all as it was.
    pub fn add(&mut self, alloc: Global, number: u64, t: Txn) -> Result<(), AllocError>
        ensures ok { OnOk result (self.new ≡ with_bearer self.old number t) }
        ensures err { OnErr result (self.new ≡ self.old) }
    {
        let Some(txns) = self.map.get_mut(&number) else {
            return self.begin(alloc, number, t);
        };
        txns.insert(t, ())
    }

    /// Takes a transaction away at a number.
    fn take_away(&mut self, number: u64, t: Txn)
        ensures { self.new ≡ without_bearer self.old number t }
    {
        let Some(txns) = self.map.get_mut(&number) else {
            return;
        };
        let _ = txns.remove(t);
    }

    /// Whether a number stands here that nobody bears.
    fn is_left(&self, number: u64) -> bool
        ensures { result ≡ is_nobody (look self.now number) }
    {
        match self.get(number) {
            Some(txns) => txns.is_empty(),
            None => false,
        }
    }

    /// A transaction no longer bears a number. Takes no memory.
    pub fn remove(&mut self, number: u64, t: Txn)
        ensures { self.new ≡ settled (without_bearer self.old number t) number }
    {
        self.take_away(number, t);
        if self.is_left(number) {
            self.drop_number(number);
        }
    }
}
