//! The holders of ranges.
ghost use Rattle.std.specs.Prelude.{◌≡◌, OnOk, option_copied, None, Some, is_some, if◌then◌else◌};
ghost use Rattle.std.specs.FinMap as map;
ghost use Rattle.std.specs.FinMap.{get, insert};
ghost use Rattle.co_locktab.specs.Holding.{is_held, first_in_lock, is_left, joined_at, left_at, settled, with_holder, without_holder, one_holder};

use crate::holders::Holders;
use co_base::{Key, Range, Txn};
use std::alloc::{AllocError, Global};
use std::collections::BTreeMap;
use std::marker::Model;

/// The holders of each range's lock. A contract sees the finite map.
#[derive(Drop)]
pub struct RangeHolders {
    map: BTreeMap<Range, Holders>,
}

impl Model for RangeHolders {
    ghost use Rattle.std.specs.Coded.{codes};
    ghost use Rattle.std.specs.FinMap.{FinMap, code, from_entries};
    ghost use Rattle.co_base.specs.Span.{span_cmp};
    ghost use Rattle.co_base.specs.contracts.range.Range as range;
    ghost use Rattle.co_locktab.specs.contracts.holders.Holders as holders;
    ghost use Rattle.co_locktab.specs.declared.holders.Holders.{Holders};

    ghost Value = { FinMap span_cmp Holders };

    ghost coded = { Prim.hlevel (codes, code {R = span_cmp} range.the_row.coded holders.the_row.coded) };

    ghost view = { λ x. from_entries x.map.entries };
}

impl RangeHolders {
    /// No locks. Takes no memory.
    pub fn new(alloc: Global) -> RangeHolders
        ensures { result ≡ map.empty }
    {
        RangeHolders {
            map: BTreeMap::new(alloc),
        }
    }

    /// The holders of a range's lock, if there are any.
    fn at(&self, range: &Range) -> Option<&Holders>
        ensures { option_copied result ≡ get self.now range.now }
    {
        self.map.get(range)
    }

    /// Whether a transaction holds a range's lock.
    pub fn is_held(&self, range: &Range, t: Txn) -> bool
        ensures { result ≡ is_held self.now range.now t }
    {
        match self.at(range) {
            Some(holders) => holders.txns.contains(t),
            None => false,
        }
    }

    /// The least holder of a range's lock other than one transaction.
    pub fn first_other(&self, range: &Range, t: Txn) -> Option<Txn>
        ensures { result ≡ first_in_lock t (get self.now range.now) }
    {
        match self.at(range) {
            Some(holders) => holders.first_other(t),
            None => None,
        }
    }

    /// A transaction holds a range's lock.
    pub fn add(&mut self, alloc: Global, range: &Range, t: Txn) -> Result<(), AllocError>
        ensures { OnOk result (self.new ≡ with_holder self.old range.now t) }
    {
        match self.at(range) {
            Some(_) => self.join(range, t),
            None => self.enter(alloc, range.copy()?, t),
        }
    }

    /// A transaction is the first one to hold a range's lock.
    fn enter(&mut self, alloc: Global, range: Range, t: Txn) -> Result<(), AllocError>
        ensures { OnOk result (self.new ≡ insert self.old range (one_holder t)) }
    {
        let mut holders = Holders::new(alloc);
        holders.join(t)?;
        self.map.insert(range, holders)?;
        Ok(())
    }

    /// A transaction holds a range's lock too, where there are others.
    fn join(&mut self, range: &Range, t: Txn) -> Result<(), AllocError>
        ensures { OnOk result (self.new ≡ joined_at self.old range.now t) }
    {
        let Some(holders) = self.map.get_mut(range) else {
            return Ok(());
        };
        holders.join(t)
    }

    /// A transaction holds a range's lock no longer, and a lock that nobody holds is gone: its range comes back.
    /// Takes no memory.
    pub fn remove(&mut self, range: &Range, t: Txn) -> Option<Range>
        ensures rest { self.new ≡ without_holder self.old range.now t }
        ensures ended { result ≡ (if is_left (get (left_at self.old range.now t) range.now) then Some range.now else None) }
    {
        self.leave(range, t);
        self.settle(range)
    }

    /// A transaction holds a range's lock no longer.
    fn leave(&mut self, range: &Range, t: Txn)
        ensures { self.new ≡ left_at self.old range.now t }
    {
        let Some(holders) = self.map.get_mut(range) else {
            return;
        };
        holders.leave(t);
    }

    /// A lock that nobody holds is gone, and its range comes back.
    fn settle(&mut self, range: &Range) -> Option<Range>
        ensures rest { self.new ≡ settled self.old range.now }
        ensures ended { result ≡ (if is_left (get self.old range.now) then Some range.now else None) }
    {
        match self.at(range) {
            Some(holders) if holders.is_empty() => self.forget(range),
            _ => None,
        }
    }

    /// A range's lock is gone, and the range comes back.
    fn forget(&mut self, range: &Range) -> Option<Range>
        ensures rest { self.new ≡ map.remove self.old range.now }
        ensures ended { result ≡ (if is_some (get self.old range.now) then Some range.now else None) }
    {
        let Some((forgotten, holders)) = self.map.remove_entry(range) else {
            return None;
        };
        let _ = holders;
        Some(forgotten)
    }
}
