//! The records of one member.
ghost use Rattle.std.specs.Prelude.{◌≡◌, filter, IfOk, OnOk, OnErr, option_copied};
ghost use Rattle.std.specs.FinMap as map;
ghost use Rattle.std.specs.FinMap.{entries};
ghost use Rattle.co_base.specs.Order.{key_cmp};
ghost use Rattle.co_base.specs.Span.{span_has};
ghost use Rattle.co_serial.specs.Records.{all_rows, rows_within};
ghost use Rattle.co_serial.specs.SerialRun.{reply_to, records_after};

use co_base::{Key, Op, Range, Reply, Row, Rows, Value};
use std::alloc::{AllocError, Global};
use std::collections::{BTreeMap, btree_map};
use std::marker::Model;
use std::ops::Bound;

/// The records of one member. A contract sees the finite map from keys to values.
#[derive(Drop)]
pub struct RecordMap {
    map: BTreeMap<Key, Value>,
}

impl Model for RecordMap {
    ghost use Rattle.std.specs.Prelude.{List, ℕ};
    ghost use Rattle.std.specs.Coded.{coded_ℕ, coded_list};
    ghost use Rattle.std.specs.FinMap.{FinMap, code, from_entries};
    ghost use Rattle.co_base.specs.Order.{key_cmp};

    ghost Value = { FinMap key_cmp (List ℕ) };

    ghost coded = { code (coded_list coded_ℕ) (coded_list coded_ℕ) };

    ghost view = { λ r. from_entries r.map.entries };
}

impl RecordMap {
    /// No records. Takes no memory.
    pub fn new(alloc: Global) -> RecordMap
        ensures { result ≡ map.empty }
    {
        RecordMap {
            map: BTreeMap::new(alloc),
        }
    }

    /// The value of a record, or none where there is no such record.
    pub fn get(&self, key: &Key) -> Option<&Value>
        ensures { option_copied result ≡ map.get self.now key.now }
    {
        self.map.get(key)
    }

    /// Lays in a record in place of the one of its key. Want of memory leaves the records as they were.
    pub fn set(&mut self, key: Key, value: Value) -> Result<(), AllocError>
        ensures ok { OnOk result (self.new ≡ map.insert self.old key value) }
        ensures err { OnErr result (self.new ≡ self.old) }
    {
        self.map.insert(key, value)?;
        Ok(())
    }

    /// Takes the record of a key away, where there is one.
    pub fn remove(&mut self, key: &Key)
        ensures { self.new ≡ map.remove self.old key.now }
    {
        let _ = self.map.remove(key);
    }

    /// Every record, in the order of the keys.
    pub fn rows(&self, alloc: Global) -> Result<Rows, AllocError>
        ensures { IfOk result (λ rows. rows ≡ all_rows self.now) }
    {
        let mut rows = Vec::new(alloc);
        for (key, value) in self.map.iter() {
            rows.push(Row {
                key: key.copy()?,
                value: value.copy()?,
            })?;
        }
        Ok(Rows::of(rows))
    }

    /// The entries of a range, in the order of the keys.
    fn within(&self, range: &Range) -> btree_map::Range<'_, Key, Value>
        ensures { result ≡ filter (λ entry. span_has range.now entry.0) (entries self.now) }
    {
        let (lo, hi) = range.bounds();
        self.map.range((Bound::Included(lo), Bound::Included(hi)))
    }

    /// The records of a range, in the order of the keys.
    pub fn rows_within(&self, alloc: Global, range: &Range) -> Result<Rows, AllocError>
        ensures { IfOk result (λ rows. rows ≡ rows_within self.now range.now) }
    {
        let mut rows = Vec::new(alloc);
        for (key, value) in self.within(range) {
            rows.push(Row {
                key: key.copy()?,
                value: value.copy()?,
            })?;
        }
        Ok(Rows::of(rows))
    }

    /// Does one operation and gives its reply. Want of memory leaves the records as they were.
    pub fn apply(&mut self, alloc: Global, op: &Op) -> Result<Reply, AllocError>
        ensures reply { IfOk result (λ reply. reply ≡ reply_to self.old op.now) }
        ensures ok { OnOk result (self.new ≡ records_after self.old op.now) }
        ensures err { OnErr result (self.new ≡ self.old) }
    {
        match op {
            Op::Read(key) => {
                let found = match self.get(key) {
                    Some(value) => Some(value.copy()?),
                    None => None,
                };
                Ok(Reply::Got(found))
            }
            Op::Write(key, value) => {
                self.set(key.copy()?, value.copy()?)?;
                Ok(Reply::Done)
            }
            Op::Erase(key) => {
                self.remove(key);
                Ok(Reply::Done)
            }
            Op::Scan(range) => Ok(Reply::Rows(self.rows_within(alloc, range)?)),
        }
    }
}
