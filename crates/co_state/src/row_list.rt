//! Lists of records.
ghost use Rattle.std.specs.Prelude.{◌≡◌, length, OnOk, OnErr};
ghost use Rattle.std.specs.FinMap as map;
ghost use Rattle.std.specs.List.Sorted.{IsSearchInRange, IsBinarySearchResult};
ghost use Rattle.co_base.specs.Order.{key_cmp};
ghost use Rattle.co_serial.specs.Records.{all_rows, with_change};

use co_base::{Key, Row, Rows, Value};
use std::alloc::{AllocError, Global};
use std::marker::Model;

/// Records in the order of their keys, in one piece of memory. A contract sees the finite map from keys to
/// values.
///
/// A record above all others is only added at the end, so that records laid in by ascending key take one step
/// each. Another one moves those above it.
#[derive(Drop)]
pub struct RowList {
    rows: Vec<Row>,
}

impl Model for RowList {
    ghost use Rattle.std.specs.Prelude.{List, ℕ};
    ghost use Rattle.std.specs.Coded.{coded_ℕ, coded_list};
    ghost use Rattle.std.specs.FinMap.{FinMap, code};
    ghost use Rattle.co_base.specs.Order.{key_cmp};
    ghost use Rattle.co_base.specs.RowOrder.{IsInKeyOrder};
    ghost use Rattle.co_state.specs.Effects.{records_from};

    ghost Value = { FinMap key_cmp (List ℕ) };

    ghost coded = { code (coded_list coded_ℕ) (coded_list coded_ℕ) };

    ghost view = { λ r. records_from r.rows.items };

    ghost invariant = { λ r. IsInKeyOrder r.rows.items };
}

/// Where the record of a key stands among records in the order of their keys, or else the place where it belongs.
fn place_of(rows: &[Row], key: &Key) -> Result<usize, usize>
    ensures bound { IsSearchInRange result (length rows.now) }
    ensures position { IsBinarySearchResult (λ row. key_cmp row.key key.now) rows.now result }
{
    let Some(last) = rows.last() else {
        return Err(0);
    };
    if last.key < *key {
        return Err(rows.len());
    }
    rows.binary_search_by(|row| row.key.cmp(key))
}

impl RowList {
    /// No records. Takes no memory.
    pub fn new(alloc: Global) -> RowList
        ensures { result ≡ map.empty }
    {
        RowList {
            rows: Vec::new(alloc),
        }
    }

    /// Lays in a record in place of the one of its key. Want of memory leaves the records as they were.
    pub fn set(&mut self, key: Key, value: Value) -> Result<(), AllocError>
        ensures ok { OnOk result (self.new ≡ map.insert self.old key value) }
        ensures err { OnErr result (self.new ≡ self.old) }
    {
        match place_of(self.rows.as_slice(), &key) {
            Ok(place) => self.rows[place] = Row { key, value },
            Err(place) => self.rows.insert(place, Row { key, value })?,
        }
        Ok(())
    }

    /// Takes the record of a key away, where there is one. Takes no memory.
    fn remove(&mut self, key: &Key)
        ensures { self.new ≡ map.remove self.old key.now }
    {
        match place_of(self.rows.as_slice(), key) {
            Ok(place) => {
                let _ = self.rows.remove(place);
            }
            Err(_) => {}
        }
    }

    /// Makes one change: a value is laid in, and no value takes the record away. Want of memory leaves
    /// the records as they were.
    pub fn change(&mut self, key: Key, value: Option<Value>) -> Result<(), AllocError>
        ensures ok { OnOk result (self.new ≡ with_change self.old key value) }
        ensures err { OnErr result (self.new ≡ self.old) }
    {
        match value {
            Some(value) => self.set(key, value),
            None => {
                self.remove(&key);
                Ok(())
            }
        }
    }

    /// Every record, in the order of the keys. Takes no memory.
    pub fn into_rows(self) -> Rows
        ensures { result ≡ all_rows self }
    {
        // What stands there is looked at whole, so that its order is known.
        let _ = &self.rows;
        Rows::of(self.rows)
    }
}
