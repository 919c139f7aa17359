//! Records that are written in place, with the locks of those that wrote and read them.
ghost use Rattle.std.specs.Prelude.{◌≡◌, ◌≢◌, ℕ, List, ◌&&◌, ◌||◌, not, ◌==◌, true, false, IfOk, OnOk, option_copied};
ghost use Rattle.std.specs.FinMap.{get};
ghost use Rattle.co_base.specs.Span.{span_has};
ghost use Rattle.co_base.specs.declared.written.Written.{Written};
ghost use Rattle.co_serial.specs.Records.{Records, all_rows, rows_within};
ghost use Rattle.co_state.specs.Effects.{records_from};
ghost use Rattle.co_state.specs.Keys.{writes_key, writes_within};
ghost use Rattle.co_locktab.specs.Locks.{IsLeast};
ghost use Rattle.co_lock.specs.Locked.{IsLocked};
ghost use Rattle.co_lock.specs.LockedState.{LockedState, of_records, with_write, with_read, without_reads, ended, seen_by, IsClear};

use co_base::{Key, Range, Rows, Txn, Value};
use co_engine::copy_value;
use co_locktab::LockTable;
use co_store::Store;
use std::alloc::{AllocError, Global};

/// Records in place with the locks of the undecided transactions: write locks until a transaction ends, read
/// locks until it votes.
///
/// `IsLocked` says for which plain data it stands, and each clause holds for all of these. After want of
/// memory it is only dropped.
#[derive(Drop)]
pub struct LockedStore {
    store: Store,
    locks: LockTable,
}

impl LockedStore {
    /// These records, with no transaction.
    pub fn of_rows(alloc: Global, rows: Rows) -> Result<LockedStore, AllocError>
        ensures { IfOk result (λ place. IsLocked place (of_records (records_from rows))) }
    {
        let store = Store::of_rows(alloc, rows)?;
        Ok(LockedStore {
            store,
            locks: LockTable::new(alloc),
        })
    }

    /// The least other transaction that wrote a key of the range. Takes no memory.
    pub fn read_blocker(&self, t: Txn, range: &Range) -> Option<Txn>
        ensures { (g : LockedState) (writes : ℕ → List Written) → IsLocked self.now g → ((u : ℕ) (q : List ℕ) → g.wrote u q ≡ writes_key (writes u) q) → IsLeast (λ u. not (u == t) && writes_within (writes u) range.now) result }
    {
        self.locks.blocker_read(t, range)
    }

    /// The least other transaction that wrote the key or holds it for reading. Takes no memory.
    pub fn write_blocker(&self, t: Txn, key: &Key) -> Option<Txn>
        ensures { (g : LockedState) → IsLocked self.now g → IsLeast (λ u. not (u == t) && (g.wrote u key.now || g.reads u key.now)) result }
    {
        self.locks.blocker_write(t, key)
    }

    /// What a transaction sees at a key that no other one wrote. Takes no memory.
    pub fn get(&self, t: Txn, key: &Key) -> Option<&Value>
        ensures { (g : LockedState) → IsLocked self.now g → IsClear g t key.now → option_copied result ≡ seen_by g t key.now }
    {
        self.store.get(key)
    }

    /// What a transaction sees in a range of which no other one wrote a key.
    pub fn range(&self, t: Txn, range: &Range) -> Result<Rows, AllocError>
        ensures { (g : LockedState) (records : Records) → IsLocked self.now g → ((q : List ℕ) → span_has range.now q ≡ true → IsClear g t q) → ((q : List ℕ) → span_has range.now q ≡ true → get records q ≡ seen_by g t q)
            → IfOk result (λ rows. rows ≡ rows_within records range.now) }
    {
        self.store.range(range)
    }

    /// A transaction holds a range for reading.
    pub fn read(&mut self, t: Txn, range: &Range) -> Result<(), AllocError>
        ensures { (g : LockedState) → IsLocked self.old g → OnOk result (IsLocked self.new (with_read g t range.now)) }
    {
        self.locks.add_read(t, range)
    }

    /// A transaction writes a key in place that no other one wrote, or takes its record away where there is
    /// no value.
    pub fn write(&mut self, t: Txn, key: &Key, value: Option<&Value>) -> Result<(), AllocError>
        ensures { (g : LockedState) → IsLocked self.old g → IsClear g t key.now → OnOk result (IsLocked self.new (with_write g t key.now (option_copied value.entry))) }
    {
        let laid = copy_value(value)?;
        self.store.put(t, key.copy()?, laid)?;
        self.locks.add_write(t, key)
    }

    /// The read locks of a transaction end. Takes no memory.
    pub fn end_reads(&mut self, t: Txn)
        ensures { (g : LockedState) → IsLocked self.old g → IsLocked self.new (without_reads g t) }
    {
        self.locks.end_reads(t);
    }

    /// What a transaction wrote is installed, and its locks end. Takes no memory.
    pub fn keep(&mut self, t: Txn)
        ensures { (g : LockedState) (records : Records) → IsLocked self.old g → ((q : List ℕ) → get records q ≡ seen_by g t q) → IsLocked self.new (ended g t records) }
    {
        self.store.keep(t);
        self.locks.end_all(t);
    }

    /// What a transaction wrote is laid back, and its locks end. Takes no memory.
    pub fn undo(&mut self, t: Txn)
        ensures { (g : LockedState) → IsLocked self.old g → IsLocked self.new (ended g t g.installed) }
    {
        self.store.undo(t);
        self.locks.end_all(t);
    }

    /// The installed records.
    pub fn clean(&self) -> Result<Rows, AllocError>
        ensures { (g : LockedState) → IsLocked self.now g → IfOk result (λ rows. rows ≡ all_rows g.installed) }
    {
        self.store.clean()
    }
}
