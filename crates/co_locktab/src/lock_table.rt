//! The lock table.
ghost use Rattle.std.specs.Prelude.{◌≡◌, map, OnOk};
ghost use Rattle.std.specs.List.{list_any};
ghost use Rattle.co_state.specs.Table.{look, without};
ghost use Rattle.co_locktab.specs.Holding.{without_all};
ghost use Rattle.co_locktab.specs.Locks.{Locks, no_locks, or_none, with_read, with_write, without_reads, without_locks, read_by, same_span, blocks_read, blocks_write, IsLeast};
ghost use Rattle.co_locktab.specs.Places.{IsIndexed};
ghost use Rattle.co_locktab.specs.Shown.{Shows, is_wide};

use crate::key_index::KeyIndex;
use crate::range_index::RangeIndex;
use co_base::{Key, Range, Ranges, Sequence, Txn};
use co_state::{Table, lesser};
use std::alloc::{AllocError, Global};

/// A list of keys.
type Keys = Sequence<Key>;

/// Key locks for writing and range locks for reading, each held by any number of transactions.
///
/// `Shows` says for which plain locks a table stands, and each clause holds for every such plain locks. After
/// want of memory a table is only dropped.
#[derive(Drop)]
pub struct LockTable {
    alloc: Global,
    writers: KeyIndex,
    readers: KeyIndex,
    wide_readers: RangeIndex,
    reads: Table<Ranges>,
    writes: Table<Keys>,
}

/// Whether a range is more than one key.
fn is_wide(range: &Range) -> bool
    ensures { result ≡ is_wide range.now }
{
    !range.lo().cmp(range.hi()).is_eq()
}

/// Takes out what a transaction holds for reading; nothing where it holds nothing.
fn take_reads(alloc: Global, reads: &mut Table<Ranges>, t: Txn) -> Ranges
    ensures value { result ≡ or_none (look reads.old t) }
    ensures rest { reads.new ≡ without reads.old t }
{
    match reads.remove(t) {
        Some(ranges) => ranges,
        None => Ranges::new(alloc),
    }
}

/// Takes out what a transaction holds for writing; nothing where it holds nothing.
fn take_writes(alloc: Global, writes: &mut Table<Keys>, t: Txn) -> Keys
    ensures value { result ≡ or_none (look writes.old t) }
    ensures rest { writes.new ≡ without writes.old t }
{
    match writes.remove(t) {
        Some(keys) => keys,
        None => Keys::new(alloc),
    }
}

/// A transaction holds these ranges for reading no longer.
fn end_ranges(readers: &mut KeyIndex, wide_readers: &mut RangeIndex, ranges: &[Range], t: Txn)
    ensures one { readers.new ≡ without_all readers.old (map (λ s. s.lo) ranges.now) t }
    ensures wide { wide_readers.new.held ≡ without_all wide_readers.old.held ranges.now t }
    ensures indexed { IsIndexed wide_readers.old.held wide_readers.old.forks → IsIndexed wide_readers.new.held wide_readers.new.forks }
{
    for range in ranges {
        readers.remove(range.lo(), t);
        wide_readers.remove(range, t);
    }
}

/// A transaction holds these keys for writing no longer.
fn end_keys(writers: &mut KeyIndex, keys: &[Key], t: Txn)
    ensures { writers.new ≡ without_all writers.old keys.now t }
{
    for key in keys {
        writers.remove(key, t);
    }
}

impl LockTable {
    /// No locks. Takes no memory.
    pub fn new(alloc: Global) -> LockTable
        ensures { Shows result no_locks }
    {
        LockTable {
            alloc,
            writers: KeyIndex::new(alloc),
            readers: KeyIndex::new(alloc),
            wide_readers: RangeIndex::new(alloc),
            reads: Table::new(alloc),
            writes: Table::new(alloc),
        }
    }

    /// The least other transaction that holds a key of the range for writing, which a read of the range by
    /// this one waits for. Takes no memory.
    pub fn blocker_read(&self, t: Txn, range: &Range) -> Option<Txn>
        ensures { (locks : Locks) → Shows self.now locks → IsLeast (blocks_read locks t range.now) result }
    {
        self.writers.least_within(range, t)
    }

    /// The least other transaction that holds the key for writing or a range that has it for reading, which
    /// a write of the key by this one waits for. Takes no memory.
    pub fn blocker_write(&self, t: Txn, key: &Key) -> Option<Txn>
        ensures { (locks : Locks) → Shows self.now locks → IsLeast (blocks_write locks t key.now) result }
    {
        let writer = self.writers.first_other(key, t);
        let reader = self.readers.first_other(key, t);
        let wide_reader = self.wide_readers.least_over(key, t);
        lesser(writer, lesser(reader, wide_reader))
    }

    /// A transaction holds a range for reading. One that it holds already is not held twice.
    pub fn add_read(&mut self, t: Txn, range: &Range) -> Result<(), AllocError>
        ensures { (locks : Locks) → Shows self.old locks → OnOk result (Shows self.new (with_read locks t range.now)) }
    {
        if self.holds_read(t, range) {
            return Ok(());
        }
        let mut ranges = take_reads(self.alloc, &mut self.reads, t);
        ranges.push(range.copy()?)?;
        self.reads.insert(t, ranges)?;
        if is_wide(range) {
            self.wide_readers.add(self.alloc, range, t)
        } else {
            self.readers.add(self.alloc, range.lo(), t)
        }
    }

    /// Whether a transaction holds exactly this range for reading.
    fn holds_read(&self, t: Txn, range: &Range) -> bool
        ensures { (locks : Locks) → Shows self.now locks → result ≡ list_any (same_span range.now) (read_by locks t) }
    {
        if is_wide(range) {
            self.wide_readers.is_held(range, t)
        } else {
            self.readers.is_held(range.lo(), t)
        }
    }

    /// A transaction holds a key for writing. One that it holds already is not held twice.
    pub fn add_write(&mut self, t: Txn, key: &Key) -> Result<(), AllocError>
        ensures { (locks : Locks) → Shows self.old locks → OnOk result (Shows self.new (with_write locks t key.now)) }
    {
        if self.writers.is_held(key, t) {
            return Ok(());
        }
        let mut keys = take_writes(self.alloc, &mut self.writes, t);
        keys.push(key.copy()?)?;
        self.writes.insert(t, keys)?;
        self.writers.add(self.alloc, key, t)
    }

    /// A transaction holds nothing for reading any more. Takes no memory.
    pub fn end_reads(&mut self, t: Txn)
        ensures { (locks : Locks) → Shows self.old locks → Shows self.new (without_reads locks t) }
    {
        let ranges = take_reads(self.alloc, &mut self.reads, t);
        end_ranges(
            &mut self.readers,
            &mut self.wide_readers,
            ranges.as_slice(),
            t,
        );
    }

    /// A transaction holds nothing any more. Takes no memory.
    pub fn end_all(&mut self, t: Txn)
        ensures { (locks : Locks) → Shows self.old locks → Shows self.new (without_locks locks t) }
    {
        self.end_reads(t);
        self.end_writes(t);
    }

    /// A transaction holds nothing for writing any more.
    fn end_writes(&mut self, t: Txn)
        ensures { (locks : Locks) → Shows self.old locks → Shows self.new (record locks { writes = without locks.writes t }) }
    {
        let keys = take_writes(self.alloc, &mut self.writes, t);
        end_keys(&mut self.writers, keys.as_slice(), t);
    }
}
