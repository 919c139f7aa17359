//! What the undecided transactions touched.
ghost use Rattle.std.specs.Prelude.{◌≡◌, Bool, ℕ, false, OnOk};
ghost use Rattle.co_index.specs.Indexed.{IsIndexOf, with_vote};
ghost use Rattle.co_index.specs.Touching.{no_index, spans_in, with_scan, with_read, with_write, with_reads, with_writes, with_votes, without_read, without_reads, without_writes, read_noted, change_noted};
ghost use Rattle.co_state.specs.Changes.{span_read, change_made};
ghost use Rattle.co_state.specs.Effects.{with_operation, after_cast, after_drop};
ghost use Rattle.co_state.specs.EngineState.{is_undecided, sets_at};
ghost use Rattle.co_state.specs.Table.{holds, look, without};
ghost use Rattle.co_state.specs.declared.engine_state.EngineState.{EngineState};

use crate::touched::Touched;
use co_base::{Key, Op, Range, Ranges, Txn, Written};
use co_pairs::{Prepared, Sets};
use co_state::{Table, change_made, put_range, range_read};
use std::alloc::{AllocError, Global};

/// The undecided transactions by what they touched: those that wrote each key, with whether they have voted; those
/// that read each key alone; and the wider ranges that each of them read.
///
/// `IsIndexOf` says for which engine states it stands. After want of memory it is only dropped.
#[derive(Drop)]
pub struct Index {
    pub(crate) writers: Touched<bool>,
    pub(crate) readers: Touched<()>,
    pub(crate) scanners: Table<Ranges>,
}

/// Takes the wide ranges of a transaction out of a table; none where it is absent.
fn take_ranges(alloc: Global, scanners: &mut Table<Ranges>, t: Txn) -> Ranges
    ensures value { result ≡ spans_in (look scanners.old t) }
    ensures rest { scanners.new ≡ without scanners.old t }
{
    match scanners.remove(t) {
        Some(ranges) => ranges,
        None => Ranges::new(alloc),
    }
}

/// A transaction reads a wide range.
fn add_scan(
    alloc: Global,
    scanners: &mut Table<Ranges>,
    range: &Range,
    t: Txn,
) -> Result<(), AllocError>
    ensures { OnOk result (scanners.new ≡ with_scan scanners.old range.now t) }
{
    let taken = take_ranges(alloc, scanners, t);
    let mut ranges = taken.into_vec();
    put_range(&mut ranges, range.copy()?)?;
    scanners.insert(t, Ranges::of(ranges))
}

impl Index {
    /// No transactions. Takes no memory.
    pub fn new(alloc: Global) -> Index
        ensures { (b : EngineState) → ((u : ℕ) → is_undecided b u ≡ false) → IsIndexOf result b }
    {
        Index {
            writers: Touched::new(alloc),
            readers: Touched::new(alloc),
            scanners: Table::new(alloc),
        }
    }

    /// A transaction reads a range.
    fn add_read(&mut self, alloc: Global, range: &Range, t: Txn) -> Result<(), AllocError>
        ensures { OnOk result (self.new ≡ with_read self.old range.now t) }
    {
        if range.lo().cmp(range.hi()).is_eq() {
            self.readers.add(alloc, range.lo(), t, ())
        } else {
            add_scan(alloc, &mut self.scanners, range, t)
        }
    }

    /// A transaction, which has voted or has not, writes a key.
    fn add_write(&mut self, alloc: Global, key: &Key, t: Txn, voted: bool) -> Result<(), AllocError>
        ensures { OnOk result (self.new ≡ with_write self.old key.now t voted) }
    {
        self.writers.add(alloc, key, t, voted)
    }

    /// A transaction reads some ranges.
    fn add_reads(&mut self, alloc: Global, reads: &[Range], t: Txn) -> Result<(), AllocError>
        ensures { OnOk result (self.new ≡ with_reads self.old reads.now t) }
    {
        for range in reads {
            self.add_read(alloc, range, t)?;
        }
        Ok(())
    }

    /// A transaction that has voted wrote some keys.
    fn add_writes(&mut self, alloc: Global, writes: &[Written], t: Txn) -> Result<(), AllocError>
        ensures { OnOk result (self.new ≡ with_writes self.old writes.now t) }
    {
        for change in writes {
            self.add_write(alloc, &change.key, t, true)?;
        }
        Ok(())
    }

    /// A voted transaction enters.
    pub fn enter(&mut self, alloc: Global, vote: &Prepared) -> Result<(), AllocError>
        ensures { (b : EngineState) → IsIndexOf self.old b → is_undecided b vote.now.txn ≡ false → OnOk result (IsIndexOf self.new (with_vote b vote.now)) }
    {
        self.add_reads(alloc, vote.sets.reads(), vote.txn)?;
        self.add_writes(alloc, vote.sets.writes(), vote.txn)
    }

    /// Lays in what an operation of a transaction that has not voted reads and writes.
    fn add_operation(&mut self, alloc: Global, op: &Op, t: Txn) -> Result<(), AllocError>
        ensures { OnOk result (self.new ≡ change_noted (change_made op.now) (read_noted (span_read op.now) self.old t) t) }
    {
        if let Some(range) = range_read(op)? {
            self.add_read(alloc, &range, t)?;
        }
        if let Some(change) = change_made(op)? {
            self.add_write(alloc, &change.key, t, false)?;
        }
        Ok(())
    }

    /// A transaction that has not voted does an operation.
    pub fn note(&mut self, alloc: Global, op: &Op, t: Txn) -> Result<(), AllocError>
        ensures { (b : EngineState) → IsIndexOf self.old b → holds b.voted t ≡ false → OnOk result (IsIndexOf self.new (with_operation b t op.now)) }
    {
        self.add_operation(alloc, op, t)
    }

    /// A transaction that read and wrote this votes. Takes no memory.
    pub fn cast(&mut self, own: &Sets, t: Txn)
        ensures { (b : EngineState) (coord count : ℕ) → IsIndexOf self.old b → holds b.voted t ≡ false → own.now ≡ sets_at b t → IsIndexOf self.new (after_cast b t coord count) }
    {
        self.mark_writes(own.writes(), t);
    }

    /// A transaction that wrote some keys has voted.
    fn mark_writes(&mut self, writes: &[Written], t: Txn)
        ensures { self.new ≡ with_votes self.old writes.now t }
    {
        for change in writes {
            self.writers.mark(&change.key, t);
        }
    }

    /// A transaction that read a range is gone.
    fn forget_read(&mut self, range: &Range, t: Txn)
        ensures { self.new ≡ without_read self.old range.now t }
    {
        if range.lo().cmp(range.hi()).is_eq() {
            self.readers.forget(range.lo(), t);
        } else {
            let _ = self.scanners.remove(t);
        }
    }

    /// A transaction that read some ranges is gone.
    fn forget_reads(&mut self, reads: &[Range], t: Txn)
        ensures { self.new ≡ without_reads self.old reads.now t }
    {
        for range in reads {
            self.forget_read(range, t);
        }
    }

    /// A transaction that wrote some keys is gone.
    fn forget_writes(&mut self, writes: &[Written], t: Txn)
        ensures { self.new ≡ without_writes self.old writes.now t }
    {
        for change in writes {
            self.writers.forget(&change.key, t);
        }
    }

    /// A transaction that read and wrote this is gone. Takes no memory.
    pub fn forget(&mut self, own: &Sets, t: Txn)
        ensures { (b : EngineState) → IsIndexOf self.old b → own.now ≡ sets_at b t → IsIndexOf self.new (after_drop b t) }
    {
        self.forget_reads(own.reads(), t);
        self.forget_writes(own.writes(), t);
    }
}
