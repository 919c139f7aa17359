//! The engine with backward validation.
ghost use Rattle.std.specs.Prelude.{◌≡◌, ◌<◌, ◌+◌, Some, IsTrue, IfOk, OnOk, length, slice_get, option_copied, reverse};
ghost use Rattle.std.specs.FinMap.{get};
ghost use Rattle.co_base.specs.declared.head.Kind.TheVariants.{Occ};
ghost use Rattle.co_serial.specs.Records.{rows_within};
ghost use Rattle.co_state.specs.declared.engine_state.EngineState.{EngineState};
ghost use Rattle.co_state.specs.Effects.{with_operation};
ghost use Rattle.co_state.specs.Table.{no_entries};
ghost use Rattle.co_engine.specs.Calls.{may_operate};
ghost use Rattle.co_occ.specs.Last.{AreLast};
ghost use Rattle.co_occ.specs.Old.{old_writes};
ghost use Rattle.co_occ.specs.Stands.{StandsFor, own_writes, own_records, own_reads, needed, recent_needed, with_needed};

use crate::installed::{lay, records_of};
use crate::lasts::{keep_newest, note};
use crate::old::OldWrites;
use crate::reading::{all_records, records_within, seen_value};
use crate::reads::Read;
use crate::register::Register;
use crate::validation::stale_key;
use co_base::{Key, Kind, Op, Range, Reply, Rows, Txn, Value, Writes, Written};
use co_engine::{Dump, Engine, Seen, copy_value, grow, prepared_sets, writing};
use co_index::KeyMap;
use co_pairs::{Prepared, Sets};
use co_state::{Table, range_read};
use std::alloc::{AllocError, Global};

/// An engine of the kind `Occ`: writes are private, no operation is blocked, and whether a read was
/// overwritten is looked up when its transaction is to vote.
///
/// It keeps the installed records, what each undecided transaction read and wrote, and the write sets of
/// the installs that came after the oldest read of an active transaction.
#[derive(Drop)]
pub struct OccEngine {
    records: KeyMap<Value>,
    installs: u64,
    recent: OldWrites,
    lasts: KeyMap<u64>,
    reads: Register,
    undecided: Table<Sets>,
    nothing: Sets,
}

/// The next number of installs. It is kept in 64 bits, and one past them is want of memory.
fn one_more(installs: u64) -> Result<u64, AllocError>
    ensures { IfOk result (λ more. more ≡ installs + 1) }
{
    match installs.checked_add(1) {
        Some(more) => Ok(more),
        None => Err(AllocError),
    }
}

impl OccEngine {
    /// How many write sets of installs are kept: those of the installs after the oldest read of an active
    /// transaction, and none where no active transaction has a read. Takes no memory.
    pub fn old_len(&self) -> usize
        ensures kept { result ≡ length self.now.recent }
        ensures exactly { (b : EngineState) → StandsFor self.now b → result ≡ length (old_writes b) }
    {
        self.recent.len()
    }

    /// A kept write set, by its place in the order of installation. The place is below the number of them.
    /// Takes no memory.
    pub fn old_at(&self, place: usize) -> &Writes
        requires { place < length self.now.recent }
        ensures { (b : EngineState) → StandsFor self.now b → slice_get (old_writes b) place ≡ Some result.now }
    {
        self.recent.at(place)
    }

    /// What an undecided transaction wrote; nothing of an absent one.
    fn own_writes(&self, t: Txn) -> &[Written]
        ensures { result.now ≡ own_writes self.now t }
    {
        match self.undecided.get(t) {
            Some(sets) => sets.writes(),
            None => &[],
        }
    }

    /// What a transaction finds at a key.
    fn value(&self, t: Txn, key: &Key) -> Option<&Value>
        ensures { option_copied result ≡ get (own_records self.now t) key.now }
    {
        seen_value(&self.records, self.own_writes(t), key)
    }

    /// What a transaction finds in a range.
    fn rows(&self, alloc: Global, t: Txn, range: &Range) -> Result<Rows, AllocError>
        ensures { IfOk result (λ rows. rows ≡ rows_within (own_records self.now t) range.now) }
    {
        let records = records_within(alloc, &self.records, self.own_writes(t), range)?;
        Ok(records.into_rows())
    }

    /// The reads of an active transaction, oldest first; none of another one.
    fn reads(&self, t: Txn) -> &[Read]
        ensures { reverse result.now ≡ own_reads self.now t }
    {
        match self.reads.get(t) {
            Some(reads) => reads.list.oldest_first(),
            None => &[],
        }
    }

    /// Adds an operation to its transaction.
    fn add(&mut self, alloc: Global, t: Txn, op: &Op) -> Result<(), AllocError>
        ensures { (b : EngineState) → StandsFor self.old b → IsTrue (may_operate b t) → OnOk result (StandsFor self.new (with_operation b t op.now)) }
    {
        grow(alloc, &mut self.undecided, t, op)?;
        let range = range_read(op)?;
        self.reads.add(alloc, t, range, self.installs)
    }

    /// How many of the newest installs came after the oldest read of an active transaction.
    fn needed(&self) -> u64
        ensures { result ≡ needed self.now }
    {
        match self.reads.oldest_read() {
            Some(stamp) => self.installs.saturating_sub(stamp),
            None => 0,
        }
    }

    /// Forgets the write sets that no read of an active transaction needs. Takes no memory.
    fn forget_old(&mut self)
        ensures rest { self.new ≡ with_needed self.old self.new.lasts }
        ensures lasts { AreLast self.old.lasts self.old.recent self.old.installs → AreLast self.new.lasts (recent_needed self.old) self.old.installs }
    {
        let needed = self.needed();
        keep_newest(&mut self.recent, &mut self.lasts, self.installs, needed);
    }
}

impl Engine for OccEngine {
    ghost takes = { λ kind. kind ≡ Occ };

    ghost stands_for = { StandsFor };

    ghost pins = { λ _. no_entries };

    fn restore(
        alloc: Global,
        kind: Kind,
        rows: Rows,
        voted: &[Prepared],
    ) -> Result<Self, AllocError> {
        let _ = kind;
        Ok(OccEngine {
            records: records_of(alloc, rows.into_vec())?,
            installs: 0,
            recent: OldWrites::new(alloc),
            lasts: KeyMap::new(alloc),
            reads: Register::new(alloc),
            undecided: prepared_sets(alloc, voted)?,
            nothing: Sets::new(alloc),
        })
    }

    fn read(&mut self, alloc: Global, t: Txn, key: &Key) -> Result<Seen, AllocError> {
        let value = copy_value(self.value(t, key))?;
        let op = Op::Read(key.copy()?);
        self.add(alloc, t, &op)?;
        Ok(Seen::Answer(Reply::Got(value)))
    }

    fn scan(&mut self, alloc: Global, t: Txn, range: &Range) -> Result<Seen, AllocError> {
        let rows = self.rows(alloc, t, range)?;
        let op = Op::Scan(range.copy()?);
        self.add(alloc, t, &op)?;
        Ok(Seen::Answer(Reply::Rows(rows)))
    }

    fn write(
        &mut self,
        alloc: Global,
        t: Txn,
        key: &Key,
        value: Option<&Value>,
    ) -> Result<Seen, AllocError> {
        let op = writing(key, value)?;
        self.add(alloc, t, &op)?;
        Ok(Seen::Answer(Reply::Done))
    }

    fn sets(&self, t: Txn) -> &Sets {
        match self.undecided.get(t) {
            Some(sets) => sets,
            None => &self.nothing,
        }
    }

    fn stale(&self, t: Txn) -> Option<&Key> {
        stale_key(&self.lasts, self.reads(t))
    }

    fn cast(&mut self, t: Txn) {
        let _ = self.reads.take(t);
        self.forget_old();
    }

    fn install(&mut self, alloc: Global, t: Txn) -> Result<(), AllocError> {
        let Some(sets) = self.undecided.remove(t) else {
            return Ok(());
        };
        let writes = sets.writes;
        self.installs = one_more(self.installs)?;
        lay(&mut self.records, writes.as_slice())?;
        note(&mut self.lasts, writes.as_slice(), self.installs)?;
        self.recent.push(writes)?;
        self.forget_old();
        Ok(())
    }

    fn drop_txn(&mut self, t: Txn) {
        let _ = self.reads.take(t);
        let _ = self.undecided.remove(t);
        self.forget_old();
    }

    fn dump(&self, alloc: Global) -> Result<Dump, AllocError> {
        let records = all_records(alloc, &self.records)?;
        Ok(Dump {
            rows: records.into_rows(),
            undos: Writes::new(alloc),
        })
    }
}
