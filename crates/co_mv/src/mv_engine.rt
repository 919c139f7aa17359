//! The engine.
ghost use Rattle.std.specs.Prelude.{◌≡◌, ◌<◌, length, map, reverse, slice_get, Some, IsTrue, IfOk, OnOk, option_copied};
ghost use Rattle.std.specs.FinMap.{get, entries};
ghost use Rattle.co_base.specs.declared.head.Kind.TheVariants.{Mv};
ghost use Rattle.co_engine.specs.Calls.{may_operate, seen_of};
ghost use Rattle.co_mv.specs.Chains.{chain_of};
ghost use Rattle.co_mv.specs.Kept.{StandsFor, stamp_of, pins_of, own_writes, seen_within, visible_within};
ghost use Rattle.co_mv.specs.Ordered.{IsOrdered, AreOrdered};
ghost use Rattle.co_mv.specs.Versions.{kept_versions, seen_value};
ghost use Rattle.co_serial.specs.Records.{Records, all_rows, with_changes};
ghost use Rattle.co_state.specs.declared.engine_state.EngineState.{EngineState};
ghost use Rattle.co_state.specs.Effects.{after_operation, with_operation};
ghost use Rattle.co_state.specs.ReadRule.{operation_reply};

use crate::archive::Archive;
use crate::reading::{all_records, lay_within, records_within, seen_value};
use crate::stale::least_written;
use co_base::{Key, Kind, Op, Range, Reply, Rows, Txn, Value, Writes, Written};
use co_engine::{Dump, Engine, Pinned, Pinning, Seen, copy_value, grow, prepared_sets, writing};
use co_index::value_after;
use co_pairs::{Prepared, Sets};
use co_state::Table;
use std::alloc::{AllocError, Global};

/// An engine that keeps versions. Each transaction reads the records as they were at its first operation, with
/// its own writes laid over, and nobody is blocked.
///
/// A version is kept as long as an active transaction, a new one or a pinned reader can read it.
#[derive(Drop)]
pub struct MvEngine {
    archive: Archive,
    undecided: Table<Sets>,
    nothing: Sets,
}

impl MvEngine {
    /// How many versions of a key are kept. Takes no memory.
    pub fn versions(&self, key: &Key) -> usize
        ensures kept { result ≡ length (chain_of self.now.archive.chains key.now) }
        ensures needed { (b : EngineState) → StandsFor self.now b → result ≡ length (kept_versions b (pins_of self.now) key.now) }
    {
        self.archive.chains.len_of(key)
    }

    /// The value of the kept version of a key at a place, in the order of installation, or none where the record
    /// was taken away. The place is below the count of versions. Takes no memory.
    pub fn version_at(&self, key: &Key, place: usize) -> Option<&Value>
        requires { place < length (chain_of self.now.archive.chains key.now) }
        ensures { (b : EngineState) → StandsFor self.now b → slice_get (map (λ v. v.value) (kept_versions b (pins_of self.now) key.now)) place ≡ Some (option_copied result) }
    {
        self.archive.chains.value_at(key, place)
    }

    /// What an undecided transaction wrote; nothing of an absent one.
    fn own_writes(&self, t: Txn) -> &[Written]
        ensures { result.now ≡ own_writes self.now t }
    {
        match self.undecided.get(t) {
            Some(sets) => sets.writes(),
            None => &[],
        }
    }

    /// The value of a key that the next operation of a transaction sees. Takes no memory.
    fn value(&self, t: Txn, key: &Key) -> Option<&Value>
        ensures { (past : Records) → IsOrdered (chain_of self.now.archive.chains key.now) → get past key.now ≡ seen_value (stamp_of self.now.archive.snapshots t) (chain_of self.now.archive.chains key.now) → option_copied result ≡ get (with_changes past (own_writes self.now t)) key.now }
    {
        let stamp = self.archive.snapshots.stamp_of(t);
        let found = seen_value(&self.archive.chains, key, stamp);
        value_after(found, self.own_writes(t), key)
    }

    /// The records of a range at a number of installs.
    fn rows_at(&self, alloc: Global, range: &Range, installs: u64) -> Result<Rows, AllocError>
        ensures { AreOrdered (entries self.now.archive.chains) → IfOk result (λ rows. rows ≡ all_rows (seen_within self.now.archive.chains range.now installs)) }
    {
        let records = records_within(alloc, &self.archive.chains, range, installs)?;
        Ok(records.into_rows())
    }

    /// The records of a range that the next operation of a transaction sees.
    fn rows(&self, alloc: Global, t: Txn, range: &Range) -> Result<Rows, AllocError>
        ensures { AreOrdered (entries self.now.archive.chains) → IfOk result (λ rows. rows ≡ all_rows (visible_within self.now t range.now)) }
    {
        let stamp = self.archive.snapshots.stamp_of(t);
        let mut records = records_within(alloc, &self.archive.chains, range, stamp)?;
        lay_within(&mut records, self.own_writes(t), range)?;
        Ok(records.into_rows())
    }

    /// What an operation answers.
    fn reply(&self, alloc: Global, t: Txn, op: &Op) -> Result<Reply, AllocError>
        ensures { (b : EngineState) → StandsFor self.now b → IsTrue (may_operate b t) → IfOk result (λ reply. reply ≡ operation_reply b t op.now) }
    {
        match op {
            Op::Read(key) => Ok(Reply::Got(copy_value(self.value(t, key))?)),
            Op::Scan(range) => Ok(Reply::Rows(self.rows(alloc, t, range)?)),
            Op::Write(_, _) => Ok(Reply::Done),
            Op::Erase(_) => Ok(Reply::Done),
        }
    }

    /// Adds an operation to its transaction.
    fn add(&mut self, alloc: Global, t: Txn, op: &Op) -> Result<(), AllocError>
        ensures state { (b : EngineState) → StandsFor self.old b → IsTrue (may_operate b t) → OnOk result (StandsFor self.new (with_operation b t op.now)) }
        ensures pins { pins_of self.new ≡ pins_of self.old }
    {
        grow(alloc, &mut self.undecided, t, op)?;
        self.archive.enter(alloc, t)
    }

    /// Does an operation.
    fn operate(&mut self, alloc: Global, t: Txn, op: &Op) -> Result<Seen, AllocError>
        ensures seen { (b : EngineState) → StandsFor self.old b → IsTrue (may_operate b t) → IfOk result (λ seen. seen ≡ seen_of b t op.now) }
        ensures state { (b : EngineState) → StandsFor self.old b → IsTrue (may_operate b t) → OnOk result (StandsFor self.new (after_operation b t op.now)) }
        ensures pins { pins_of self.new ≡ pins_of self.old }
    {
        let reply = self.reply(alloc, t, op)?;
        self.add(alloc, t, op)?;
        Ok(Seen::Answer(reply))
    }
}

impl Engine for MvEngine {
    ghost takes = { λ kind. Mv ≡ kind };

    ghost stands_for = { StandsFor };

    ghost pins = { pins_of };

    fn restore(
        alloc: Global,
        kind: Kind,
        rows: Rows,
        voted: &[Prepared],
    ) -> Result<Self, AllocError> {
        let _ = kind;
        Ok(MvEngine {
            archive: Archive::of_rows(alloc, rows)?,
            undecided: prepared_sets(alloc, voted)?,
            nothing: Sets::new(alloc),
        })
    }

    fn read(&mut self, alloc: Global, t: Txn, key: &Key) -> Result<Seen, AllocError> {
        let op = Op::Read(key.copy()?);
        self.operate(alloc, t, &op)
    }

    fn scan(&mut self, alloc: Global, t: Txn, range: &Range) -> Result<Seen, AllocError> {
        let op = Op::Scan(range.copy()?);
        self.operate(alloc, t, &op)
    }

    fn write(
        &mut self,
        alloc: Global,
        t: Txn,
        key: &Key,
        value: Option<&Value>,
    ) -> Result<Seen, AllocError> {
        let op = writing(key, value)?;
        self.operate(alloc, t, &op)
    }

    fn sets(&self, t: Txn) -> &Sets {
        match self.undecided.get(t) {
            Some(sets) => sets,
            None => &self.nothing,
        }
    }

    fn stale(&self, t: Txn) -> Option<&Key> {
        match self.undecided.get(t) {
            Some(own) => least_written(
                &self.archive.chains,
                own.reads(),
                self.archive.snapshots.stamp_of(t),
            ),
            None => None,
        }
    }

    fn cast(&mut self, t: Txn) {
        self.archive.leave(t);
    }

    fn install(&mut self, alloc: Global, t: Txn) -> Result<(), AllocError> {
        match self.undecided.remove(t) {
            Some(sets) => self.archive.install(alloc, sets.writes()),
            None => Ok(()),
        }
    }

    fn drop_txn(&mut self, t: Txn) {
        self.archive.leave(t);
        let _ = self.undecided.remove(t);
    }

    fn dump(&self, alloc: Global) -> Result<Dump, AllocError> {
        let records = all_records(alloc, &self.archive.chains, self.archive.snapshots.installs)?;
        Ok(Dump {
            rows: records.into_rows(),
            undos: Writes::new(alloc),
        })
    }
}

impl Pinning for MvEngine {
    fn pin(&mut self, alloc: Global, id: u32) -> Result<Pinned, AllocError> {
        if self.archive.snapshots.pin_of(id).is_some() {
            return Ok(Pinned::Taken);
        }
        self.archive.pin(alloc, id)?;
        Ok(Pinned::Kept)
    }

    fn look(&self, alloc: Global, id: u32, range: &Range) -> Result<Option<Rows>, AllocError> {
        match self.archive.snapshots.pin_of(id) {
            Some(installs) => Ok(Some(self.rows_at(alloc, range, installs)?)),
            None => Ok(None),
        }
    }

    fn unpin(&mut self, id: u32) {
        self.archive.unpin(id);
    }
}
