//! The locking engine.
ghost use Rattle.std.specs.Prelude.{◌≡◌, ◌∷◌, true, None, Some, IsTrue, IfOk, OnOk, ℕ, List, option_copied, false};
ghost use Rattle.co_base.specs.declared.head.Kind.TheVariants.{Lock};
ghost use Rattle.co_base.specs.declared.op.Op.{Op};
ghost use Rattle.co_base.specs.declared.row.Row.{Row};
ghost use Rattle.co_state.specs.Keys.{writes_key};
ghost use Rattle.co_pairs.specs.Free.{clashes_with};
ghost use Rattle.co_pairs.specs.declared.prepared.Prepared.{Prepared};
ghost use Rattle.co_state.specs.declared.engine_state.EngineState.{EngineState};
ghost use Rattle.co_state.specs.Changes.{span_read, change_made};
ghost use Rattle.co_state.specs.Effects.{after_operation, with_operation, restored, records_from};
ghost use Rattle.co_state.specs.EngineState.{installed_records};
ghost use Rattle.co_state.specs.LockRule.{lock_blocker};
ghost use Rattle.co_state.specs.ReadRule.{operation_reply};
ghost use Rattle.co_state.specs.Table.{no_entries};
ghost use Rattle.co_engine.specs.Calls.{may_operate, seen_of, votes_of};
ghost use Rattle.co_lock.specs.Locked.{IsLocked};
ghost use Rattle.co_lock.specs.LockedState.{LockedState, IsClear, with_writes};
ghost use Rattle.co_lock.specs.Standing.{StandsFor};
ghost use Rattle.co_lock.specs.Undecided.{with_range, with_change_of};

use crate::locked_store::LockedStore;
use co_base::{Key, Kind, Op, Range, Ranges, Reply, Rows, Txn, Value, Writes, Written};
use co_engine::{Dump, Engine, Roll, Seen, Undecided, copy_value, dump_in_place, writing};
use co_pairs::{Prepared, Sets};
use co_state::{RecordMap, put_change, put_range, records_from};
use std::alloc::{AllocError, Global};

/// The engine that locks: it writes in place, holds write locks to the decision and read locks to the vote,
/// and keeps what was read and written until the decision.
#[derive(Drop)]
pub struct LockEngine {
    place: LockedStore,
    roll: Roll,
    nothing: Sets,
}

/// A transaction read a range.
fn note_read(alloc: Global, roll: &mut Roll, t: Txn, range: Range) -> Result<(), AllocError>
    ensures { OnOk result (roll.new ≡ with_range roll.old t range) }
{
    let own = roll.take_or_new(alloc, t);
    let sets = own.sets;
    let mut reads = sets.reads.into_vec();
    put_range(&mut reads, range)?;
    let sets = Sets {
        reads: Ranges::of(reads),
        writes: sets.writes,
    };
    roll.put(t, Undecided { voted: false, sets })
}

/// A transaction made a change.
fn note_write(alloc: Global, roll: &mut Roll, t: Txn, change: Written) -> Result<(), AllocError>
    ensures { OnOk result (roll.new ≡ with_change_of roll.old t change) }
{
    let own = roll.take_or_new(alloc, t);
    let sets = own.sets;
    let mut writes = sets.writes.into_vec();
    put_change(&mut writes, change)?;
    let sets = Sets {
        reads: sets.reads,
        writes: Writes::of(writes),
    };
    roll.put(t, Undecided { voted: false, sets })
}

/// The value that stands there, if there is one.
fn lent(value: &Option<Value>) -> Option<&Value>
    ensures { option_copied result ≡ value.now }
{
    value.as_ref()
}

/// A transaction writes changes in place of keys that no other one wrote, one after another.
fn lay_changes(place: &mut LockedStore, t: Txn, changes: &[Written]) -> Result<(), AllocError>
    ensures { (g : LockedState) → IsLocked place.old g → ((q : List ℕ) → writes_key changes.now q ≡ true → IsClear g t q) → OnOk result (IsLocked place.new (with_writes g t changes.now)) }
{
    for change in changes {
        place.write(t, &change.key, lent(&change.value))?;
    }
    Ok(())
}

impl LockEngine {
    /// Lays in a prepared transaction, which is in conflict with no other one, as a voted one.
    fn lay_vote(&mut self, alloc: Global, prepared: &Prepared) -> Result<(), AllocError>
        ensures { (rows : List Row) (ps : List Prepared) → StandsFor self.old (restored Lock (records_from rows) (votes_of ps)) → clashes_with prepared.now ps ≡ false → OnOk result (StandsFor self.new (restored Lock (records_from rows) (votes_of (prepared.now ∷ ps)))) }
    {
        lay_changes(&mut self.place, prepared.txn, prepared.sets.writes())?;
        self.roll.put(
            prepared.txn,
            Undecided {
                voted: true,
                sets: prepared.sets.copy(alloc)?,
            },
        )
    }

    /// The least other transaction that is in the way of an operation.
    fn blocker(&self, t: Txn, op: &Op) -> Result<Option<Txn>, AllocError>
        ensures { (b : EngineState) → StandsFor self.now b → IfOk result (λ found. found ≡ lock_blocker b t op.now) }
    {
        match op {
            Op::Read(key) => Ok(self.place.read_blocker(t, &Range::of_key(key)?)),
            Op::Scan(range) => Ok(self.place.read_blocker(t, range)),
            Op::Write(key, _) => Ok(self.place.write_blocker(t, key)),
            Op::Erase(key) => Ok(self.place.write_blocker(t, key)),
        }
    }

    /// What an operation answers that is not blocked.
    fn reply(&self, t: Txn, op: &Op) -> Result<Reply, AllocError>
        ensures { (b : EngineState) → StandsFor self.now b → IsTrue (may_operate b t) → lock_blocker b t op.now ≡ None → IfOk result (λ reply. reply ≡ operation_reply b t op.now) }
    {
        match op {
            Op::Read(key) => Ok(Reply::Got(copy_value(self.place.get(t, key))?)),
            Op::Scan(range) => Ok(Reply::Rows(self.place.range(t, range)?)),
            Op::Write(_, _) => Ok(Reply::Done),
            Op::Erase(_) => Ok(Reply::Done),
        }
    }

    /// A read of a range, which is not blocked.
    fn add_read(&mut self, alloc: Global, t: Txn, range: Range) -> Result<(), AllocError>
        ensures { (b : EngineState) (op : Op) → StandsFor self.old b → IsTrue (may_operate b t) → span_read op ≡ Some range → change_made op ≡ None → lock_blocker b t op ≡ None → OnOk result (StandsFor self.new (with_operation b t op)) }
    {
        self.place.read(t, &range)?;
        note_read(alloc, &mut self.roll, t, range)
    }

    /// A change, which is not blocked.
    fn add_write(&mut self, alloc: Global, t: Txn, change: Written) -> Result<(), AllocError>
        ensures { (b : EngineState) (op : Op) → StandsFor self.old b → IsTrue (may_operate b t) → span_read op ≡ None → change_made op ≡ Some change → lock_blocker b t op ≡ None → OnOk result (StandsFor self.new (with_operation b t op)) }
    {
        self.place.write(t, &change.key, lent(&change.value))?;
        note_write(alloc, &mut self.roll, t, change)
    }

    /// Adds an operation to its transaction, which is not blocked.
    fn add(&mut self, alloc: Global, t: Txn, op: Op) -> Result<(), AllocError>
        ensures { (b : EngineState) → StandsFor self.old b → IsTrue (may_operate b t) → lock_blocker b t op ≡ None → OnOk result (StandsFor self.new (with_operation b t op)) }
    {
        match op {
            Op::Read(key) => self.add_read(alloc, t, Range::of_key(&key)?),
            Op::Scan(range) => self.add_read(alloc, t, range),
            Op::Write(key, value) => {
                let value = Some(value);
                self.add_write(alloc, t, Written { key, value })
            }
            Op::Erase(key) => self.add_write(alloc, t, Written { key, value: None }),
        }
    }

    /// Does an operation, unless another transaction is in the way.
    fn operate(&mut self, alloc: Global, t: Txn, op: Op) -> Result<Seen, AllocError>
        ensures seen { (b : EngineState) → StandsFor self.old b → IsTrue (may_operate b t) → IfOk result (λ seen. seen ≡ seen_of b t op) }
        ensures state { (b : EngineState) → StandsFor self.old b → IsTrue (may_operate b t) → OnOk result (StandsFor self.new (after_operation b t op)) }
    {
        let found = self.blocker(t, &op)?;
        if let Some(holder) = found {
            return Ok(Seen::Blocked(holder));
        }
        let reply = self.reply(t, &op)?;
        self.add(alloc, t, op)?;
        Ok(Seen::Answer(reply))
    }

    /// The installed records.
    fn installed_records(&self, alloc: Global) -> Result<RecordMap, AllocError>
        ensures { (b : EngineState) → StandsFor self.now b → IfOk result (λ records. records ≡ installed_records b) }
    {
        records_from(alloc, self.place.clean()?.into_vec())
    }
}

impl Engine for LockEngine {
    ghost takes = { λ kind. kind ≡ Lock };

    ghost stands_for = { StandsFor };

    ghost pins = { λ _. no_entries };

    fn restore(
        alloc: Global,
        kind: Kind,
        rows: Rows,
        voted: &[Prepared],
    ) -> Result<Self, AllocError> {
        let mut engine = LockEngine {
            place: LockedStore::of_rows(alloc, rows)?,
            roll: Roll::new(alloc),
            nothing: Sets::new(alloc),
        };
        let mut place = voted.len();
        while 0 < place {
            place -= 1;
            engine.lay_vote(alloc, &voted[place])?;
        }
        Ok(engine)
    }

    fn read(&mut self, alloc: Global, t: Txn, key: &Key) -> Result<Seen, AllocError> {
        let op = Op::Read(key.copy()?);
        self.operate(alloc, t, op)
    }

    fn scan(&mut self, alloc: Global, t: Txn, range: &Range) -> Result<Seen, AllocError> {
        let op = Op::Scan(range.copy()?);
        self.operate(alloc, t, op)
    }

    fn write(
        &mut self,
        alloc: Global,
        t: Txn,
        key: &Key,
        value: Option<&Value>,
    ) -> Result<Seen, AllocError> {
        let op = writing(key, value)?;
        self.operate(alloc, t, op)
    }

    fn sets(&self, t: Txn) -> &Sets {
        match self.roll.get(t) {
            Some(undecided) => &undecided.sets,
            None => &self.nothing,
        }
    }

    fn stale(&self, t: Txn) -> Option<&Key> {
        None
    }

    fn cast(&mut self, t: Txn) {
        self.roll.cast(t);
        self.place.end_reads(t);
    }

    fn install(&mut self, alloc: Global, t: Txn) -> Result<(), AllocError> {
        let _ = self.roll.take(t);
        self.place.keep(t);
        Ok(())
    }

    fn drop_txn(&mut self, t: Txn) {
        let _ = self.roll.take(t);
        self.place.undo(t);
    }

    fn dump(&self, alloc: Global) -> Result<Dump, AllocError> {
        let records = self.installed_records(alloc)?;
        dump_in_place(alloc, records, &self.roll)
    }
}
