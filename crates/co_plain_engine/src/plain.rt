//! An engine that keeps the state itself.
ghost use Rattle.std.specs.Prelude.{◌≡◌, ◌&&◌, not, ◌==◌, [], IsTrue, IfOk, OnOk, reverse};
ghost use Rattle.std.specs.FinMap.{entries};
ghost use Rattle.co_state.specs.declared.engine_state.EngineState.{EngineState};
ghost use Rattle.co_serial.specs.Records.{all_rows};
ghost use Rattle.co_serial.specs.SerialRun.{reply_to};
ghost use Rattle.co_state.specs.Effects.{after_operation};
ghost use Rattle.co_state.specs.EngineState.{operations_in, records_now};
ghost use Rattle.co_state.specs.LockRule.{blocker_by, writes_block};
ghost use Rattle.co_state.specs.Search.{sets_block};
ghost use Rattle.co_state.specs.Table.{look, without, first_in, no_entries};
ghost use Rattle.co_engine.specs.Calls.{may_operate, seen_of};
ghost use Rattle.co_plain_engine.specs.Plain.{StandsFor, own_operations, own_stamp, own_holder, own_records, voted_roll, with_own};

use co_base::{Key, Kind, Op, Range, Reply, Rows, Txn, Value, Writes};
use co_engine::{Dump, Engine, Roll, Seen, Undecided, dump_in_place, grown, writing};
use co_pairs::{Prepared, Sets};
use co_state::{
    History, Install, Operation, Operations, RecordMap, Table, lesser, records_at, records_from,
    sets_block, stale_key, writes_block,
};
use std::alloc::{AllocError, Global};

/// An engine of any kind that keeps the state of an engine itself: the records, the installs and the
/// undecided transactions, as plain lists. It is slow and plainly right, and other engines are compared
/// with it.
#[derive(Drop)]
pub struct PlainEngine {
    kind: Kind,
    base: RecordMap,
    installed: History<Install>,
    active: Table<Operations>,
    undecided: Roll,
    nothing: Sets,
}

/// The least other active transaction that is in the way of an operation.
fn active_in_way(roll: &Roll, t: Txn, op: &Op) -> Option<Txn>
    ensures { result ≡ first_in (λ u e. not e.voted && not (u == t) && sets_block e.sets op.now) (entries roll.now) }
{
    for (u, other) in roll.iter() {
        if !other.voted && *u != t && sets_block(&other.sets, op) {
            return Some(*u);
        }
    }
    None
}

/// The least other voted transaction that is in the way of an operation.
fn voted_in_way(roll: &Roll, t: Txn, op: &Op) -> Option<Txn>
    ensures { result ≡ first_in (λ u e. e.voted && not (u == t) && writes_block e.sets.writes op.now) (entries roll.now) }
{
    for (u, other) in roll.iter() {
        if other.voted && *u != t && writes_block(other.sets.writes(), op) {
            return Some(*u);
        }
    }
    None
}

/// Takes the operations of an active transaction out of a table; none where it is absent.
fn take(alloc: Global, active: &mut Table<Operations>, t: Txn) -> Operations
    ensures value { result ≡ operations_in (look active.old t) }
    ensures rest { active.new ≡ without active.old t }
{
    match active.remove(t) {
        Some(operations) => operations,
        None => Operations::new(alloc),
    }
}

/// The records alone.
fn dump_apart(alloc: Global, records: &RecordMap) -> Result<Dump, AllocError>
    ensures rows { IfOk result (λ dump. dump.rows ≡ all_rows records.now) }
    ensures undos { IfOk result (λ dump. dump.undos ≡ []) }
{
    Ok(Dump {
        rows: records.rows(alloc)?,
        undos: Writes::new(alloc),
    })
}

/// The prepared transactions as voted ones.
fn voted_roll(alloc: Global, prepared: &[Prepared]) -> Result<Roll, AllocError>
    ensures { IfOk result (λ roll. roll ≡ voted_roll prepared.now) }
{
    let mut roll = Roll::new(alloc);
    let mut place = prepared.len();
    while 0 < place {
        place -= 1;
        let sets = prepared[place].sets.copy(alloc)?;
        roll.put(prepared[place].txn, Undecided { voted: true, sets })?;
    }
    Ok(roll)
}

impl PlainEngine {
    /// The operations of an active transaction, oldest first; none of another one.
    fn operations(&self, t: Txn) -> &[Operation]
        ensures { reverse result.now ≡ own_operations self.now t }
    {
        match self.active.get(t) {
            Some(operations) => operations.oldest_first(),
            None => &[],
        }
    }

    /// How many installs the next operation of a transaction sees.
    fn stamp(&self, t: Txn) -> u64
        ensures { result ≡ own_stamp self.now t }
    {
        let now = self.installed.len() as u64;
        match self.kind {
            Kind::Lock => now,
            Kind::Occ => now,
            Kind::Mv => match self.active.get(t) {
                Some(operations) if !operations.is_empty() => operations.at(0).stamp,
                _ => now,
            },
        }
    }

    /// The least other transaction that is in the way of an operation, if the engine locks.
    fn blocker(&self, t: Txn, op: &Op) -> Option<Txn>
        ensures { result ≡ blocker_by self.now.kind (own_holder self.now t op.now) }
    {
        match self.kind {
            Kind::Lock => {
                let active = active_in_way(&self.undecided, t, op);
                let voted = voted_in_way(&self.undecided, t, op);
                lesser(active, voted)
            }
            Kind::Occ => None,
            Kind::Mv => None,
        }
    }

    /// What an operation answers that is not blocked.
    fn reply(&self, alloc: Global, t: Txn, op: &Op) -> Result<Reply, AllocError>
        ensures { IfOk result (λ reply. reply ≡ reply_to (own_records self.now t) op.now) }
    {
        let mut records = records_at(
            alloc,
            &self.base,
            self.installed.oldest_first(),
            self.stamp(t),
        )?;
        if let Some(own) = self.undecided.get(t) {
            records.lay(own.sets.writes())?;
        }
        records.apply(alloc, op)
    }

    /// Adds an operation to its transaction.
    fn add(&mut self, alloc: Global, t: Txn, op: Op) -> Result<(), AllocError>
        ensures { OnOk result (self.new ≡ with_own self.old t op) }
    {
        let stamp = self.stamp(t);
        let own = self.undecided.take_or_new(alloc, t);
        let sets = grown(own.sets, &op)?;
        let mut operations = take(alloc, &mut self.active, t);
        operations.push(Operation { op, stamp })?;
        self.active.insert(t, operations)?;
        self.undecided.put(t, Undecided { voted: false, sets })
    }

    /// Does an operation, unless another transaction is in the way.
    fn operate(&mut self, alloc: Global, t: Txn, op: Op) -> Result<Seen, AllocError>
        ensures seen { (b : EngineState) → StandsFor self.old b → IsTrue (may_operate b t) → IfOk result (λ seen. seen ≡ seen_of b t op) }
        ensures state { (b : EngineState) → StandsFor self.old b → IsTrue (may_operate b t) → OnOk result (StandsFor self.new (after_operation b t op)) }
    {
        if let Some(holder) = self.blocker(t, &op) {
            return Ok(Seen::Blocked(holder));
        }
        let reply = self.reply(alloc, t, &op)?;
        self.add(alloc, t, op)?;
        Ok(Seen::Answer(reply))
    }

    /// The installed records.
    fn installed_records(&self, alloc: Global) -> Result<RecordMap, AllocError>
        ensures { IfOk result (λ records. records ≡ records_now self.now.base self.now.installed) }
    {
        records_at(
            alloc,
            &self.base,
            self.installed.oldest_first(),
            self.installed.len() as u64,
        )
    }
}

impl Engine for PlainEngine {
    ghost takes = { λ _. Unit {0} };

    ghost stands_for = { StandsFor };

    ghost pins = { λ _. no_entries };

    fn restore(
        alloc: Global,
        kind: Kind,
        rows: Rows,
        voted: &[Prepared],
    ) -> Result<Self, AllocError> {
        Ok(PlainEngine {
            kind,
            base: records_from(alloc, rows.into_vec())?,
            installed: History::new(alloc),
            active: Table::new(alloc),
            undecided: voted_roll(alloc, voted)?,
            nothing: Sets::new(alloc),
        })
    }

    fn read(&mut self, alloc: Global, t: Txn, key: &Key) -> Result<Seen, AllocError> {
        let op = Op::Read(key.copy()?);
        self.operate(alloc, t, op)
    }

    fn scan(&mut self, alloc: Global, t: Txn, range: &Range) -> Result<Seen, AllocError> {
        let op = Op::Scan(range.copy()?);
        self.operate(alloc, t, op)
    }

    fn write(
        &mut self,
        alloc: Global,
        t: Txn,
        key: &Key,
        value: Option<&Value>,
    ) -> Result<Seen, AllocError> {
        let op = writing(key, value)?;
        self.operate(alloc, t, op)
    }

    fn sets(&self, t: Txn) -> &Sets {
        match self.undecided.get(t) {
            Some(undecided) => &undecided.sets,
            None => &self.nothing,
        }
    }

    fn stale(&self, t: Txn) -> Option<&Key> {
        stale_key(self.installed.oldest_first(), self.operations(t))
    }

    fn cast(&mut self, t: Txn) {
        let _ = self.active.remove(t);
        self.undecided.cast(t);
    }

    fn install(&mut self, alloc: Global, t: Txn) -> Result<(), AllocError> {
        match self.undecided.take(t) {
            Some(undecided) => {
                let sets = undecided.sets;
                self.installed.push(Install {
                    txn: t,
                    writes: sets.writes,
                })
            }
            None => Ok(()),
        }
    }

    fn drop_txn(&mut self, t: Txn) {
        let _ = self.active.remove(t);
        let _ = self.undecided.take(t);
    }

    fn dump(&self, alloc: Global) -> Result<Dump, AllocError> {
        let records = self.installed_records(alloc)?;
        match self.kind {
            Kind::Lock => dump_in_place(alloc, records, &self.undecided),
            Kind::Occ => dump_apart(alloc, &records),
            Kind::Mv => dump_apart(alloc, &records),
        }
    }
}
