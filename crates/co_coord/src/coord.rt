//! The coordinator on its log.
ghost use Rattle.std.specs.Prelude.{◌≡◌, true, Option, None, Some, [], Ok, Err, IfOk, IfErr, OnOk, OnErr};
ghost use Rattle.co_base.specs.declared.node.Node.TheVariants as node;
ghost use Rattle.co_log.specs.LogView.{IsHeld, IsShort};
ghost use Rattle.co_log.specs.Others.{OtherNodesStay};
ghost use Rattle.co_log.specs.declared.fault.NodeFault.TheVariants.{Memory};
ghost use Rattle.co_message.specs.declared.answer.Answer.TheVariants as answer;
ghost use Rattle.co_plain.specs.declared.coord_state.CoordState.{CoordState};
ghost use Rattle.co_plain.specs.declared.coord_state.Entry.{Entry};
ghost use Rattle.co_state.specs.Table.{Table};
ghost use Rattle.co_coord.specs.Plans.{changed, carried_out};
ghost use Rattle.co_coord.specs.Standing.{is_up, RepresentsCoord, HasDone, IsSame, written_by};
ghost use Rattle.co_node.specs.Writing.{MayWriteOne, IsAnsweredFor};
ghost use Rattle.co_node.specs.declared.writing.Writes.TheVariants.{Nothing};

use crate::plan::{Change, Plan};
use crate::step::CoordStep;
use co_base::{Marks, Txn};
use co_log::{Log, NodeFault};
use co_message::{Answer, Messages};
use co_node::{Written, write};
use co_outside::Home;
use co_plain::Entry;
use co_state::Table;
use std::alloc::{AllocError, Global};

/// One coordinator on its log.
///
/// `RepresentsCoord` says for which plain coordinators it stands, and each clause holds for every such one. After a fault it is only dropped.
#[derive(Drop)]
pub struct Coord {
    pub(crate) alloc: Global,
    pub(crate) number: u8,
    pub(crate) members: u8,
    pub(crate) log: Log,
    /// Its transactions, while it is up.
    pub(crate) table: Option<Table<Entry>>,
}

/// Changes the entry of a transaction.
fn apply(table: &mut Table<Entry>, txn: Txn, change: Change) -> Result<(), AllocError>
    ensures { OnOk result (table.new ≡ changed table.old txn change) }
{
    match change {
        Change::Stays => Ok(()),
        Change::Becomes(entry) => table.insert(txn, entry),
        Change::Leaves => {
            table.remove(txn);
            Ok(())
        }
    }
}

/// The step of a plan that writes nothing, where its change was made.
fn settled(
    alloc: Global,
    changed: Result<(), AllocError>,
    answer: Answer,
    sent: Messages,
) -> Result<CoordStep, NodeFault>
    ensures done { OnOk changed (result ≡ Ok (record { answer = answer; sent = sent; marks = [] })) }
    ensures memory { OnErr changed (result ≡ Err Memory) }
{
    match changed {
        Ok(()) => Ok(CoordStep {
            answer,
            sent,
            marks: Marks::new(alloc),
        }),
        Err(_) => Err(NodeFault::Memory),
    }
}

impl Coord {
    /// The table of a coordinator that is up.
    pub(crate) fn table(&self) -> &Table<Entry>
        requires { is_up self.now ≡ true }
        ensures { self.now.table ≡ Some result.now }
    {
        match &self.table {
            Some(table) => table,
            None => unreachable!(),
        }
    }

    /// Changes the entry of a transaction, while the coordinator is up.
    fn change(&mut self, txn: Txn, change: Change) -> Result<(), AllocError>
        requires { is_up self.old ≡ true }
        ensures table { (t : Table Entry) → self.old.table ≡ Some t → OnOk result (self.new.table ≡ Some (changed t txn change)) }
        ensures log { self.new.log ≡ self.old.log }
        ensures same { IsSame self.old self.new }
    {
        match &mut self.table {
            Some(table) => apply(table, txn, change),
            None => unreachable!(),
        }
    }

    /// A log write was stopped: what was in memory is lost, and the coordinator is down.
    pub(crate) fn stopped(&mut self, call: u8, marks: Marks) -> CoordStep
        ensures step { result ≡ record { answer = answer.Stopped call; sent = []; marks = marks } }
        ensures down { self.new.table ≡ None }
        ensures log { self.new.log ≡ self.old.log }
        ensures same { IsSame self.old self.new }
    {
        self.table = None;
        CoordStep {
            answer: Answer::Stopped(call),
            sent: Messages::new(self.alloc),
            marks,
        }
    }

    /// Carries a plan out: its change of the table, for which there may be no memory, and then its log write. What a stopped write leaves is
    /// what the log tells.
    pub(crate) fn carry_out<H: Home>(
        &mut self,
        home: &mut H,
        txn: Txn,
        plan: Plan,
    ) -> Result<CoordStep, NodeFault>
        requires up { is_up self.old ≡ true }
        requires short { IsShort self.old.log.current × IsShort self.old.log.spare }
        requires held { IsHeld (H.seen home.old) self.old.log }
        requires stands { (y : CoordState) × RepresentsCoord self.old y }
        requires writes { MayWriteOne plan.writes }
        ensures did { (y : CoordState) → RepresentsCoord self.old y → IfOk result (λ d. HasDone (carried_out self.old.number y txn plan) d self.new) }
        ensures answered { (y : CoordState) → RepresentsCoord self.old y →
            IsAnsweredFor plan.writes (node.Coord self.old.number) y.log self.old.log self.new.log
            (H.seen home.old) (H.seen home.new) (written_by result) }
        ensures rest { OtherNodesStay self.old.log.node (H.seen home.old) (H.seen home.new) }
        ensures same { IsSame self.old self.new }
    {
        let Plan {
            writes,
            change,
            answer,
            sent,
        } = plan;
        if self.change(txn, change).is_err() {
            drop(writes);
            return Err(NodeFault::Memory);
        }
        match write(self.alloc, &mut self.log, home, writes)? {
            Written::Done { marks } => Ok(CoordStep {
                answer,
                sent,
                marks,
            }),
            Written::Stopped { call, marks } => Ok(self.stopped(call, marks)),
        }
    }

    /// Carries a plan out that writes nothing.
    pub(crate) fn settle(&mut self, txn: Txn, plan: Plan) -> Result<CoordStep, NodeFault>
        requires up { is_up self.old ≡ true }
        requires quiet { plan.writes ≡ Nothing }
        ensures did { (y : CoordState) → RepresentsCoord self.old y → IfOk result (λ d. HasDone (carried_out self.old.number y txn plan) d self.new) }
        ensures memory { IfErr result (λ e. e ≡ Memory) }
        ensures log { self.new.log ≡ self.old.log }
        ensures same { IsSame self.old self.new }
    {
        let Plan {
            writes,
            change,
            answer,
            sent,
        } = plan;
        drop(writes);
        let changed = self.change(txn, change);
        settled(self.alloc, changed, answer, sent)
    }
}
