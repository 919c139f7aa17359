//! The decided transactions of a trial, run one by one in the order of their decisions.
ghost use Rattle.std.specs.Prelude.{◌≡◌, ◌<◌, ◌+◌, ◌++◌, ◌↔◌, [], ◌∷◌, List, true, length, IfOk, OnOk};
ghost use Rattle.co_plain.specs.declared.session.Decided.{Decided};
ghost use Rattle.co_plain.specs.Federation.{Federation, decide_all, decided_where, decided_by_kind};
ghost use Rattle.co_base.specs.Nodes.{same_node};
ghost use Rattle.co_serial.specs.Family.{family_of};
ghost use Rattle.co_serial.specs.SerialRun.{after_whole};
ghost use Rattle.co_state.specs.Table.{look};
ghost use Rattle.co_serial.specs.MemberRows.{numbered_rows, member_rows};
ghost use Rattle.co_world.specs.Standing.{RepresentsWorld};
ghost use Rattle.co_trial.specs.Decisions.{marks_of, AreRun};

use co_base::{Mark, MarkKind, Node, Row, Txn};
use co_engine::Engine;
use co_message::{Item, ItemKind};
use co_serial::{MemberRow, MemberRows, SerialMap, Site};
use co_world::World;
use std::alloc::{AllocError, Global};

/// The decided transactions, and what they leave when run whole one after another.
#[derive(Drop)]
pub(crate) struct Decisions {
    /// Their numbers, in the order of their decisions.
    pub(crate) txns: Vec<Txn>,
    pub(crate) serial: SerialMap,
}

/// Whether two nodes are one.
fn is_same(one: Node, other: Node) -> bool
    ensures { result ≡ same_node one other }
{
    match (one, other) {
        (Node::Member(a), Node::Member(b)) => a == b,
        (Node::Coord(a), Node::Coord(b)) => a == b,
        _ => false,
    }
}

/// The transaction of a number.
fn txn_of(number: u32) -> Txn
    ensures { result ≡ number }
{
    Txn(number)
}

/// Adds the records of a member.
fn push_rows(durable: &mut MemberRows, member: u8, rows: Vec<Row>) -> Result<(), AllocError>
    ensures { OnOk result (durable.new ≡ durable.old ++ member_rows member rows.items) }
{
    for row in rows {
        durable.push(MemberRow { member, row })?;
    }
    Ok(())
}

impl Decisions {
    /// None was decided. Takes no memory.
    pub(crate) fn new(alloc: Global) -> Decisions
        ensures count { result.txns.items ≡ [] }
        ensures records { result.serial ≡ [] }
    {
        Decisions {
            txns: Vec::new(alloc),
            serial: SerialMap::new(alloc),
        }
    }

    /// How many were decided.
    pub(crate) fn count(&self) -> u64
        ensures { result ≡ length self.now.txns.items }
    {
        self.txns.len() as u64
    }

    /// The operations of one more transaction are run whole.
    fn run(&mut self, operations: &[Site]) -> Result<(), AllocError>
        ensures records { OnOk result (family_of self.new.serial ≡ after_whole (family_of self.old.serial) operations.now) }
        ensures count { self.new.txns.items ≡ self.old.txns.items }
    {
        for operation in operations {
            let _ = self.serial.apply(operation)?;
        }
        Ok(())
    }

    /// A commit of a transaction became stable at a node: it decides where that is the node that decides the transaction.
    fn decide<E: Engine + Drop>(
        &mut self,
        world: &World<E>,
        txn: Txn,
        at: Node,
    ) -> Result<(), AllocError>
        ensures { (s0 s : Federation) (decided : List Decided) → RepresentsWorld E.takes E.stands_for world.now s → AreRun s0 self.old decided →
            OnOk result (AreRun s0 self.new (decided_where (look s.sessions txn) at txn decided)) }
    {
        match world.decider(txn) {
            Some(by) => {
                if is_same(by, at) {
                    self.run(world.operations(txn))?;
                    self.txns.push(txn)?;
                }
                Ok(())
            }
            None => Ok(()),
        }
    }

    /// A record became stable.
    fn note<E: Engine + Drop>(&mut self, world: &World<E>, mark: &Mark) -> Result<(), AllocError>
        ensures { (s0 s : Federation) (decided : List Decided) → RepresentsWorld E.takes E.stands_for world.now s → AreRun s0 self.old decided →
            OnOk result (AreRun s0 self.new (decided_by_kind mark.now.kind (look s.sessions mark.now.number) mark.now.node mark.now.number decided)) }
    {
        match mark.kind {
            MarkKind::Commit => self.decide(world, txn_of(mark.number), mark.node),
            MarkKind::Header
            | MarkKind::Prepare
            | MarkKind::Abort
            | MarkKind::End
            | MarkKind::Checkpoint => Ok(()),
        }
    }

    /// What one item tells is noted.
    fn note_item<E: Engine + Drop>(
        &mut self,
        world: &World<E>,
        item: &Item,
    ) -> Result<(), AllocError>
        ensures { (s0 s : Federation) (decided : List Decided) → RepresentsWorld E.takes E.stands_for world.now s → AreRun s0 self.old decided →
            OnOk result (AreRun s0 self.new (decide_all s.sessions decided (marks_of (item.now ∷ [])))) }
    {
        match &item.what {
            ItemKind::Log(mark) => self.note(world, mark),
            ItemKind::Head(_) | ItemKind::Event(_) | ItemKind::Sent(_) | ItemKind::Answered(_) => {
                Ok(())
            }
        }
    }

    /// What events told is noted, in a federation in which nothing was answered to clients since the first of these decisions.
    pub(crate) fn note_all<E: Engine + Drop>(
        &mut self,
        world: &World<E>,
        items: &[Item],
    ) -> Result<(), AllocError>
        ensures { (s0 s : Federation) (decided : List Decided) → RepresentsWorld E.takes E.stands_for world.now s → AreRun s0 self.old decided →
            OnOk result (AreRun s0 self.new (decide_all s.sessions decided (marks_of items.now))) }
    {
        for item in items {
            self.note_item(world, item)?;
        }
        Ok(())
    }

    /// The records of so many members.
    fn rows(&self, alloc: Global, members: u8) -> Result<MemberRows, AllocError>
        requires { members < 255 }
        ensures { IfOk result (λ rows. rows ≡ numbered_rows (family_of self.now.serial) 1 members) }
    {
        let mut rows = MemberRows::new(alloc);
        for member in 1..members + 1 {
            push_rows(&mut rows, member, self.serial.rows(member)?.into_vec())?;
        }
        Ok(rows)
    }

    /// Whether these are the records of so many members that the decided transactions leave.
    pub(crate) fn leave(
        &self,
        alloc: Global,
        members: u8,
        durable: &MemberRows,
    ) -> Result<bool, AllocError>
        requires { members < 255 }
        ensures { IfOk result (λ equal. (equal ≡ true) ↔ (durable.now ≡ numbered_rows (family_of self.now.serial) 1 members)) }
    {
        let rows = self.rows(alloc, members)?;
        Ok(*durable == rows)
    }
}
