//! Checkpoints, in two steps.
ghost use Rattle.std.specs.Prelude.{◌≡◌, ◌++◌, map, true, false, IfOk};
ghost use Rattle.std.specs.FinMap.{keys};
ghost use Rattle.co_base.specs.declared.head.Kind.{Kind};
ghost use Rattle.co_log.specs.LogView.{IsHeld, IsShort};
ghost use Rattle.co_log.specs.Others.{OtherNodesStay};
ghost use Rattle.co_plain.specs.MemberLog.{member_checkpoint};
ghost use Rattle.co_plain.specs.declared.member_state.MemberState.{MemberState};
ghost use Rattle.co_member.specs.Checkpoint.{prepared_again, point_of, spare_items, MayFill, IsAnsweredIn, IsCheckpointed};
ghost use Rattle.co_member.specs.Pins.{PinsStay};
ghost use Rattle.co_member.specs.Standing.{is_up, RepresentsMember, RepresentsRunning, HasDone, IsSame, written_by};

use crate::member::Member;
use crate::running::Running;
use crate::step::MemberStep;
use co_base::Txns;
use co_engine::Engine;
use co_log::NodeFault;
use co_message::Answer;
use co_node::Written;
use co_outside::Home;
use co_pairs::{Prepared, PreparedList, Sets};
use co_record::Record;
use co_state::Table;
use std::alloc::{AllocError, Global};

/// The numbers of a set, ascending.
fn numbers_in(alloc: Global, numbers: &Table<()>) -> Result<Txns, AllocError>
    ensures { IfOk result (λ list. list ≡ keys numbers.now) }
{
    let mut list = Vec::new(alloc);
    for (t, _) in numbers.iter() {
        list.push(*t)?;
    }
    Ok(Txns::of(list))
}

/// The prepare record of a voted transaction.
fn prepared(vote: Prepared) -> Record
    ensures { result ≡ prepared_again vote }
{
    let Prepared {
        txn,
        coord,
        count,
        sets,
    } = vote;
    let Sets { reads, writes } = sets;
    Record::Prepare {
        txn,
        coord,
        count,
        reads,
        writes,
    }
}

/// Puts the prepare records of these votes behind other records.
fn with_prepares(items: Vec<Record>, votes: PreparedList) -> Result<Vec<Record>, AllocError>
    ensures { IfOk result (λ all. all.items ≡ items.items ++ map prepared_again votes) }
{
    let mut all = items;
    for vote in votes.into_vec() {
        all.push(prepared(vote))?;
    }
    Ok(all)
}

impl<E: Engine> Running<E> {
    /// The checkpoint of what the member has: its records, what undoes those that were written in place, and the committed transactions.
    fn point(&self, alloc: Global) -> Result<Record, AllocError>
        ensures { (kind : Kind) (x : MemberState) → RepresentsRunning E.stands_for kind self.now x → IfOk result (λ item. item ≡ point_of x) }
    {
        let committed = numbers_in(alloc, &self.committed)?;
        let dump = self.undecided.dump()?;
        Ok(Record::Checkpoint {
            rows: dump.rows,
            undos: dump.undos,
            committed,
        })
    }

    /// The records of a filled spare: the checkpoint, and a prepare record for each voted transaction, ascending.
    fn spare(&self, alloc: Global) -> Result<Vec<Record>, AllocError>
        ensures { (kind : Kind) (x : MemberState) → RepresentsRunning E.stands_for kind self.now x → IfOk result (λ items. items.items ≡ spare_items x) }
    {
        let mut items = Vec::new(alloc);
        items.push(self.point(alloc)?)?;
        with_prepares(items, self.undecided.voted()?)
    }
}

impl<E: Engine + Drop> Member<E> {
    /// Closes the spare file.
    fn close<H: Home>(&mut self, home: &mut H) -> Result<MemberStep, NodeFault>
        requires up { is_up self.old ≡ true }
        requires held { IsHeld (H.seen home.old) self.old.log }
        requires stands { (x : MemberState) × RepresentsMember E.stands_for self.old x × (x.log.spare_closed ≡ false) }
        ensures did { (x : MemberState) → RepresentsMember E.stands_for self.old x → IfOk result (λ d. HasDone E.stands_for (member_checkpoint self.old.number x) d self.new) }
        ensures answered { (x : MemberState) → RepresentsMember E.stands_for self.old x →
            IsAnsweredIn false self.old.number x self.old.log self.new.log
            (H.seen home.old) (H.seen home.new) (written_by result) }
        ensures rest { OtherNodesStay self.old.log.node (H.seen home.old) (H.seen home.new) }
        ensures same { IsSame self.old self.new }
        ensures pins { PinsStay E.pins self.old self.new }
    {
        let written = co_node::close(self.alloc, &mut self.log, home);
        self.ended(written, Answer::Closed, None)
    }

    /// Fills the closed spare file with what the member has.
    fn fill<H: Home>(&mut self, home: &mut H) -> Result<MemberStep, NodeFault>
        requires up { is_up self.old ≡ true }
        requires short { IsShort self.old.log.current × IsShort self.old.log.spare }
        requires held { IsHeld (H.seen home.old) self.old.log }
        requires stands { (x : MemberState) × RepresentsMember E.stands_for self.old x × (x.log.spare_closed ≡ true) × MayFill x }
        ensures did { (x : MemberState) → RepresentsMember E.stands_for self.old x → IfOk result (λ d. HasDone E.stands_for (member_checkpoint self.old.number x) d self.new) }
        ensures answered { (x : MemberState) → RepresentsMember E.stands_for self.old x →
            IsAnsweredIn true self.old.number x self.old.log self.new.log
            (H.seen home.old) (H.seen home.new) (written_by result) }
        ensures rest { OtherNodesStay self.old.log.node (H.seen home.old) (H.seen home.new) }
        ensures same { IsSame self.old self.new }
        ensures pins { PinsStay E.pins self.old self.new }
    {
        let items = self.running().spare(self.alloc)?;
        match co_node::fill(self.alloc, &mut self.log, home, items.as_slice())? {
            Written::Done { marks } => Ok(MemberStep {
                answer: Answer::Filled(co_node::filled_generation(&marks)),
                sent: None,
                marks,
            }),
            Written::Stopped { call, marks } => Ok(self.stopped(call, marks)),
        }
    }

    /// One step of a checkpoint: an unclosed spare file is closed, and a closed one is filled with the records and their undos, the numbers that are
    /// committed here, and the voted transactions, and is the current one then.
    ///
    /// A stopped write leaves the member down. `Full` comes where the spare file would be too long, or there is no next generation, and changes nothing;
    /// `Device` where the directory failed, and only there; `Memory` leaves the old records.
    pub fn checkpoint<H: Home>(&mut self, home: &mut H) -> Result<MemberStep, NodeFault>
        requires up { is_up self.old ≡ true }
        requires held { IsHeld (H.seen home.old) self.old.log }
        requires stands { (x : MemberState) × RepresentsMember E.stands_for self.old x × MayFill x }
        ensures did { (x : MemberState) → RepresentsMember E.stands_for self.old x → IfOk result (λ d. HasDone E.stands_for (member_checkpoint self.old.number x) d self.new) }
        ensures answered { (x : MemberState) → RepresentsMember E.stands_for self.old x →
            IsCheckpointed self.old.number x self.old.log self.new.log
            (H.seen home.old) (H.seen home.new) (written_by result) }
        ensures rest { OtherNodesStay self.old.log.node (H.seen home.old) (H.seen home.new) }
        ensures same { IsSame self.old self.new }
        ensures pins { PinsStay E.pins self.old self.new }
    {
        if co_node::spare_closed(&self.log) {
            // What is read of either file is within its bounds, also where there is no memory.
            let _ = self.log.lengths();
            self.fill(home)
        } else {
            self.close(home)
        }
    }
}
