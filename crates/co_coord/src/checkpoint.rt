//! Checkpoints of a coordinator: its spare file is closed, and then filled.
ghost use Rattle.std.specs.Prelude.{◌≡◌, true, false, [], reverse, IfOk};
ghost use Rattle.std.specs.FinMap.{entries};
ghost use Rattle.co_base.specs.declared.node.Node.TheVariants as node;
ghost use Rattle.co_log.specs.LogView.{IsHeld};
ghost use Rattle.co_log.specs.Others.{OtherNodesStay};
ghost use Rattle.co_plain.specs.CoordLog.{commits_onto, coord_close_by, coord_fill_by, coord_checkpoint};
ghost use Rattle.co_plain.specs.LogWrite.{generation_of, outcome_of};
ghost use Rattle.co_plain.specs.Numbers.{next_generation};
ghost use Rattle.co_plain.specs.declared.coord_state.CoordState.{CoordState};
ghost use Rattle.co_coord.specs.Restating.{MayRestate, IsCheckpointed};
ghost use Rattle.co_coord.specs.Standing.{is_up, RepresentsCoord, HasDone, IsSame, written_by};

use crate::coord::Coord;
use crate::step::CoordStep;
use co_base::copy_bytes;
use co_log::NodeFault;
use co_message::{Answer, Messages};
use co_node::{Written, close, fill, filled_generation, spare_closed};
use co_outside::Home;
use co_plain::Entry;
use co_record::Record;
use co_state::Table;
use std::alloc::{AllocError, Global};

/// A commit record for each committed transaction of the table, ascending.
fn commits_in(alloc: Global, table: &Table<Entry>) -> Result<Vec<Record>, AllocError>
    ensures { IfOk result (λ records. reverse records.items ≡ commits_onto [] (entries table.now)) }
{
    let mut records = Vec::new(alloc);
    for (t, entry) in table.iter() {
        match entry {
            Entry::Idle => {}
            Entry::Collecting { parts: _, yeses: _ } => {}
            Entry::Committed { members, acks: _ } => {
                records.push(Record::Commit {
                    txn: *t,
                    members: copy_bytes(alloc, members.as_slice())?,
                })?;
            }
        }
    }
    Ok(records)
}

impl Coord {
    /// Closes the spare file.
    fn close<H: Home>(&mut self, home: &mut H) -> Result<CoordStep, NodeFault>
        requires up { is_up self.old ≡ true }
        requires held { IsHeld (H.seen home.old) self.old.log }
        requires stands { (y : CoordState) × RepresentsCoord self.old y × (y.log.spare_closed ≡ false) }
        ensures did { (y : CoordState) → RepresentsCoord self.old y → IfOk result (λ d. HasDone (coord_close_by y (outcome_of y.log.armed 2)) d self.new) }
        ensures answered { (y : CoordState) → RepresentsCoord self.old y → IsCheckpointed false (node.Coord self.old.number) y self.old.log self.new.log
            (H.seen home.old) (H.seen home.new) (written_by result) }
        ensures rest { OtherNodesStay self.old.log.node (H.seen home.old) (H.seen home.new) }
        ensures same { IsSame self.old self.new }
    {
        match close(self.alloc, &mut self.log, home)? {
            Written::Done { marks } => Ok(CoordStep {
                answer: Answer::Closed,
                sent: Messages::new(self.alloc),
                marks,
            }),
            Written::Stopped { call, marks } => Ok(self.stopped(call, marks)),
        }
    }

    /// Fills the closed spare file with the commits of the table.
    fn fill<H: Home>(&mut self, home: &mut H) -> Result<CoordStep, NodeFault>
        requires up { is_up self.old ≡ true }
        requires held { IsHeld (H.seen home.old) self.old.log }
        requires stands { (y : CoordState) × RepresentsCoord self.old y × (y.log.spare_closed ≡ true) × MayRestate self.old.number y }
        ensures did { (y : CoordState) → RepresentsCoord self.old y →
            IfOk result (λ d. HasDone (coord_fill_by self.old.number y (next_generation (generation_of y.log.stable)) (outcome_of y.log.armed 4)) d self.new) }
        ensures answered { (y : CoordState) → RepresentsCoord self.old y → IsCheckpointed true (node.Coord self.old.number) y self.old.log self.new.log
            (H.seen home.old) (H.seen home.new) (written_by result) }
        ensures rest { OtherNodesStay self.old.log.node (H.seen home.old) (H.seen home.new) }
        ensures same { IsSame self.old self.new }
    {
        // What is read of either file is within its bounds, also where there is no memory.
        let _ = self.log.lengths();
        let records = commits_in(self.alloc, self.table())?;
        match fill(self.alloc, &mut self.log, home, records.as_slice())? {
            Written::Done { marks } => Ok(CoordStep {
                answer: Answer::Filled(filled_generation(&marks)),
                sent: Messages::new(self.alloc),
                marks,
            }),
            Written::Stopped { call, marks } => Ok(self.stopped(call, marks)),
        }
    }

    /// One step of a checkpoint: an open spare file is closed; a closed one is filled with the next generation and the commits of the table, and is
    /// the current one then.
    ///
    /// A stopped write leaves the coordinator down. `Full` comes where the spare would be too long or there is no next generation, and
    /// changes nothing; `Device` where the directory failed, and only there; `Memory` leaves the old records.
    pub fn checkpoint<H: Home>(&mut self, home: &mut H) -> Result<CoordStep, NodeFault>
        requires up { is_up self.old ≡ true }
        requires held { IsHeld (H.seen home.old) self.old.log }
        requires stands { (y : CoordState) × RepresentsCoord self.old y × MayRestate self.old.number y }
        ensures did { (y : CoordState) → RepresentsCoord self.old y → IfOk result (λ d. HasDone (coord_checkpoint self.old.number y) d self.new) }
        ensures answered { (y : CoordState) → RepresentsCoord self.old y → IsCheckpointed y.log.spare_closed (node.Coord self.old.number) y self.old.log self.new.log
            (H.seen home.old) (H.seen home.new) (written_by result) }
        ensures rest { OtherNodesStay self.old.log.node (H.seen home.old) (H.seen home.new) }
        ensures same { IsSame self.old self.new }
    {
        if spare_closed(&self.log) {
            self.fill(home)
        } else {
            self.close(home)
        }
    }
}
