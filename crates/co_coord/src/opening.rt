//! Coordinators that are opened over their logs, and started again.
ghost use Rattle.std.specs.Prelude.{◌≡◌, true, Option, None, Some, IfOk, IfErr, OnOk};
ghost use Rattle.co_base.specs.declared.node.Node.TheVariants as node;
ghost use Rattle.co_log.specs.LogView.{IsHeld};
ghost use Rattle.co_log.specs.Others.{OtherNodesStay};
ghost use Rattle.co_log.specs.declared.fault.NodeFault.TheVariants.{Memory};
ghost use Rattle.co_node.specs.NodeLog.{RepresentsLog};
ghost use Rattle.co_node.specs.Rereading.{IsReread};
ghost use Rattle.co_plain.specs.CoordLog.{coord_restart};
ghost use Rattle.co_plain.specs.CoordView.{recovered_commits};
ghost use Rattle.co_plain.specs.declared.coord_state.CoordState.{CoordState};
ghost use Rattle.co_plain.specs.declared.log_state.LogState.{LogState};
ghost use Rattle.co_recover.specs.Recovered.{past_of_coord};
ghost use Rattle.co_coord.specs.Opening.{table_of, told_table, MayRestart, IsRestarted};
ghost use Rattle.co_coord.specs.Standing.{is_up, RepresentsCoord, HasDone, IsSame};

use crate::coord::Coord;
use crate::step::CoordStep;
use co_base::{Bytes, Marks};
use co_log::{Log, NodeFault};
use co_message::{Answer, Messages};
use co_node::reread;
use co_outside::Home;
use co_plain::Entry;
use co_recover::{Commits, CoordPast, Decided, RecoverFault, recover_coord};
use co_state::Table;
use std::alloc::{AllocError, Global};

/// The table of these decided transactions, none of them acknowledged.
fn table_of(alloc: Global, commits: Commits) -> Result<Table<Entry>, AllocError>
    ensures { IfOk result (λ table. table ≡ table_of commits) }
{
    let mut table = Table::new(alloc);
    for decided in commits.into_vec() {
        let Decided { txn, members } = decided;
        let entry = Entry::Committed {
            members,
            acks: Bytes::new(alloc),
        };
        table.insert(txn, entry)?;
    }
    Ok(table)
}

impl Coord {
    /// A coordinator over its log, with what the log tells: each commit without end is in its table, none of them acknowledged.
    ///
    /// The log is that of this coordinator, and was made; `past` is what the log tells in a federation of so many members.
    pub fn attach(
        alloc: Global,
        number: u8,
        members: u8,
        log: Log,
        past: CoordPast,
    ) -> Result<Coord, AllocError>
        ensures stands { (l : LogState) → RepresentsLog (node.Coord number) log l → past ≡ past_of_coord (recovered_commits l.stable) →
            IfOk result (λ coord. RepresentsCoord coord (record { up = true; table = told_table l; log = l })) }
        ensures numbers { IfOk result (λ coord. (coord.number ≡ number) × (coord.members ≡ members)) }
        ensures log { IfOk result (λ coord. coord.log ≡ log) }
    {
        Ok(Coord {
            alloc,
            number,
            members,
            log,
            table: Some(table_of(alloc, past.committed)?),
        })
    }

    /// What the records of the log tell, also while the coordinator is down. The log is gone through.
    pub fn past(&self) -> Result<CoordPast, AllocError>
        requires stands { (y : CoordState) × RepresentsCoord self.now y × MayRestart self.now.members y }
        ensures { (y : CoordState) → RepresentsCoord self.now y → IfOk result (λ past. past ≡ past_of_coord (recovered_commits y.log.stable)) }
    {
        match recover_coord(self.alloc, self.log.views(), self.members) {
            Ok(past) => Ok(past),
            Err(RecoverFault::Memory) => Err(AllocError),
            Err(RecoverFault::Inconsistent { at: _ }) => unreachable!(),
        }
    }

    /// The table that the log tells.
    fn told_table(&self) -> Result<Table<Entry>, NodeFault>
        requires stands { (y : CoordState) × RepresentsCoord self.now y × MayRestart self.now.members y }
        ensures table { (y : CoordState) → RepresentsCoord self.now y → IfOk result (λ table. table ≡ told_table y.log) }
        ensures memory { IfErr result (λ e. e ≡ Memory) }
    {
        let past = self.past()?;
        Ok(table_of(self.alloc, past.committed)?)
    }
}

impl Coord {
    /// Reads the log of a coordinator that is down again, and goes up with what it tells.
    fn go_up<H: Home>(&mut self, home: &mut H) -> Result<(), NodeFault>
        requires down { self.old.table ≡ None }
        requires held { IsHeld (H.seen home.old) self.old.log }
        requires stands { (y : CoordState) × RepresentsCoord self.old y × MayRestart self.old.members y }
        ensures table { (y : CoordState) → RepresentsCoord self.old y → OnOk result (self.new.table ≡ Some (told_table y.log)) }
        ensures log { self.new.log ≡ self.old.log }
        ensures held { IsHeld (H.seen home.new) self.new.log }
        ensures files { ((H.seen home.new).file self.old.log.current.spot ≡ (H.seen home.old).file self.old.log.current.spot) × ((H.seen home.new).file self.old.log.spare.spot ≡ (H.seen home.old).file self.old.log.spare.spot) }
        ensures reread { IsReread H.gives H.seen self.old.log home.old home.new result }
        ensures rest { OtherNodesStay self.old.log.node (H.seen home.old) (H.seen home.new) }
        ensures same { IsSame self.old self.new }
    {
        reread(&mut self.log, home)?;
        self.table = Some(self.told_table()?);
        Ok(())
    }

    /// A restart. A coordinator that runs goes on; one that is down reads its log again and goes up with the commits that have no end, none of
    /// them acknowledged: who was undecided is forgotten.
    ///
    /// `Device` comes where the directory failed, and only there; `Differs` exactly where a file is not what is kept of it, with the first place
    /// that differs, and never over a directory that tells it; `Memory` where there was none.
    pub fn restart<H: Home>(&mut self, home: &mut H) -> Result<CoordStep, NodeFault>
        requires held { IsHeld (H.seen home.old) self.old.log }
        requires stands { (y : CoordState) × RepresentsCoord self.old y × MayRestart self.old.members y }
        ensures did { (y : CoordState) → RepresentsCoord self.old y → IfOk result (λ d. HasDone (coord_restart y) d self.new) }
        ensures reread { IsRestarted (is_up self.old) H.gives H.seen self.old.log home.old home.new result }
        ensures held { IsHeld (H.seen home.new) self.new.log }
        ensures files { ((H.seen home.new).file self.old.log.current.spot ≡ (H.seen home.old).file self.old.log.current.spot) × ((H.seen home.new).file self.old.log.spare.spot ≡ (H.seen home.old).file self.old.log.spare.spot) }
        ensures rest { OtherNodesStay self.old.log.node (H.seen home.old) (H.seen home.new) }
        ensures same { IsSame self.old self.new }
    {
        let answer = if self.up() {
            Answer::Running
        } else {
            self.go_up(home)?;
            Answer::Up
        };
        Ok(CoordStep {
            answer,
            sent: Messages::new(self.alloc),
            marks: Marks::new(self.alloc),
        })
    }
}
