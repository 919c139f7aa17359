//! The calls of a coordinator that may write its log, and its crash.
ghost use Rattle.std.specs.Prelude.{◌≡◌, true, IfOk, IsOk};
ghost use Rattle.co_base.specs.declared.node.Node.TheVariants as node;
ghost use Rattle.co_log.specs.LogView.{IsHeld};
ghost use Rattle.co_log.specs.Others.{OtherNodesStay};
ghost use Rattle.co_plain.specs.CoordLog.{coord_crash};
ghost use Rattle.co_plain.specs.Coordinator.{coord_commit, coord_deliver};
ghost use Rattle.co_plain.specs.declared.coord_state.CoordState.{CoordState};
ghost use Rattle.co_state.specs.Table.{look};
ghost use Rattle.co_coord.specs.Plans.{commit_plan, deliver_plan, txn_of};
ghost use Rattle.co_coord.specs.Standing.{is_up, RepresentsCoord, HasDone, IsSame, MayDecide, written_by};
ghost use Rattle.co_node.specs.Writing.{IsAnsweredFor};

use crate::client::commit_plan;
use crate::coord::Coord;
use crate::delivery::{deliver_plan, txn_of};
use crate::step::CoordStep;
use co_base::{Marks, Part, Txn};
use co_log::NodeFault;
use co_message::{Answer, Message, Messages};
use co_outside::Home;

impl Coord {
    /// The client of an idle transaction asks for the commit, with the participants of its session: each is asked to prepare. Without participants
    /// the commit is forced at once.
    ///
    /// A stopped write leaves the coordinator down, and nothing is sent. `Full` comes where the log would be too long, and changes nothing;
    /// `Device` where the directory failed, and only there; `Memory` leaves the old records.
    pub fn commit<H: Home>(
        &mut self,
        home: &mut H,
        t: Txn,
        parts: &[Part],
    ) -> Result<CoordStep, NodeFault>
        requires up { is_up self.old ≡ true }
        requires held { IsHeld (H.seen home.old) self.old.log }
        requires stands { (y : CoordState) × RepresentsCoord self.old y }
        ensures did { (y : CoordState) → RepresentsCoord self.old y → IfOk result (λ d. HasDone (coord_commit self.old.number y t parts.now) d self.new) }
        ensures answered { (y : CoordState) → RepresentsCoord self.old y →
            IsAnsweredFor (commit_plan self.old.number t parts.now (look y.table t)).writes (node.Coord self.old.number) y.log self.old.log self.new.log
            (H.seen home.old) (H.seen home.new) (written_by result) }
        ensures rest { OtherNodesStay self.old.log.node (H.seen home.old) (H.seen home.new) }
        ensures same { IsSame self.old self.new }
    {
        // What is read of either file is within its bounds, also where there is no memory.
        let _ = self.log.lengths();
        let plan = commit_plan(self.alloc, self.number, t, parts, self.table())?;
        self.carry_out(home, t, plan)
    }

    /// A message comes that was sent to this coordinator: the last missing yes forces the commit before it is told, and the last
    /// acknowledgement lets an end record wait.
    ///
    /// A stopped write leaves the coordinator down, and nothing is sent. `Full` comes where the log would be too long, and changes nothing;
    /// `Device` where the directory failed, and only there; `Memory` leaves the old records.
    pub fn deliver<H: Home>(
        &mut self,
        home: &mut H,
        message: &Message,
    ) -> Result<CoordStep, NodeFault>
        requires up { is_up self.old ≡ true }
        requires held { IsHeld (H.seen home.old) self.old.log }
        requires stands { (y : CoordState) × RepresentsCoord self.old y × MayDecide y }
        ensures did { (y : CoordState) → RepresentsCoord self.old y → IfOk result (λ d. HasDone (coord_deliver self.old.number y message.now) d self.new) }
        ensures answered { (y : CoordState) → RepresentsCoord self.old y →
            IsAnsweredFor (deliver_plan self.old.number message.now (look y.table (txn_of message.now))).writes (node.Coord self.old.number) y.log self.old.log self.new.log
            (H.seen home.old) (H.seen home.new) (written_by result) }
        ensures rest { OtherNodesStay self.old.log.node (H.seen home.old) (H.seen home.new) }
        ensures same { IsSame self.old self.new }
    {
        // What is read of either file is within its bounds, also where there is no memory.
        let _ = self.log.lengths();
        let plan = deliver_plan(self.alloc, self.number, message, self.table())?;
        self.carry_out(home, txn_of(message), plan)
    }

    /// A crash between two log writes: what was in memory is lost, and the coordinator is down. It makes no call of the directory, takes no
    /// memory, and no fault comes.
    pub fn crash<H: Home>(&mut self, home: &mut H) -> Result<CoordStep, NodeFault>
        requires held { IsHeld (H.seen home.old) self.old.log }
        requires stands { (y : CoordState) × RepresentsCoord self.old y }
        ensures did { (y : CoordState) → RepresentsCoord self.old y → IfOk result (λ d. HasDone (coord_crash y) d self.new) }
        ensures done { IsOk result }
        ensures held { IsHeld (H.seen home.new) self.new.log }
        ensures home { home.new ≡ home.old }
        ensures same { IsSame self.old self.new }
    {
        co_node::crash(&mut self.log, home);
        self.table = None;
        Ok(CoordStep {
            answer: Answer::Crashed,
            sent: Messages::new(self.alloc),
            marks: Marks::new(self.alloc),
        })
    }
}
