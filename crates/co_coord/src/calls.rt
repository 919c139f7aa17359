//! The calls of a coordinator that is up and is not given the directory.
ghost use Rattle.std.specs.Prelude.{◌≡◌, ◌≤◌, ℕ, true, Option, None, IfOk, IfErr, IsOk};
ghost use Rattle.co_log.specs.LogView.{IsHeld};
ghost use Rattle.co_log.specs.declared.fault.NodeFault.TheVariants.{Memory};
ghost use Rattle.co_outside.specs.declared.spot.Spot.{Spot};
ghost use Rattle.co_outside.specs.Home.{HomeView, File};
ghost use Rattle.co_plain.specs.CoordLog.{coord_arm};
ghost use Rattle.co_plain.specs.CoordStep.{with_coord_log};
ghost use Rattle.co_plain.specs.Coordinator.{coord_begin, coord_abort, coord_timer, coord_resend};
ghost use Rattle.co_plain.specs.LogWrite.{with_stop};
ghost use Rattle.co_plain.specs.declared.coord_state.CoordState.{CoordState};
ghost use Rattle.co_coord.specs.Standing.{is_up, RepresentsCoord, HasDone, IsSame};

use crate::client::{abort_plan, begin_plan};
use crate::coord::Coord;
use crate::step::CoordStep;
use crate::timers::{resend_plan, timer_plan};
use co_base::{Leaves, Marks, Part, Txn};
use co_log::NodeFault;
use co_message::{Answer, Messages};

impl Coord {
    /// A client begins a transaction, which has no entry in the table: it enters idle.
    ///
    /// `Memory` is the one fault.
    pub fn begin(&mut self, t: Txn) -> Result<CoordStep, NodeFault>
        requires up { is_up self.old ≡ true }
        ensures did { (y : CoordState) → RepresentsCoord self.old y → IfOk result (λ d. HasDone (coord_begin y t) d self.new) }
        ensures memory { IfErr result (λ e. e ≡ Memory) }
        ensures log { self.new.log ≡ self.old.log }
        ensures same { IsSame self.old self.new }
    {
        let plan = begin_plan(self.alloc);
        self.settle(t, plan)
    }

    /// The client of an idle transaction asks for the abort, with the participants of its session: it leaves the table, and each is told.
    ///
    /// `Memory` is the one fault.
    pub fn abort(&mut self, t: Txn, parts: &[Part]) -> Result<CoordStep, NodeFault>
        requires up { is_up self.old ≡ true }
        ensures did { (y : CoordState) → RepresentsCoord self.old y → IfOk result (λ d. HasDone (coord_abort self.old.number y t parts.now) d self.new) }
        ensures memory { IfErr result (λ e. e ≡ Memory) }
        ensures log { self.new.log ≡ self.old.log }
        ensures same { IsSame self.old self.new }
    {
        let plan = abort_plan(self.alloc, self.number, t, parts, self.table())?;
        self.settle(t, plan)
    }

    /// The timer of a transaction fires: only what is not decided ends.
    ///
    /// `Memory` is the one fault.
    pub fn timer(&mut self, t: Txn) -> Result<CoordStep, NodeFault>
        requires up { is_up self.old ≡ true }
        ensures did { (y : CoordState) → RepresentsCoord self.old y → IfOk result (λ d. HasDone (coord_timer self.old.number y t) d self.new) }
        ensures memory { IfErr result (λ e. e ≡ Memory) }
        ensures log { self.new.log ≡ self.old.log }
        ensures same { IsSame self.old self.new }
    {
        let plan = timer_plan(self.alloc, self.number, t, self.table())?;
        self.settle(t, plan)
    }

    /// What the participants of a transaction did not answer is sent again. Nothing of the coordinator changes.
    ///
    /// `Memory` is the one fault.
    pub fn resend(&self, t: Txn) -> Result<CoordStep, NodeFault>
        requires up { is_up self.now ≡ true }
        ensures did { (y : CoordState) → RepresentsCoord self.now y → IfOk result (λ d. HasDone (coord_resend self.now.number y t) d self.now) }
        ensures memory { IfErr result (λ e. e ≡ Memory) }
    {
        let plan = resend_plan(self.alloc, self.number, t, self.table())?;
        Ok(CoordStep {
            answer: plan.answer,
            sent: plan.sent,
            marks: Marks::new(self.alloc),
        })
    }

    /// Arms the next log write: its device call with this number, counted from 1, stops and leaves this image. Takes no memory, and no fault comes.
    pub fn arm(&mut self, stop: u8, leaves: Leaves) -> Result<CoordStep, NodeFault>
        requires up { is_up self.old ≡ true }
        requires stop { (1 ≤ stop) × (stop ≤ 4) }
        ensures did { (y : CoordState) → RepresentsCoord self.old y → IfOk result (λ d. HasDone (coord_arm y stop leaves) d self.new) }
        ensures done { IsOk result }
        ensures held { (home : HomeView) → IsHeld home self.old.log → IsHeld home self.new.log }
        ensures same { IsSame self.old self.new }
    {
        co_node::arm(&mut self.log, stop, leaves);
        Ok(CoordStep {
            answer: Answer::Armed,
            sent: Messages::new(self.alloc),
            marks: Marks::new(self.alloc),
        })
    }

    /// Takes an armed stop away, also while the coordinator is down. Takes no memory.
    pub fn disarm(&mut self)
        ensures did { (y : CoordState) → RepresentsCoord self.old y → RepresentsCoord self.new (with_coord_log y (with_stop y.log None)) }
        ensures held { (home : HomeView) → IsHeld home self.old.log → IsHeld home self.new.log }
        ensures same { IsSame self.old self.new }
    {
        co_node::disarm(&mut self.log);
    }
}
