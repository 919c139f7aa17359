//! The calls of a member that is up and is not given the directory.
ghost use Rattle.std.specs.Prelude.{◌≡◌, ◌≤◌, ℕ, true, Option, None, IfOk, IfErr, IsOk};
ghost use Rattle.co_log.specs.LogView.{IsHeld};
ghost use Rattle.co_log.specs.declared.fault.NodeFault.TheVariants.{Memory};
ghost use Rattle.co_member.specs.Pins.{PinsStay};
ghost use Rattle.co_outside.specs.Home.{HomeView, File};
ghost use Rattle.co_outside.specs.declared.spot.Spot.{Spot};
ghost use Rattle.co_plain.specs.LocalCommit.{member_local_abort};
ghost use Rattle.co_plain.specs.LogWrite.{with_stop};
ghost use Rattle.co_plain.specs.Member.{member_timer, member_ask};
ghost use Rattle.co_plain.specs.MemberLog.{member_arm};
ghost use Rattle.co_plain.specs.MemberStep.{with_log};
ghost use Rattle.co_plain.specs.declared.member_state.MemberState.{MemberState};
ghost use Rattle.co_member.specs.Standing.{is_up, RepresentsMember, HasDone, IsSame};

use crate::local::local_abort_plan;
use crate::member::Member;
use crate::plan::told;
use crate::step::MemberStep;
use crate::timers::{ask_plan, timer_plan};
use co_base::{Leaves, Marks, Txn};
use co_engine::Engine;
use co_log::NodeFault;
use co_message::Answer;

impl<E: Engine + Drop> Member<E> {
    /// The timer of a transaction fires: only what has not voted is dropped.
    ///
    /// `Memory` is the one fault.
    pub fn timer(&mut self, t: Txn) -> Result<MemberStep, NodeFault>
        requires up { is_up self.old ≡ true }
        ensures did { (x : MemberState) → RepresentsMember E.stands_for self.old x → IfOk result (λ d. HasDone E.stands_for (member_timer x t) d self.new) }
        ensures memory { IfErr result (λ e. e ≡ Memory) }
        ensures log { self.new.log ≡ self.old.log }
        ensures same { IsSame self.old self.new }
        ensures pins { PinsStay E.pins self.old self.new }
    {
        let plan = timer_plan(self.running().standing(t));
        self.settle(t, plan)
    }

    /// A member in doubt asks the coordinator of the vote. Nothing of the member changes.
    pub fn ask(&self, t: Txn) -> Result<MemberStep, NodeFault>
        requires up { is_up self.now ≡ true }
        ensures did { (x : MemberState) → RepresentsMember E.stands_for self.now x → IfOk result (λ d. HasDone E.stands_for (member_ask self.now.number x t) d self.now) }
        ensures done { IsOk result }
    {
        let running = self.running();
        let plan = ask_plan(self.number, t, running.coord_of(t), running.standing(t));
        Ok(told(self.alloc, plan))
    }

    /// The client asks for the abort of a local transaction.
    ///
    /// `Memory` is the one fault.
    pub fn local_abort(&mut self, t: Txn) -> Result<MemberStep, NodeFault>
        requires up { is_up self.old ≡ true }
        ensures did { (x : MemberState) → RepresentsMember E.stands_for self.old x → IfOk result (λ d. HasDone E.stands_for (member_local_abort x t) d self.new) }
        ensures memory { IfErr result (λ e. e ≡ Memory) }
        ensures log { self.new.log ≡ self.old.log }
        ensures same { IsSame self.old self.new }
        ensures pins { PinsStay E.pins self.old self.new }
    {
        let plan = local_abort_plan(self.running().standing(t));
        self.settle(t, plan)
    }

    /// Arms the next log write: its device call with this number, counted from 1, stops and leaves this image. Takes no memory, and no fault comes.
    pub fn arm(&mut self, stop: u8, leaves: Leaves) -> Result<MemberStep, NodeFault>
        requires up { is_up self.old ≡ true }
        requires stop { (1 ≤ stop) × (stop ≤ 4) }
        ensures did { (x : MemberState) → RepresentsMember E.stands_for self.old x → IfOk result (λ d. HasDone E.stands_for (member_arm x stop leaves) d self.new) }
        ensures done { IsOk result }
        ensures held { (home : HomeView) → IsHeld home self.old.log → IsHeld home self.new.log }
        ensures same { IsSame self.old self.new }
        ensures pins { PinsStay E.pins self.old self.new }
    {
        co_node::arm(&mut self.log, stop, leaves);
        Ok(MemberStep {
            answer: Answer::Armed,
            sent: None,
            marks: Marks::new(self.alloc),
        })
    }

    /// Takes an armed stop away, also while the member is down. Takes no memory.
    pub fn disarm(&mut self)
        ensures did { (x : MemberState) → RepresentsMember E.stands_for self.old x → RepresentsMember E.stands_for self.new (with_log x (with_stop x.log None)) }
        ensures held { (home : HomeView) → IsHeld home self.old.log → IsHeld home self.new.log }
        ensures same { IsSame self.old self.new }
        ensures pins { PinsStay E.pins self.old self.new }
    {
        co_node::disarm(&mut self.log);
    }
}
