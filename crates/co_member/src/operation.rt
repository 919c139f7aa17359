//! Operations.
ghost use Rattle.std.specs.Prelude.{◌≡◌, ◌≤◌, true, IsTrue, IfOk, IfErr, OnOk};
ghost use Rattle.co_base.specs.declared.head.Kind.{Kind};
ghost use Rattle.co_base.specs.Limits.{most_operations};
ghost use Rattle.co_engine.specs.Calls.{may_operate};
ghost use Rattle.co_log.specs.declared.fault.NodeFault.TheVariants.{Memory};
ghost use Rattle.co_member.specs.Pins.{PinsStay};
ghost use Rattle.co_plain.specs.Member.{member_op, unless_blocked};
ghost use Rattle.co_plain.specs.declared.member_state.MemberState.{MemberState};
ghost use Rattle.co_state.specs.LockRule.{lock_blocker};
ghost use Rattle.co_state.specs.VotingRule.{kept_count};
ghost use Rattle.co_undecided.specs.Represented.{kept_at};
ghost use Rattle.co_member.specs.Standing.{is_up, RepresentsMember, RepresentsRunning, HasAnswered, IsSame};
ghost use Rattle.co_undecided.specs.Pins.{pins_in};

use crate::member::Member;
use crate::running::Running;
use co_base::{MOST_OPERATIONS, Op, Txn};
use co_engine::{Engine, Seen};
use co_log::NodeFault;
use co_message::Answer;
use std::alloc::AllocError;

impl<E: Engine> Running<E> {
    /// An operation of a transaction whose client carries as many as are kept.
    fn operate(&mut self, t: Txn, op: &Op) -> Result<Answer, AllocError>
        requires { kept_at self.old.undecided t ≤ most_operations }
        ensures answer { (kind : Kind) (x : MemberState) → RepresentsRunning E.stands_for kind self.old x → IsTrue (may_operate x.engine t) →
            IfOk result (λ a. a ≡ (unless_blocked x t op.now (lock_blocker x.engine t op.now)).answer) }
        ensures state { (kind : Kind) (x : MemberState) → RepresentsRunning E.stands_for kind self.old x → IsTrue (may_operate x.engine t) →
            OnOk result (RepresentsRunning E.stands_for kind self.new (unless_blocked x t op.now (lock_blocker x.engine t op.now)).state) }
        ensures pins { pins_in E.pins self.new.undecided ≡ pins_in E.pins self.old.undecided }
    {
        match self.undecided.op(t, op)? {
            Seen::Blocked(u) => Ok(Answer::Blocked(u)),
            Seen::Answer(reply) => Ok(Answer::Replied(reply)),
        }
    }

    /// An operation, with how many the client saw answered. Refused where operations were lost, where there are too many, and where a lock is in
    /// the way.
    fn op(&mut self, t: Txn, carried: u16, op: &Op) -> Result<Answer, AllocError>
        requires { kept_at self.old.undecided t ≤ most_operations }
        ensures answer { (kind : Kind) (x : MemberState) → RepresentsRunning E.stands_for kind self.old x → IsTrue (may_operate x.engine t) →
            IfOk result (λ a. a ≡ (member_op x t carried op.now).answer) }
        ensures state { (kind : Kind) (x : MemberState) → RepresentsRunning E.stands_for kind self.old x → IsTrue (may_operate x.engine t) →
            OnOk result (RepresentsRunning E.stands_for kind self.new (member_op x t carried op.now).state) }
        ensures pins { pins_in E.pins self.new.undecided ≡ pins_in E.pins self.old.undecided }
    {
        let kept = self.undecided.kept(t);
        if kept != carried {
            return Ok(Answer::Gone { kept, carried });
        }
        if kept == MOST_OPERATIONS {
            return Ok(Answer::TooMany);
        }
        self.operate(t, op)
    }
}

impl<E: Engine + Drop> Member<E> {
    /// An operation of a transaction that is neither voted nor installed here, with how many the client saw answered.
    ///
    /// `Memory` is the one fault.
    pub fn op(&mut self, t: Txn, carried: u16, op: &Op) -> Result<Answer, NodeFault>
        requires up { is_up self.old ≡ true }
        requires stands { (x : MemberState) × RepresentsMember E.stands_for self.old x × (kept_count x.engine t ≤ most_operations) }
        ensures did { (x : MemberState) → RepresentsMember E.stands_for self.old x → IsTrue (may_operate x.engine t) → IfOk result (λ a. HasAnswered E.stands_for (member_op x t carried op.now) a self.new) }
        ensures memory { IfErr result (λ e. e ≡ Memory) }
        ensures log { self.new.log ≡ self.old.log }
        ensures same { IsSame self.old self.new }
        ensures pins { PinsStay E.pins self.old self.new }
    {
        match &mut self.running {
            Some(running) => Ok(running.op(t, carried, op)?),
            None => unreachable!(),
        }
    }
}
