//! The member on its log.
ghost use Rattle.std.specs.Prelude.{◌≡◌, true, None, Some, IfOk, IfErr, OnOk};
ghost use Rattle.co_base.specs.declared.head.Kind.{Kind};
ghost use Rattle.co_base.specs.declared.node.Node.TheVariants as node;
ghost use Rattle.co_log.specs.LogView.{IsHeld, IsShort};
ghost use Rattle.co_log.specs.Others.{OtherNodesStay};
ghost use Rattle.co_log.specs.declared.fault.NodeFault.TheVariants.{Memory};
ghost use Rattle.co_member.specs.Pins.{PinsStay, pins_of};
ghost use Rattle.co_message.specs.declared.answer.Answer.TheVariants as answer;
ghost use Rattle.co_plain.specs.Member.{prepare_record};
ghost use Rattle.co_plain.specs.MemberStep.{standing_of};
ghost use Rattle.co_plain.specs.declared.member_state.MemberState.{MemberState};
ghost use Rattle.co_plain.specs.declared.standing.Standing.TheVariants.{IsActive};
ghost use Rattle.co_record.specs.Spelling.{IsWritable};
ghost use Rattle.co_state.specs.Changes.{sets_of};
ghost use Rattle.co_state.specs.EngineState.{operations_of};
ghost use Rattle.co_member.specs.Plans.{changed, carried_out, plan_of, IsSingleIn};
ghost use Rattle.co_member.specs.Standing.{is_up, RepresentsMember, RepresentsRunning, HasDone, HasEndedAs, IsSame, Suits, written_by};
ghost use Rattle.co_node.specs.Writing.{MayWrite, MayWriteOne, IsAnsweredFor};
ghost use Rattle.co_member.specs.declared.plan.Course.TheVariants.{Grants, GrantsLocal};
ghost use Rattle.co_node.specs.declared.writing.Writes.TheVariants.{Nothing};
ghost use Rattle.co_member.specs.declared.running.Running.{Running};

use crate::delivery::commit_record;
use crate::local::LOCAL_COORD;
use crate::plan::{Change, Course, Plan, told};
use crate::running::Running;
use crate::step::MemberStep;
use co_base::{Kind, Marks, Txn};
use co_engine::Engine;
use co_log::{Log, NodeFault};
use co_message::{Answer, Message};
use co_node::{Written, force_batch, force_prepare, spell_both, write};
use co_outside::Home;
use std::alloc::{AllocError, Global};

/// One member on its log.
///
/// `RepresentsMember` says for which plain members it stands, and each clause holds for every such one. After a fault it is only dropped.
#[derive(Drop)]
pub struct Member<E> {
    pub(crate) alloc: Global,
    pub(crate) number: u8,
    pub(crate) kind: Kind,
    pub(crate) coords: u8,
    pub(crate) log: Log,
    /// What it has in memory, while it is up.
    pub(crate) running: Option<Running<E>>,
}

impl<E: Engine + Drop> Member<E> {
    /// What a member that is up has in memory.
    pub(crate) fn running(&self) -> &Running<E>
        requires { is_up self.now ≡ true }
        ensures { self.now.running ≡ Some result.now }
    {
        match &self.running {
            Some(running) => running,
            None => unreachable!(),
        }
    }

    /// Changes a transaction as a plan says, while the member is up.
    fn change(&mut self, t: Txn, change: Change) -> Result<(), AllocError>
        requires { is_up self.old ≡ true }
        ensures running { (x : MemberState) → RepresentsMember E.stands_for self.old x → Suits x t change →
            OnOk result ((r : Running E) × (self.new.running ≡ Some r) × RepresentsRunning E.stands_for self.old.kind r (changed x t change)) }
        ensures log { self.new.log ≡ self.old.log }
        ensures same { IsSame self.old self.new }
        ensures pins { pins_of E.pins self.new ≡ pins_of E.pins self.old }
    {
        match &mut self.running {
            Some(running) => running.change(t, change),
            None => unreachable!(),
        }
    }

    /// Has this in memory from now on, in place of what it had.
    pub(crate) fn has(&mut self, running: Option<Running<E>>)
        ensures running { self.new.running ≡ running }
        ensures log { self.new.log ≡ self.old.log }
        ensures same { IsSame self.old self.new }
    {
        self.running = running;
    }

    /// A log write was stopped: what was in memory is lost, and the member is down.
    pub(crate) fn stopped(&mut self, call: u8, marks: Marks) -> MemberStep
        ensures step { result ≡ record { answer = answer.Stopped call; sent = None; marks = marks } }
        ensures down { self.new.running ≡ None }
        ensures log { self.new.log ≡ self.old.log }
        ensures same { IsSame self.old self.new }
        ensures pins { PinsStay E.pins self.old self.new }
    {
        self.has(None);
        MemberStep {
            answer: Answer::Stopped(call),
            sent: None,
            marks,
        }
    }

    /// What is answered and sent once a log write ended: where it was stopped, nothing is sent and the member is down. A fault is given back.
    pub(crate) fn ended(
        &mut self,
        written: Result<Written, NodeFault>,
        answer: Answer,
        sent: Option<Message>,
    ) -> Result<MemberStep, NodeFault>
        ensures ended { HasEndedAs answer sent written self.old result self.new }
        ensures log { self.new.log ≡ self.old.log }
        ensures same { IsSame self.old self.new }
        ensures pins { PinsStay E.pins self.old self.new }
    {
        match written {
            Ok(Written::Done { marks }) => Ok(MemberStep {
                answer,
                sent,
                marks,
            }),
            Ok(Written::Stopped { call, marks }) => {
                drop(answer);
                Ok(self.stopped(call, marks))
            }
            Err(fault) => {
                drop(answer);
                Err(fault)
            }
        }
    }

    /// Carries a plan out: its change in memory, for which there may be none, and then its log write. What a stopped write leaves is
    /// what the log tells.
    pub(crate) fn carry_out<H: Home>(
        &mut self,
        home: &mut H,
        t: Txn,
        plan: Plan,
    ) -> Result<MemberStep, NodeFault>
        requires up { is_up self.old ≡ true }
        requires short { IsShort self.old.log.current × IsShort self.old.log.spare }
        requires held { IsHeld (H.seen home.old) self.old.log }
        requires stands { (x : MemberState) × RepresentsMember E.stands_for self.old x }
        requires writes { MayWriteOne plan.writes }
        ensures did { (x : MemberState) → RepresentsMember E.stands_for self.old x → Suits x t plan.change →
            IfOk result (λ d. HasDone E.stands_for (carried_out self.old.number x t plan) d self.new) }
        ensures answered { (x : MemberState) → RepresentsMember E.stands_for self.old x →
            IsAnsweredFor plan.writes (node.Member self.old.number) x.log self.old.log self.new.log
            (H.seen home.old) (H.seen home.new) (written_by result) }
        ensures rest { OtherNodesStay self.old.log.node (H.seen home.old) (H.seen home.new) }
        ensures same { IsSame self.old self.new }
        ensures pins { PinsStay E.pins self.old self.new }
    {
        match self.change(t, plan.change) {
            Ok(()) => {
                let Plan {
                    writes,
                    change: _,
                    answer,
                    sent,
                } = plan;
                let written = write(self.alloc, &mut self.log, home, writes);
                self.ended(written, answer, sent)
            }
            Err(AllocError) => {
                drop(plan);
                Err(NodeFault::Memory)
            }
        }
    }

    /// Votes yes for this coordinator, over so many operations: the vote is cast in memory, its record is forced from the sets of the
    /// transaction, and then it is sent. What a stopped write leaves is what the log tells.
    fn grant<H: Home>(
        &mut self,
        home: &mut H,
        t: Txn,
        coord: u8,
        count: u16,
    ) -> Result<MemberStep, NodeFault>
        requires up { is_up self.old ≡ true }
        requires short { IsShort self.old.log.current × IsShort self.old.log.spare }
        requires held { IsHeld (H.seen home.old) self.old.log }
        requires stands { (x : MemberState) × RepresentsMember E.stands_for self.old x × (standing_of x t ≡ IsActive) × IsWritable (prepare_record t coord count (sets_of (operations_of x.engine t))) }
        ensures did { (x : MemberState) → RepresentsMember E.stands_for self.old x → standing_of x t ≡ IsActive →
            IfOk result (λ d. HasDone E.stands_for (carried_out self.old.number x t (plan_of (Grants coord count) self.old.number x t)) d self.new) }
        ensures answered { (x : MemberState) → RepresentsMember E.stands_for self.old x → standing_of x t ≡ IsActive →
            IsAnsweredFor (plan_of (Grants coord count) self.old.number x t).writes (node.Member self.old.number) x.log self.old.log self.new.log
            (H.seen home.old) (H.seen home.new) (written_by result) }
        ensures rest { OtherNodesStay self.old.log.node (H.seen home.old) (H.seen home.new) }
        ensures same { IsSame self.old self.new }
        ensures pins { PinsStay E.pins self.old self.new }
    {
        match self.change(t, Change::Casts { coord, count }) {
            Ok(()) => {
                let written = match &self.running {
                    Some(running) => {
                        force_prepare(&mut self.log, home, running.vote_record(t, coord, count))
                    }
                    None => unreachable!(),
                };
                let vote = Message::Vote {
                    txn: t,
                    member: self.number,
                    coord,
                    yes: true,
                };
                self.ended(written, Answer::Yes, Some(vote))
            }
            Err(AllocError) => Err(NodeFault::Memory),
        }
    }

    /// Commits a local transaction, over so many operations: its prepare record and its commit record are spelled out from its sets, then it is
    /// committed in memory, and then both records are forced. What a stopped write leaves is what the log tells.
    fn grant_local<H: Home>(
        &mut self,
        home: &mut H,
        t: Txn,
        count: u16,
    ) -> Result<MemberStep, NodeFault>
        requires up { is_up self.old ≡ true }
        requires short { IsShort self.old.log.current × IsShort self.old.log.spare }
        requires held { IsHeld (H.seen home.old) self.old.log }
        requires stands { (x : MemberState) × RepresentsMember E.stands_for self.old x × (standing_of x t ≡ IsActive) × MayWrite (plan_of (GrantsLocal count) self.old.number x t).writes }
        ensures did { (x : MemberState) → RepresentsMember E.stands_for self.old x → standing_of x t ≡ IsActive →
            IfOk result (λ d. HasDone E.stands_for (carried_out self.old.number x t (plan_of (GrantsLocal count) self.old.number x t)) d self.new) }
        ensures answered { (x : MemberState) → RepresentsMember E.stands_for self.old x → standing_of x t ≡ IsActive →
            IsAnsweredFor (plan_of (GrantsLocal count) self.old.number x t).writes (node.Member self.old.number) x.log self.old.log self.new.log
            (H.seen home.old) (H.seen home.new) (written_by result) }
        ensures rest { OtherNodesStay self.old.log.node (H.seen home.old) (H.seen home.new) }
        ensures same { IsSame self.old self.new }
        ensures pins { PinsStay E.pins self.old self.new }
    {
        let prepare = self.running().vote_record(t, LOCAL_COORD, count);
        let batch = spell_both(&self.log, prepare, commit_record(self.alloc, t))?;
        let change = Change::CastsAndInstalls {
            coord: LOCAL_COORD,
            count,
        };
        match self.change(t, change) {
            Ok(()) => {
                let written = force_batch(&mut self.log, home, batch);
                self.ended(written, Answer::Committed, None)
            }
            Err(AllocError) => {
                drop(batch);
                Err(NodeFault::Memory)
            }
        }
    }

    /// Goes on as a course says.
    pub(crate) fn follow<H: Home>(
        &mut self,
        home: &mut H,
        t: Txn,
        course: Course,
    ) -> Result<MemberStep, NodeFault>
        requires up { is_up self.old ≡ true }
        requires short { IsShort self.old.log.current × IsShort self.old.log.spare }
        requires held { IsHeld (H.seen home.old) self.old.log }
        requires stands { (x : MemberState) × RepresentsMember E.stands_for self.old x × Suits x t (plan_of course self.old.number x t).change × MayWrite (plan_of course self.old.number x t).writes }
        requires single { IsSingleIn course }
        ensures did { (x : MemberState) → RepresentsMember E.stands_for self.old x → Suits x t (plan_of course self.old.number x t).change →
            IfOk result (λ d. HasDone E.stands_for (carried_out self.old.number x t (plan_of course self.old.number x t)) d self.new) }
        ensures answered { (x : MemberState) → RepresentsMember E.stands_for self.old x → Suits x t (plan_of course self.old.number x t).change →
            IsAnsweredFor (plan_of course self.old.number x t).writes (node.Member self.old.number) x.log self.old.log self.new.log
            (H.seen home.old) (H.seen home.new) (written_by result) }
        ensures rest { OtherNodesStay self.old.log.node (H.seen home.old) (H.seen home.new) }
        ensures same { IsSame self.old self.new }
        ensures pins { PinsStay E.pins self.old self.new }
    {
        match course {
            Course::Carries(plan) => self.carry_out(home, t, plan),
            Course::Grants { coord, count } => self.grant(home, t, coord, count),
            Course::GrantsLocal { count } => self.grant_local(home, t, count),
        }
    }

    /// Carries a plan out that writes nothing.
    pub(crate) fn settle(&mut self, t: Txn, plan: Plan) -> Result<MemberStep, NodeFault>
        requires up { is_up self.old ≡ true }
        requires quiet { plan.writes ≡ Nothing }
        ensures did { (x : MemberState) → RepresentsMember E.stands_for self.old x → Suits x t plan.change →
            IfOk result (λ d. HasDone E.stands_for (carried_out self.old.number x t plan) d self.new) }
        ensures memory { IfErr result (λ e. e ≡ Memory) }
        ensures log { self.new.log ≡ self.old.log }
        ensures same { IsSame self.old self.new }
        ensures pins { PinsStay E.pins self.old self.new }
    {
        match self.change(t, plan.change) {
            Ok(()) => Ok(told(self.alloc, plan)),
            Err(AllocError) => {
                drop(plan);
                Err(NodeFault::Memory)
            }
        }
    }
}
