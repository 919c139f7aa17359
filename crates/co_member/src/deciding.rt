//! The calls of a member that may write its log, and its crash.
ghost use Rattle.std.specs.Prelude.{◌≡◌, true, false, Some, IfOk, IsOk};
ghost use Rattle.co_base.specs.declared.node.Node.TheVariants as node;
ghost use Rattle.co_log.specs.LogView.{IsHeld};
ghost use Rattle.co_log.specs.Others.{OtherNodesStay};
ghost use Rattle.co_plain.specs.LocalCommit.{member_local_commit};
ghost use Rattle.co_plain.specs.Member.{member_deliver, member_vote};
ghost use Rattle.co_plain.specs.MemberLog.{member_crash};
ghost use Rattle.co_plain.specs.MemberStep.{standing_of};
ghost use Rattle.co_plain.specs.declared.member_state.MemberState.{MemberState};
ghost use Rattle.co_state.specs.Table.{holds};
ghost use Rattle.co_member.specs.Conditions.{IsAboutSome, MayTake, MayVote, MayCommit};
ghost use Rattle.co_member.specs.Pins.{PinsStay, pins_of};
ghost use Rattle.co_member.specs.Plans.{again_plan, deliver_plan, local_commit_plan, marked};
ghost use Rattle.co_member.specs.Standing.{is_up, RepresentsMember, HasDone, IsSame, written_by};
ghost use Rattle.co_node.specs.Writing.{IsAnsweredFor};

use crate::delivery::txn_of;
use crate::member::Member;
use crate::step::MemberStep;
use co_base::{Marks, Txn};
use co_engine::Engine;
use co_log::NodeFault;
use co_message::{Answer, Message};
use co_outside::Home;

impl<E: Engine + Drop> Member<E> {
    /// A prepare is marked before the ballot on it, while the member is up.
    fn take_note(&mut self, message: &Message)
        requires { is_up self.old ≡ true }
        ensures did { (x : MemberState) → RepresentsMember E.stands_for self.old x → RepresentsMember E.stands_for self.new (marked x message.now) }
        ensures up { is_up self.new ≡ true }
        ensures log { self.new.log ≡ self.old.log }
        ensures same { IsSame self.old self.new }
        ensures pins { pins_of E.pins self.new ≡ pins_of E.pins self.old }
    {
        match &mut self.running {
            Some(running) => running.take_note(message),
            None => unreachable!(),
        }
    }

    /// A message comes that was sent to this member: a yes is sent once the prepare record is stable, and a commit is acknowledged once its record is.
    ///
    /// A stopped write leaves the member down, and nothing is sent. `Full` comes where the log would be too long, and changes nothing;
    /// `Device` where the directory failed, and only there; `Memory` leaves the old records.
    pub fn deliver<H: Home>(
        &mut self,
        home: &mut H,
        message: &Message,
    ) -> Result<MemberStep, NodeFault>
        requires up { is_up self.old ≡ true }
        requires held { IsHeld (H.seen home.old) self.old.log }
        requires about { IsAboutSome message.now }
        requires stands { (x : MemberState) × RepresentsMember E.stands_for self.old x × MayTake x message.now }
        ensures did { (x : MemberState) → RepresentsMember E.stands_for self.old x → IfOk result (λ d. HasDone E.stands_for (member_deliver self.old.number x message.now) d self.new) }
        ensures answered { (x : MemberState) → RepresentsMember E.stands_for self.old x →
            IsAnsweredFor (deliver_plan self.old.number x message.now).writes (node.Member self.old.number) x.log self.old.log self.new.log
            (H.seen home.old) (H.seen home.new) (written_by result) }
        ensures rest { OtherNodesStay self.old.log.node (H.seen home.old) (H.seen home.new) }
        ensures same { IsSame self.old self.new }
        ensures pins { PinsStay E.pins self.old self.new }
    {
        // What is read of either file is within its bounds, also where there is no memory.
        let _ = self.log.lengths();
        self.take_note(message);
        let course = self
            .running()
            .deliver_plan(self.alloc, self.number, message)?;
        self.follow(home, txn_of(message), course)
    }

    /// A vote that is held is tried again.
    ///
    /// A stopped write leaves the member down, and nothing is sent. `Full` comes where the log would be too long, and changes nothing;
    /// `Device` where the directory failed, and only there; `Memory` leaves the old records.
    pub fn vote<H: Home>(&mut self, home: &mut H, t: Txn) -> Result<MemberStep, NodeFault>
        requires up { is_up self.old ≡ true }
        requires held { IsHeld (H.seen home.old) self.old.log }
        requires stands { (x : MemberState) × RepresentsMember E.stands_for self.old x × MayVote x t }
        ensures did { (x : MemberState) → RepresentsMember E.stands_for self.old x → IfOk result (λ d. HasDone E.stands_for (member_vote self.old.number x t) d self.new) }
        ensures answered { (x : MemberState) → RepresentsMember E.stands_for self.old x →
            IsAnsweredFor (again_plan self.old.number x t (standing_of x t)).writes (node.Member self.old.number) x.log self.old.log self.new.log
            (H.seen home.old) (H.seen home.new) (written_by result) }
        ensures rest { OtherNodesStay self.old.log.node (H.seen home.old) (H.seen home.new) }
        ensures same { IsSame self.old self.new }
        ensures pins { PinsStay E.pins self.old self.new }
    {
        // What is read of either file is within its bounds, also where there is no memory.
        let _ = self.log.lengths();
        let course = self.running().again_plan(self.number, t)?;
        self.follow(home, t, course)
    }

    /// The client asks for the commit of a local transaction, which is neither voted nor installed, and carries how many operations it saw answered.
    ///
    /// A stopped write leaves the member down, and nothing is sent. `Full` comes where the log would be too long, and changes nothing;
    /// `Device` where the directory failed, and only there; `Memory` leaves the old records.
    pub fn local_commit<H: Home>(
        &mut self,
        home: &mut H,
        t: Txn,
        carried: u16,
    ) -> Result<MemberStep, NodeFault>
        requires up { is_up self.old ≡ true }
        requires held { IsHeld (H.seen home.old) self.old.log }
        requires stands { (x : MemberState) × RepresentsMember E.stands_for self.old x × (holds x.engine.voted t ≡ false) × MayCommit x t carried }
        ensures did { (x : MemberState) → RepresentsMember E.stands_for self.old x → IfOk result (λ d. HasDone E.stands_for (member_local_commit self.old.number x t carried) d self.new) }
        ensures answered { (x : MemberState) → RepresentsMember E.stands_for self.old x →
            IsAnsweredFor (local_commit_plan x t carried).writes (node.Member self.old.number) x.log self.old.log self.new.log
            (H.seen home.old) (H.seen home.new) (written_by result) }
        ensures rest { OtherNodesStay self.old.log.node (H.seen home.old) (H.seen home.new) }
        ensures same { IsSame self.old self.new }
        ensures pins { PinsStay E.pins self.old self.new }
    {
        // What is read of either file is within its bounds, also where there is no memory.
        let _ = self.log.lengths();
        let course = self.running().local_commit_plan(t, carried)?;
        self.follow(home, t, course)
    }

    /// A crash between two log writes: what was in memory is lost, and the member is down. It makes no call of the directory, takes no
    /// memory, and no fault comes.
    pub fn crash<H: Home>(&mut self, home: &mut H) -> Result<MemberStep, NodeFault>
        requires held { IsHeld (H.seen home.old) self.old.log }
        requires stands { (x : MemberState) × RepresentsMember E.stands_for self.old x }
        ensures did { (x : MemberState) → RepresentsMember E.stands_for self.old x → IfOk result (λ d. HasDone E.stands_for (member_crash x) d self.new) }
        ensures done { IsOk result }
        ensures held { IsHeld (H.seen home.new) self.new.log }
        ensures home { home.new ≡ home.old }
        ensures same { IsSame self.old self.new }
        ensures pins { PinsStay E.pins self.old self.new }
    {
        co_node::crash(&mut self.log, home);
        self.has(None);
        Ok(MemberStep {
            answer: Answer::Crashed,
            sent: None,
            marks: Marks::new(self.alloc),
        })
    }
}
