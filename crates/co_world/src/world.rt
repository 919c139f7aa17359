//! The federation, and what one of its nodes does in it.
ghost use Rattle.std.specs.Prelude.{◌≡◌, ◌≤◌, length, IfOk, IfErr, IsErrOf, OnOk};
ghost use Rattle.co_outside.specs.Home.{HomeView};
ghost use Rattle.co_plain.specs.Federation.{Federation, answers, with_member, with_coord, noted, items_of};
ghost use Rattle.co_plain.specs.Runs.{numbered};
ghost use Rattle.co_plain.specs.Step.{disarmed};
ghost use Rattle.co_plain.specs.Wire.{send_all};
ghost use Rattle.co_cluster.specs.Calls.{member_does, coord_does, MemberMay, CoordMay};
ghost use Rattle.co_cluster.specs.Left.{AreLeftWith, member_disarmed, coord_disarmed};
ghost use Rattle.co_cluster.specs.Served.{HasEndedAs};
ghost use Rattle.co_cluster.specs.Telling.{IsTold, IsToldBy};
ghost use Rattle.co_world.specs.Standing.{RepresentsWorld, AreHeld, AreServed};
ghost use Rattle.co_opening.specs.Rest.{OnlyOwnFilesChange};
ghost use Rattle.co_world.specs.Pins.{PinsStay};

use crate::telling::items_of;
use co_base::Mark;
use co_cluster::{Cluster, CoordCall, MemberCall};
use co_coord::CoordStep;
use co_durable::WorldFault;
use co_engine::Engine;
use co_member::MemberStep;
use co_message::{Answer, Items, Message, Wire};
use co_outside::Home;
use co_session::Sessions;
use std::alloc::{AllocError, Global};

/// A federation of members and coordinators on their logs.
#[derive(Drop)]
pub struct World<E> {
    pub(crate) alloc: Global,
    /// The members and coordinators.
    pub(crate) cluster: Cluster<E>,
    /// What clients did in this run.
    pub(crate) sessions: Sessions,
    /// The messages that were sent in this run.
    pub(crate) wire: Wire,
}

impl<E: Engine + Drop> World<E> {
    /// The messages that were sent in this run. Takes no memory.
    pub fn wire(&self) -> &Wire
        ensures { result.now ≡ self.now.wire }
    {
        &self.wire
    }

    /// Whether the member of this number is up.
    pub(crate) fn member_up(&self, member: u8) -> bool
        requires { (1 ≤ member) × (member ≤ length self.now.cluster.members.items) }
        ensures { (s : Federation) → RepresentsWorld E.takes E.stands_for self.now s → result ≡ (s.member member).up }
    {
        self.cluster.member_up(member)
    }

    /// Whether the coordinator of this number is up.
    pub(crate) fn coord_up(&self, coord: u8) -> bool
        requires { (1 ≤ coord) × (coord ≤ length self.now.cluster.coords.items) }
        ensures { (s : Federation) → RepresentsWorld E.takes E.stands_for self.now s → result ≡ (s.coord coord).up }
    {
        self.cluster.coord_up(coord)
    }

    /// An answer that changes nothing.
    pub(crate) fn answers(&self, number: u32, answer: Answer) -> Result<Items, WorldFault>
        ensures items { (s : Federation) → IfOk result (λ items. items ≡ numbered number (answers s answer).items) }
        ensures memory { IfErr result (λ fault. fault ≡ WorldFault.Memory) }
    {
        Ok(items_of(self.alloc, number, &[], &[], answer)?)
    }

    /// What is asked of the member of this number is done. A fault leaves the stable records of before, or those of the completed write.
    pub(crate) fn member_does<H: Home>(
        &mut self,
        home: &mut H,
        member: u8,
        call: MemberCall,
    ) -> Result<MemberStep, WorldFault>
        requires in_head { (1 ≤ member) × (member ≤ length self.old.cluster.members.items) }
        requires held { AreHeld (H.seen home.old) self.old }
        requires stands { (s : Federation) × RepresentsWorld E.takes E.stands_for self.old s × MemberMay s.coordinators call (s.member member) }
        ensures count { IsErrOf result WorldFault.Count → ⊥ }
        ensures told { (s : Federation) → RepresentsWorld E.takes E.stands_for self.old s →
            IfOk result (λ d. IsTold (member_does member call (s.member member)) d) }
        ensures stands { (s : Federation) → RepresentsWorld E.takes E.stands_for self.old s →
            OnOk result (RepresentsWorld E.takes E.stands_for self.new (with_member s member (member_does member call (s.member member)).state)) }
        ensures left { (s : Federation) → RepresentsWorld E.takes E.stands_for self.old s →
            IfErr result (AreLeftWith (H.seen home.new).file s (with_member (disarmed s) member (member_does member call (member_disarmed (s.member member))).state)) }
        ensures served { OnOk result (AreServed self.new (H.seen home.old) (H.seen home.new)) }
        ensures ended { IfErr result (λ fault. HasEndedAs fault (H.seen home.old) (H.seen home.new)) }
        ensures rest { OnlyOwnFilesChange (length self.old.cluster.members.items) (length self.old.cluster.coords.items) (H.seen home.old) (H.seen home.new) }
        ensures pins { PinsStay E.pins self.old self.new }
    {
        self.cluster.member_does(home, member, call)
    }

    /// What is asked of the coordinator of this number is done. A fault leaves the stable records of before, or those of the completed write.
    pub(crate) fn coord_does<H: Home>(
        &mut self,
        home: &mut H,
        coord: u8,
        call: CoordCall,
    ) -> Result<CoordStep, WorldFault>
        requires in_head { (1 ≤ coord) × (coord ≤ length self.old.cluster.coords.items) }
        requires held { AreHeld (H.seen home.old) self.old }
        requires stands { (s : Federation) × RepresentsWorld E.takes E.stands_for self.old s × CoordMay (length s.kinds) coord call (s.coord coord) }
        ensures count { IsErrOf result WorldFault.Count → ⊥ }
        ensures told { (s : Federation) → RepresentsWorld E.takes E.stands_for self.old s →
            IfOk result (λ d. IsToldBy (coord_does coord call (s.coord coord)) d) }
        ensures stands { (s : Federation) → RepresentsWorld E.takes E.stands_for self.old s →
            OnOk result (RepresentsWorld E.takes E.stands_for self.new (with_coord s coord (coord_does coord call (s.coord coord)).state)) }
        ensures left { (s : Federation) → RepresentsWorld E.takes E.stands_for self.old s →
            IfErr result (AreLeftWith (H.seen home.new).file s (with_coord (disarmed s) coord (coord_does coord call (coord_disarmed (s.coord coord))).state)) }
        ensures served { OnOk result (AreServed self.new (H.seen home.old) (H.seen home.new)) }
        ensures ended { IfErr result (λ fault. HasEndedAs fault (H.seen home.old) (H.seen home.new)) }
        ensures rest { OnlyOwnFilesChange (length self.old.cluster.members.items) (length self.old.cluster.coords.items) (H.seen home.old) (H.seen home.new) }
        ensures pins { PinsStay E.pins self.old self.new }
    {
        self.cluster.coord_does(home, coord, call)
    }

    /// Messages are sent.
    fn send(&mut self, messages: &[Message]) -> Result<(), AllocError>
        ensures wire { OnOk result (self.new.wire ≡ send_all self.old.wire messages.now) }
        ensures rest { OnOk result (self.new ≡ record self.old { wire = self.new.wire }) }
        ensures nodes { self.new.cluster ≡ self.old.cluster }
    {
        for message in messages {
            self.wire.send(*message)?;
        }
        Ok(())
    }

    /// What a node did is sent and told.
    pub(crate) fn tells(
        &mut self,
        number: u32,
        marks: &[Mark],
        messages: &[Message],
        answer: Answer,
    ) -> Result<Items, WorldFault>
        ensures items { IfOk result (λ items. items ≡ numbered number (items_of marks.now messages.now answer)) }
        ensures stands { (s : Federation) → RepresentsWorld E.takes E.stands_for self.old s → OnOk result (RepresentsWorld E.takes E.stands_for self.new (noted s marks.now messages.now)) }
        ensures held { (home : HomeView) → AreHeld home self.old → OnOk result (AreHeld home self.new) }
        ensures memory { IfErr result (λ fault. fault ≡ WorldFault.Memory) }
        ensures nodes { self.new.cluster ≡ self.old.cluster }
    {
        self.send(messages)?;
        Ok(items_of(self.alloc, number, marks, messages, answer)?)
    }
}
