//! An event at one node, as a step of the federation.
ghost use Rattle.std.specs.Prelude.{◌≡◌, ◌≤◌, Option, length, IfOk, IfErr, IsErrOf, OnOk, true};
ghost use Rattle.co_outside.specs.Home.{HomeView};
ghost use Rattle.co_plain.specs.Federation.{Federation, noted, items_of, message_list};
ghost use Rattle.co_plain.specs.Runs.{numbered};
ghost use Rattle.co_plain.specs.Step.{member_step, coord_step};
ghost use Rattle.co_cluster.specs.Calls.{member_does, coord_does, MemberMay, CoordMay};
ghost use Rattle.co_world.specs.Standing.{RepresentsWorld, AreHeld};
ghost use Rattle.co_world.specs.Answered.{AnswersEvent};
ghost use Rattle.co_opening.specs.Rest.{OnlyOwnFilesChange};
ghost use Rattle.co_world.specs.Pins.{PinsStay};

use crate::world::World;
use co_base::Node;
use co_cluster::{CoordCall, MemberCall};
use co_coord::CoordStep;
use co_durable::WorldFault;
use co_engine::Engine;
use co_member::MemberStep;
use co_message::{Answer, Items, Message};
use co_outside::Home;
use std::alloc::{AllocError, Global};

/// The message that a member sends, where it sends one.
fn messages_of(alloc: Global, sent: Option<Message>) -> Result<Vec<Message>, AllocError>
    ensures { IfOk result (λ messages. messages.items ≡ message_list sent) }
{
    let mut messages = Vec::new(alloc);
    match sent {
        Some(message) => messages.push(message)?,
        None => {}
    }
    Ok(messages)
}

impl<E: Engine + Drop> World<E> {
    /// What a member did is sent and told.
    pub(crate) fn tells_of_member(
        &mut self,
        number: u32,
        did: MemberStep,
    ) -> Result<Items, WorldFault>
        ensures items { IfOk result (λ items. items ≡ numbered number (items_of did.marks (message_list did.sent) did.answer)) }
        ensures stands { (s : Federation) → RepresentsWorld E.takes E.stands_for self.old s → OnOk result (RepresentsWorld E.takes E.stands_for self.new (noted s did.marks (message_list did.sent))) }
        ensures held { (home : HomeView) → AreHeld home self.old → OnOk result (AreHeld home self.new) }
        ensures memory { IfErr result (λ fault. fault ≡ WorldFault.Memory) }
        ensures nodes { self.new.cluster ≡ self.old.cluster }
    {
        let MemberStep {
            answer,
            sent,
            marks,
        } = did;
        let sent = messages_of(self.alloc, sent)?;
        self.tells(number, marks.as_slice(), sent.as_slice(), answer)
    }

    /// What a coordinator did is sent and told.
    pub(crate) fn tells_of_coord(
        &mut self,
        number: u32,
        did: CoordStep,
    ) -> Result<Items, WorldFault>
        ensures items { IfOk result (λ items. items ≡ numbered number (items_of did.marks did.sent did.answer)) }
        ensures stands { (s : Federation) → RepresentsWorld E.takes E.stands_for self.old s → OnOk result (RepresentsWorld E.takes E.stands_for self.new (noted s did.marks did.sent)) }
        ensures held { (home : HomeView) → AreHeld home self.old → OnOk result (AreHeld home self.new) }
        ensures memory { IfErr result (λ fault. fault ≡ WorldFault.Memory) }
        ensures nodes { self.new.cluster ≡ self.old.cluster }
    {
        let CoordStep {
            answer,
            sent,
            marks,
        } = did;
        self.tells(number, marks.as_slice(), sent.as_slice(), answer)
    }

    /// An event at a member, which answers where it is up.
    pub(crate) fn at_member<H: Home>(
        &mut self,
        home: &mut H,
        number: u32,
        member: u8,
        call: MemberCall,
    ) -> Result<Items, WorldFault>
        requires in_head { (1 ≤ member) × (member ≤ length self.old.cluster.members.items) }
        requires held { AreHeld (H.seen home.old) self.old }
        requires stands { (s : Federation) × RepresentsWorld E.takes E.stands_for self.old s × ((s.member member).up ≡ true → MemberMay s.coordinators call (s.member member)) }
        ensures count { IsErrOf result WorldFault.Count → ⊥ }
        ensures answered { (s : Federation) → RepresentsWorld E.takes E.stands_for self.old s →
            AnswersEvent E.takes E.stands_for number (λ z. member_step z member (member_does member call)) s self.new (H.seen home.old) (H.seen home.new) result }
        ensures rest { OnlyOwnFilesChange (length self.old.cluster.members.items) (length self.old.cluster.coords.items) (H.seen home.old) (H.seen home.new) }
        ensures pins { PinsStay E.pins self.old self.new }
    {
        if !self.member_up(member) {
            return self.answers(number, Answer::Down(Node::Member(member)));
        }
        let did = self.member_does(home, member, call)?;
        self.tells_of_member(number, did)
    }

    /// An event at a coordinator, which answers where it is up.
    pub(crate) fn at_coord<H: Home>(
        &mut self,
        home: &mut H,
        number: u32,
        coord: u8,
        call: CoordCall,
    ) -> Result<Items, WorldFault>
        requires in_head { (1 ≤ coord) × (coord ≤ length self.old.cluster.coords.items) }
        requires held { AreHeld (H.seen home.old) self.old }
        requires stands { (s : Federation) × RepresentsWorld E.takes E.stands_for self.old s × ((s.coord coord).up ≡ true → CoordMay (length s.kinds) coord call (s.coord coord)) }
        ensures count { IsErrOf result WorldFault.Count → ⊥ }
        ensures answered { (s : Federation) → RepresentsWorld E.takes E.stands_for self.old s →
            AnswersEvent E.takes E.stands_for number (λ z. coord_step z coord (coord_does coord call)) s self.new (H.seen home.old) (H.seen home.new) result }
        ensures rest { OnlyOwnFilesChange (length self.old.cluster.members.items) (length self.old.cluster.coords.items) (H.seen home.old) (H.seen home.new) }
        ensures pins { PinsStay E.pins self.old self.new }
    {
        if !self.coord_up(coord) {
            return self.answers(number, Answer::Down(Node::Coord(coord)));
        }
        let did = self.coord_does(home, coord, call)?;
        self.tells_of_coord(number, did)
    }
}
