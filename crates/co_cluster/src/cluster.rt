//! The nodes of a federation, and what one of them does.
ghost use Rattle.std.specs.Prelude.{◌≡◌, ◌≤◌, true, length, IfOk, IfErr, IsErrOf, OnOk};
ghost use Rattle.co_durable.specs.declared.fault.WorldFault.TheVariants as world;
ghost use Rattle.co_outside.specs.Home.{HomeView};
ghost use Rattle.co_plain.specs.Federation.{Federation, with_member, with_coord};
ghost use Rattle.co_plain.specs.Member.{member_op};
ghost use Rattle.co_plain.specs.Step.{disarmed};
ghost use Rattle.co_cluster.specs.Calls.{member_does, coord_does, MemberMay, CoordMay};
ghost use Rattle.co_cluster.specs.Conditions.{IsReady, IsUnsettled};
ghost use Rattle.co_cluster.specs.Left.{AreLeftWith, member_disarmed, coord_disarmed};
ghost use Rattle.co_cluster.specs.Pins.{PinsStay};
ghost use Rattle.co_cluster.specs.Served.{AreServed, HasEndedAs};
ghost use Rattle.co_cluster.specs.Standing.{RepresentsCluster, AreHeld};
ghost use Rattle.co_cluster.specs.Telling.{IsTold, IsToldBy};
ghost use Rattle.co_opening.specs.Rest.{OnlyOwnFilesChange};

use crate::calls::{CoordCall, MemberCall};
use crate::coords::coord_does;
use crate::faults::of_node;
use crate::members::member_does;
use co_base::{Op, Txn};
use co_coord::{Coord, CoordStep};
use co_durable::WorldFault;
use co_engine::Engine;
use co_member::{Member, MemberStep};
use co_message::Answer;
use co_outside::Home;
use std::alloc::Global;

/// The members and coordinators of a federation, each on its log.
#[derive(Drop)]
pub struct Cluster<E> {
    pub(crate) alloc: Global,
    /// The members, from member 1 on.
    pub(crate) members: Vec<Member<E>>,
    /// The coordinators, from coordinator 1 on.
    pub(crate) coords: Vec<Coord>,
}

impl<E: Engine + Drop> Cluster<E> {
    /// These members, from member 1 on, and coordinators, from coordinator 1 on.
    pub fn new(alloc: Global, members: Vec<Member<E>>, coords: Vec<Coord>) -> Cluster<E>
        ensures members { result.members.items ≡ members.items }
        ensures coords { result.coords.items ≡ coords.items }
    {
        Cluster {
            alloc,
            members,
            coords,
        }
    }

    /// Whether the member of this number is up.
    pub fn member_up(&self, member: u8) -> bool
        requires { (1 ≤ member) × (member ≤ length self.now.members.items) }
        ensures { (s : Federation) → RepresentsCluster E.takes E.stands_for self.now s → result ≡ (s.member member).up }
    {
        self.members[usize::from(member) - 1].up()
    }

    /// Whether the coordinator of this number is up.
    pub fn coord_up(&self, coord: u8) -> bool
        requires { (1 ≤ coord) × (coord ≤ length self.now.coords.items) }
        ensures { (s : Federation) → RepresentsCluster E.takes E.stands_for self.now s → result ≡ (s.coord coord).up }
    {
        self.coords[usize::from(coord) - 1].up()
    }

    /// What is asked of the member of this number is done. A stopped write leaves it down. A fault leaves the stable records of before, or those of
    /// the completed write.
    pub fn member_does<H: Home>(
        &mut self,
        home: &mut H,
        member: u8,
        call: MemberCall,
    ) -> Result<MemberStep, WorldFault>
        requires in_head { (1 ≤ member) × (member ≤ length self.old.members.items) }
        requires held { AreHeld (H.seen home.old) self.old }
        requires stands { (s : Federation) × RepresentsCluster E.takes E.stands_for self.old s × MemberMay s.coordinators call (s.member member) }
        ensures count { IsErrOf result WorldFault.Count → ⊥ }
        ensures told { (s : Federation) → RepresentsCluster E.takes E.stands_for self.old s →
            IfOk result (λ d. IsTold (member_does member call (s.member member)) d) }
        ensures stands { (s : Federation) → RepresentsCluster E.takes E.stands_for self.old s →
            OnOk result (RepresentsCluster E.takes E.stands_for self.new (with_member s member (member_does member call (s.member member)).state)) }
        ensures left { (s : Federation) → RepresentsCluster E.takes E.stands_for self.old s →
            IfErr result (AreLeftWith (H.seen home.new).file s (with_member (disarmed s) member (member_does member call (member_disarmed (s.member member))).state)) }
        ensures served { OnOk result (AreServed self.new (H.seen home.old) (H.seen home.new)) }
        ensures ended { IfErr result (λ fault. HasEndedAs fault (H.seen home.old) (H.seen home.new)) }
        ensures rest { OnlyOwnFilesChange (length self.old.members.items) (length self.old.coords.items) (H.seen home.old) (H.seen home.new) }
        ensures pins { PinsStay E.pins self.old self.new }
    {
        match member_does(&mut self.members[usize::from(member) - 1], home, call) {
            Ok(did) => Ok(did),
            Err(fault) => Err(of_node(fault)),
        }
    }

    /// What is asked of the coordinator of this number is done. A stopped write leaves it down. A fault leaves the stable records of before, or those
    /// of the completed write.
    pub fn coord_does<H: Home>(
        &mut self,
        home: &mut H,
        coord: u8,
        call: CoordCall,
    ) -> Result<CoordStep, WorldFault>
        requires in_head { (1 ≤ coord) × (coord ≤ length self.old.coords.items) }
        requires held { AreHeld (H.seen home.old) self.old }
        requires stands { (s : Federation) × RepresentsCluster E.takes E.stands_for self.old s × CoordMay (length s.kinds) coord call (s.coord coord) }
        ensures count { IsErrOf result WorldFault.Count → ⊥ }
        ensures told { (s : Federation) → RepresentsCluster E.takes E.stands_for self.old s →
            IfOk result (λ d. IsToldBy (coord_does coord call (s.coord coord)) d) }
        ensures stands { (s : Federation) → RepresentsCluster E.takes E.stands_for self.old s →
            OnOk result (RepresentsCluster E.takes E.stands_for self.new (with_coord s coord (coord_does coord call (s.coord coord)).state)) }
        ensures left { (s : Federation) → RepresentsCluster E.takes E.stands_for self.old s →
            IfErr result (AreLeftWith (H.seen home.new).file s (with_coord (disarmed s) coord (coord_does coord call (coord_disarmed (s.coord coord))).state)) }
        ensures served { OnOk result (AreServed self.new (H.seen home.old) (H.seen home.new)) }
        ensures ended { IfErr result (λ fault. HasEndedAs fault (H.seen home.old) (H.seen home.new)) }
        ensures rest { OnlyOwnFilesChange (length self.old.members.items) (length self.old.coords.items) (H.seen home.old) (H.seen home.new) }
        ensures pins { PinsStay E.pins self.old self.new }
    {
        match coord_does(&mut self.coords[usize::from(coord) - 1], home, call) {
            Ok(did) => Ok(did),
            Err(fault) => Err(of_node(fault)),
        }
    }

    /// An operation of a transaction at the member of this number, which is up and where the transaction has neither voted nor been installed; its
    /// client carries how many of its operations were answered there. No log is written.
    pub fn op(&mut self, member: u8, t: Txn, carried: u16, op: &Op) -> Result<Answer, WorldFault>
        requires in_head { (1 ≤ member) × (member ≤ length self.old.members.items) }
        requires stands { (s : Federation) × RepresentsCluster E.takes E.stands_for self.old s × IsReady s × ((s.member member).up ≡ true) × IsUnsettled (s.member member) t }
        ensures memory { IfErr result (λ fault. fault ≡ world.Memory) }
        ensures answer { (s : Federation) → RepresentsCluster E.takes E.stands_for self.old s → IsReady s → IsUnsettled (s.member member) t →
            IfOk result (λ a. a ≡ (member_op (s.member member) t carried op.now).answer) }
        ensures stands { (s : Federation) → RepresentsCluster E.takes E.stands_for self.old s → IsReady s → IsUnsettled (s.member member) t →
            OnOk result (RepresentsCluster E.takes E.stands_for self.new (with_member s member (member_op (s.member member) t carried op.now).state)) }
        ensures held { (home : HomeView) → AreHeld home self.old → AreHeld home self.new }
        ensures pins { PinsStay E.pins self.old self.new }
    {
        match self.members[usize::from(member) - 1].op(t, carried, op) {
            Ok(answer) => Ok(answer),
            Err(fault) => Err(of_node(fault)),
        }
    }
}
