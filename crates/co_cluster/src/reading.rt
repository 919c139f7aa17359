//! What the nodes of a federation tell.
ghost use Rattle.std.specs.Prelude.{◌≡◌, ◌≤◌, ◌-◌, true, length, IfOk, MatchOption};
ghost use Rattle.co_base.specs.Limits.{most_coordinators, most_members};
ghost use Rattle.co_opening.specs.Nodes.{IsMemberAt, IsCoordAt};
ghost use Rattle.co_member.specs.Reading.{phase_of};
ghost use Rattle.co_plain.specs.Federation.{Federation};
ghost use Rattle.co_plain.specs.MemberStep.{standing_of};
ghost use Rattle.co_plain.specs.Quiet.{node_up};
ghost use Rattle.co_plain.specs.Settling.{IsFirstDown};
ghost use Rattle.co_schedule.specs.View.{IsNode};
ghost use Rattle.co_cluster.specs.Readings.{AllUp};
ghost use Rattle.co_cluster.specs.Standing.{RepresentsCluster};
ghost use Rattle.co_state.specs.Effects.{dumped_rows, dumped_undos};

use crate::cluster::Cluster;
use co_base::{Kind, Node, Txn};
use co_coord::Coord;
use co_engine::{Dump, Engine};
use co_member::Member;
use co_vote::Phase;
use std::alloc::AllocError;

impl<E: Engine + Drop> Cluster<E> {
    /// How many members there are.
    pub(crate) fn member_count(&self) -> u8
        requires stands { (s : Federation) × RepresentsCluster E.takes E.stands_for self.now s }
        ensures count { result ≡ length self.now.members.items }
        ensures few { result ≤ most_members }
    {
        self.members.len() as u8
    }

    /// How many coordinators there are.
    pub(crate) fn coord_count(&self) -> u8
        requires stands { (s : Federation) × RepresentsCluster E.takes E.stands_for self.now s }
        ensures count { result ≡ length self.now.coords.items }
        ensures few { result ≤ most_coordinators }
    {
        self.coords.len() as u8
    }

    /// The member of this number.
    pub fn member_at(&self, member: u8) -> &Member<E>
        requires { (1 ≤ member) × (member ≤ length self.now.members.items) }
        ensures { (s : Federation) → RepresentsCluster E.takes E.stands_for self.now s → IsMemberAt E.takes E.stands_for s.coordinators (member - 1) result.now (s.member member) }
    {
        &self.members[usize::from(member) - 1]
    }

    /// The coordinator of this number.
    pub fn coord_at(&self, coord: u8) -> &Coord
        requires { (1 ≤ coord) × (coord ≤ length self.now.coords.items) }
        ensures { (s : Federation) → RepresentsCluster E.takes E.stands_for self.now s → IsCoordAt (length s.kinds) (coord - 1) result.now (s.coord coord) }
    {
        &self.coords[usize::from(coord) - 1]
    }

    /// Whether a node of the head is up. Takes no memory.
    pub fn up(&self, node: Node) -> bool
        requires in_head { IsNode (length self.now.members.items) (length self.now.coords.items) node }
        ensures { (s : Federation) → RepresentsCluster E.takes E.stands_for self.now s → result ≡ node_up s node }
    {
        match node {
            Node::Member(member) => self.member_up(member),
            Node::Coord(coord) => self.coord_up(coord),
        }
    }

    /// The kind of a member's engine. Takes no memory.
    pub fn kind_of(&self, member: u8) -> Kind
        requires in_head { (1 ≤ member) × (member ≤ length self.now.members.items) }
        ensures { (s : Federation) → RepresentsCluster E.takes E.stands_for self.now s → result ≡ (s.member member).engine.kind }
    {
        self.member_at(member).kind()
    }

    /// The first node that is down: members before coordinators, each by its number; none where all are up. Takes no memory.
    pub fn first_down(&self) -> Option<Node>
        requires stands { (s : Federation) × RepresentsCluster E.takes E.stands_for self.now s }
        ensures { (s : Federation) → RepresentsCluster E.takes E.stands_for self.now s → MatchOption result (AllUp s) (IsFirstDown s) }
    {
        for member in 1..self.member_count() + 1 {
            if !self.member_up(member) {
                return Some(Node::Member(member));
            }
        }
        for coord in 1..self.coord_count() + 1 {
            if !self.coord_up(coord) {
                return Some(Node::Coord(coord));
            }
        }
        None
    }

    /// Where a transaction stands at a member that is up. Takes no memory.
    pub fn knows(&self, member: u8, t: Txn) -> Phase
        requires in_head { (1 ≤ member) × (member ≤ length self.now.members.items) }
        requires up { (s : Federation) × RepresentsCluster E.takes E.stands_for self.now s × ((s.member member).up ≡ true) }
        ensures { (s : Federation) → RepresentsCluster E.takes E.stands_for self.now s → result ≡ phase_of (standing_of (s.member member) t) }
    {
        self.member_at(member).knows(t)
    }

    /// The records that are installed at a member that is up: those that its engine keeps, and the changes that lead back from what undecided
    /// transactions wrote in place.
    pub fn dump(&self, member: u8) -> Result<Dump, AllocError>
        requires in_head { (1 ≤ member) × (member ≤ length self.now.members.items) }
        requires up { (s : Federation) × RepresentsCluster E.takes E.stands_for self.now s × ((s.member member).up ≡ true) }
        ensures rows { (s : Federation) → RepresentsCluster E.takes E.stands_for self.now s → IfOk result (λ dump. dump.rows ≡ dumped_rows (s.member member).engine.kind (s.member member).engine) }
        ensures undos { (s : Federation) → RepresentsCluster E.takes E.stands_for self.now s → IfOk result (λ dump. dump.undos ≡ dumped_undos (s.member member).engine.kind (s.member member).engine) }
    {
        self.member_at(member).dump()
    }
}
