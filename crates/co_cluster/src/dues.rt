//! The first timer that ends a transaction.
ghost use Rattle.std.specs.Prelude.{◌≡◌, ◌<◌, ◌≤◌, ℕ, true, false, MatchOption};
ghost use Rattle.co_base.specs.declared.node.Node.{Node as PlainNode};
ghost use Rattle.co_base.specs.declared.node.Node.TheVariants as node;
ghost use Rattle.co_plain.specs.Federation.{Federation};
ghost use Rattle.co_plain.specs.Quiet.{IsNode, IsMember, IsCoordinator};
ghost use Rattle.co_plain.specs.Settling.{IsFirstTimer, timer_ends};
ghost use Rattle.co_cluster.specs.Readings.{StandsUp, IsFirstAt};
ghost use Rattle.co_cluster.specs.Standing.{RepresentsCluster};

use crate::cluster::Cluster;
use co_base::{Node, Txn};
use co_coord::Stage;
use co_engine::Engine;
use co_vote::Phase;

/// A timer that is due.
#[derive(Clone, Copy)]
pub struct Due {
    pub txn: Txn,
    /// The node at which it fires.
    pub node: Node,
}

impl<E: Engine + Drop> Cluster<E> {
    /// The first coordinator at which the transaction is idle.
    fn idle_at(&self, t: Txn) -> Option<u8>
        requires stands { StandsUp E.takes E.stands_for self.now }
        ensures { (s : Federation) → RepresentsCluster E.takes E.stands_for self.now s →
            MatchOption result ((c : ℕ) → IsCoordinator s c → timer_ends s t (node.Coord c) ≡ false) (λ c. IsCoordinator s c × (timer_ends s t (node.Coord c) ≡ true)) }
    {
        for coord in 1..self.coord_count() + 1 {
            if matches!(self.coord_at(coord).stage(t), Stage::Idle) {
                return Some(coord);
            }
        }
        None
    }

    /// The first member at which the transaction is active.
    fn active_at(&self, t: Txn) -> Option<u8>
        requires stands { StandsUp E.takes E.stands_for self.now }
        ensures { (s : Federation) → RepresentsCluster E.takes E.stands_for self.now s →
            MatchOption result ((m : ℕ) → IsMember s m → timer_ends s t (node.Member m) ≡ false)
            (λ m. IsMember s m × (timer_ends s t (node.Member m) ≡ true) × ((n : ℕ) → n < m → IsMember s n → timer_ends s t (node.Member n) ≡ false)) }
    {
        for member in 1..self.member_count() + 1 {
            if matches!(self.member_at(member).knows(t), Phase::Active) {
                return Some(member);
            }
        }
        None
    }

    /// The node at which a timer ends the transaction: its coordinator where it is idle there, else the least member where it is active.
    fn timed_at(&self, t: Txn) -> Option<Node>
        requires stands { StandsUp E.takes E.stands_for self.now }
        ensures { (s : Federation) → RepresentsCluster E.takes E.stands_for self.now s →
            MatchOption result ((at : PlainNode) → IsNode s at → timer_ends s t at ≡ false) (IsFirstAt s t) }
    {
        match self.idle_at(t) {
            Some(coord) => Some(Node::Coord(coord)),
            None => match self.active_at(t) {
                Some(member) => Some(Node::Member(member)),
                None => None,
            },
        }
    }

    /// The timer of the least transaction that a timer ends, where no node is down: at its coordinator where it is idle, else at the least
    /// member where it is active; none where no open transaction is idle or active. Takes no memory.
    pub fn first_timer(&self) -> Option<Due>
        requires stands { StandsUp E.takes E.stands_for self.now }
        ensures { (s : Federation) → RepresentsCluster E.takes E.stands_for self.now s →
            MatchOption result ((t : ℕ) (at : PlainNode) → IsNode s at → timer_ends s t at ≡ false) (λ due. IsFirstTimer s due.txn due.node) }
    {
        let mut next = self.open_after(None);
        while let Some(t) = next {
            if let Some(node) = self.timed_at(t) {
                return Some(Due { txn: t, node });
            }
            next = self.open_above(t);
        }
        None
    }
}
