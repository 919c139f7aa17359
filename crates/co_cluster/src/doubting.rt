//! Which members are in doubt.
ghost use Rattle.std.specs.Prelude.{◌≡◌, ◌≤◌, ◌++◌, length, flat_map, AllPairs, Contains, IfOk, OnOk, ◌↔◌};
ghost use Rattle.co_plain.specs.Federation.{Federation};
ghost use Rattle.co_cluster.specs.Listed.{found_to, doubt_at, IsDoubt, IsDoubtBefore};
ghost use Rattle.co_cluster.specs.Standing.{RepresentsCluster};

use crate::cluster::Cluster;
use co_base::{Sequence, Txn};
use co_engine::Engine;
use std::alloc::AllocError;

/// A member that voted, and does not know the decision.
#[derive(Clone, Copy)]
pub struct Doubt {
    pub txn: Txn,
    /// The number of the member.
    pub member: u8,
    /// The number of the coordinator that asked for the vote.
    pub coord: u8,
}

/// Members in doubt: ascending by transaction, then by member.
pub type Doubts = Sequence<Doubt>;

impl<E: Engine + Drop> Cluster<E> {
    /// The doubt of a member about a transaction.
    fn doubt_at(&self, t: Txn, member: u8) -> Option<Doubt>
        requires member { (1 ≤ member) × (member ≤ length self.now.members.items) }
        ensures { (s : Federation) → RepresentsCluster E.takes E.stands_for self.now s → result ≡ doubt_at s t member }
    {
        let node = self.member_at(member);
        if !node.up() {
            return None;
        }
        let coord = node.coord_of(t)?;
        Some(Doubt {
            txn: t,
            member,
            coord,
        })
    }

    /// Adds the doubts about a transaction, by their members.
    fn add_doubts(&self, t: Txn, doubts: &mut Doubts) -> Result<(), AllocError>
        requires stands { (s : Federation) × RepresentsCluster E.takes E.stands_for self.now s }
        ensures { (s : Federation) → RepresentsCluster E.takes E.stands_for self.now s → OnOk result (doubts.new ≡ doubts.old ++ found_to (length s.kinds) (doubt_at s t)) }
    {
        for place in 0..self.member_count() {
            if let Some(doubt) = self.doubt_at(t, place + 1) {
                doubts.push(doubt)?;
            }
        }
        Ok(())
    }

    /// The doubts about these transactions, in their order.
    fn doubts_of(&self, txns: &[Txn]) -> Result<Doubts, AllocError>
        requires stands { (s : Federation) × RepresentsCluster E.takes E.stands_for self.now s }
        ensures { (s : Federation) → RepresentsCluster E.takes E.stands_for self.now s → IfOk result (λ doubts. doubts ≡ flat_map (λ t. found_to (length s.kinds) (doubt_at s t)) txns.now) }
    {
        let mut doubts = Doubts::new(self.alloc);
        for t in txns {
            self.add_doubts(*t, &mut doubts)?;
        }
        Ok(doubts)
    }

    /// The members that are up and in doubt, one for each transaction that is voted there: ascending by transaction, then by member.
    pub fn doubts(&self) -> Result<Doubts, AllocError>
        requires stands { (s : Federation) × RepresentsCluster E.takes E.stands_for self.now s }
        ensures ascending { IfOk result (AllPairs IsDoubtBefore) }
        ensures doubts { (s : Federation) → RepresentsCluster E.takes E.stands_for self.now s → IfOk result (λ doubts. (d : Doubt) → Contains doubts d ↔ IsDoubt s d) }
    {
        let txns = self.undecided()?;
        self.doubts_of(txns.as_slice())
    }
}
