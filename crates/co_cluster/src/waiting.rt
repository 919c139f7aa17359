//! Who waits for whom.
ghost use Rattle.std.specs.Prelude.{◌≡◌, ◌≤◌, ◌++◌, length, flat_map, AllPairs, Contains, IfOk, OnOk, ◌↔◌};
ghost use Rattle.co_plain.specs.Federation.{Federation};
ghost use Rattle.co_vote.specs.Ballots.{verdict_of};
ghost use Rattle.co_wait.specs.Chains.{IsWaitBefore};
ghost use Rattle.co_cluster.specs.Listed.{found_to, holder, held_at, wait_at, IsWait};
ghost use Rattle.co_cluster.specs.Standing.{RepresentsCluster};

use crate::cluster::Cluster;
use co_base::Txn;
use co_engine::Engine;
use co_vote::{Ballot, Phase};
use co_wait::{Wait, Waits};
use std::alloc::AllocError;

/// The transaction in the way of a vote.
fn holder(ballot: &Ballot<'_>) -> Option<Txn>
    ensures { result ≡ holder (verdict_of ballot.now) }
{
    match ballot {
        Ballot::Held(by) => Some(*by),
        Ballot::NoLost | Ballot::NoStale(_) | Ballot::Yes => None,
    }
}

impl<E: Engine + Drop> Cluster<E> {
    /// The transaction in the way of a vote that a member was asked for.
    fn held_at(&self, t: Txn, member: u8) -> Option<Txn>
        requires member { (1 ≤ member) × (member ≤ length self.now.members.items) }
        ensures { (s : Federation) → RepresentsCluster E.takes E.stands_for self.now s → result ≡ held_at s t member }
    {
        let node = self.member_at(member);
        if !node.up() {
            return None;
        }
        match node.knows(t) {
            Phase::Active => match node.ballot_of(t) {
                Some(ballot) => holder(&ballot),
                None => None,
            },
            Phase::Voted | Phase::Installed | Phase::Absent => None,
        }
    }

    /// The held vote of a transaction at a member.
    fn wait_at(&self, t: Txn, member: u8) -> Option<Wait>
        requires member { (1 ≤ member) × (member ≤ length self.now.members.items) }
        ensures { (s : Federation) → RepresentsCluster E.takes E.stands_for self.now s → result ≡ wait_at s t member }
    {
        let by = self.held_at(t, member)?;
        Some(Wait {
            member,
            held: t,
            by,
        })
    }

    /// Adds the held votes of a transaction, by their members.
    fn add_waits(&self, t: Txn, waits: &mut Waits) -> Result<(), AllocError>
        requires stands { (s : Federation) × RepresentsCluster E.takes E.stands_for self.now s }
        ensures { (s : Federation) → RepresentsCluster E.takes E.stands_for self.now s → OnOk result (waits.new ≡ waits.old ++ found_to (length s.kinds) (wait_at s t)) }
    {
        for place in 0..self.member_count() {
            if let Some(wait) = self.wait_at(t, place + 1) {
                waits.push(wait)?;
            }
        }
        Ok(())
    }

    /// The held votes of these transactions, in their order.
    fn waits_of(&self, txns: &[Txn]) -> Result<Waits, AllocError>
        requires stands { (s : Federation) × RepresentsCluster E.takes E.stands_for self.now s }
        ensures { (s : Federation) → RepresentsCluster E.takes E.stands_for self.now s → IfOk result (λ waits. waits ≡ flat_map (λ t. found_to (length s.kinds) (wait_at s t)) txns.now) }
    {
        let mut waits = Waits::new(self.alloc);
        for t in txns {
            self.add_waits(*t, &mut waits)?;
        }
        Ok(waits)
    }

    /// The held votes of the members that are up: one for each active transaction whose vote was asked for and which the voting rule now holds,
    /// with the least transaction in its way; ascending by the held transaction, then by member.
    pub fn waits(&self) -> Result<Waits, AllocError>
        requires stands { (s : Federation) × RepresentsCluster E.takes E.stands_for self.now s }
        ensures ascending { IfOk result (AllPairs IsWaitBefore) }
        ensures waits { (s : Federation) → RepresentsCluster E.takes E.stands_for self.now s → IfOk result (λ waits. (w : Wait) → Contains waits w ↔ IsWait s w) }
    {
        let txns = self.undecided()?;
        self.waits_of(txns.as_slice())
    }
}
