//! The first exchange that can help.
ghost use Rattle.std.specs.Prelude.{◌≡◌, ◌≤◌, ◌<◌, ◌⊎◌, ℕ, Bool, true, false, length, MatchOption, IsTrue, ◌↔◌};
ghost use Rattle.co_plain.specs.Federation.{Federation};
ghost use Rattle.co_plain.specs.MemberStep.{standing_of};
ghost use Rattle.co_plain.specs.Quiet.{IsEnabled, IsCoordinator, IsQuiet, may_be_asked, lacks_yes, lacks_ack, vote_helps, ask_helps, is_free};
ghost use Rattle.co_plain.specs.Quiet as plain;
ghost use Rattle.co_plain.specs.Settling.{IsFirstExchange, exchange_txn};
ghost use Rattle.co_state.specs.Table.{look, holds};
ghost use Rattle.co_vote.specs.Ballots.{verdict_of};
ghost use Rattle.co_cluster.specs.Conditions.{IsReady};
ghost use Rattle.co_cluster.specs.Readings.{StandsUp, helps, exchange_as, exchange_of, IsFirstOf, names};
ghost use Rattle.co_cluster.specs.Standing.{RepresentsCluster};

use crate::cluster::Cluster;
use co_base::Txn;
use co_coord::Stage;
use co_engine::Engine;
use co_vote::{Ballot, Phase};

/// What an exchange begins with.
#[derive(Clone, Copy)]
pub enum ExchangeKind {
    /// The coordinator asks for a vote.
    Prepare,
    /// The member votes again.
    Vote,
    /// The coordinator tells the commit again.
    Commit,
    /// The member asks for the decision.
    Ask,
}

/// An exchange that can help.
#[derive(Clone, Copy)]
pub struct Exchange {
    pub kind: ExchangeKind,
    pub txn: Txn,
    /// The number of the member.
    pub member: u8,
    /// The number of the coordinator; 0 of a vote, which goes to whoever asked for it.
    pub coord: u8,
}

/// Whether nothing is in the way of a vote.
fn is_free(ballot: &Ballot<'_>) -> bool
    ensures { result ≡ is_free (verdict_of ballot.now) }
{
    !matches!(ballot, Ballot::Held(_))
}

/// Whether it is this number.
fn names(found: Option<u8>, number: u8) -> bool
    ensures { result ≡ names found number }
{
    match found {
        Some(one) => one == number,
        None => false,
    }
}

impl<E: Engine + Drop> Cluster<E> {
    /// Whether the coordinator collects votes, and the yes of the member is not recorded.
    fn lacks_yes(&self, t: Txn, member: u8, coord: u8) -> bool
        requires member { 1 ≤ member }
        requires coord { (1 ≤ coord) × (coord ≤ length self.now.coords.items) }
        requires stands { StandsUp E.takes E.stands_for self.now }
        ensures { (s : Federation) → RepresentsCluster E.takes E.stands_for self.now s → IsReady s → result ≡ lacks_yes (look (s.coord coord).table t) member }
    {
        let node = self.coord_at(coord);
        matches!(node.stage(t), Stage::Collecting) && names(node.lacks(t, member - 1), member)
    }

    /// Whether the coordinator has committed, and the member has not acknowledged.
    fn lacks_ack(&self, t: Txn, member: u8, coord: u8) -> bool
        requires member { 1 ≤ member }
        requires coord { (1 ≤ coord) × (coord ≤ length self.now.coords.items) }
        requires stands { StandsUp E.takes E.stands_for self.now }
        ensures { (s : Federation) → RepresentsCluster E.takes E.stands_for self.now s → IsReady s → result ≡ lacks_ack (look (s.coord coord).table t) member }
    {
        let node = self.coord_at(coord);
        matches!(node.stage(t), Stage::Committed) && names(node.lacks(t, member - 1), member)
    }

    /// Whether a prepare can still help at the member.
    fn may_be_asked(&self, t: Txn, member: u8) -> bool
        requires member { (1 ≤ member) × (member ≤ length self.now.members.items) }
        requires stands { StandsUp E.takes E.stands_for self.now }
        ensures { (s : Federation) → RepresentsCluster E.takes E.stands_for self.now s → result ≡ may_be_asked (standing_of (s.member member) t) (holds (s.member member).asked t) }
    {
        let node = self.member_at(member);
        match node.knows(t) {
            Phase::Active => !node.is_asked(t),
            Phase::Voted | Phase::Absent => true,
            Phase::Installed => false,
        }
    }

    /// Whether the member was asked for the vote, and nothing is in its way.
    fn vote_helps(&self, t: Txn, member: u8) -> bool
        requires member { (1 ≤ member) × (member ≤ length self.now.members.items) }
        requires stands { StandsUp E.takes E.stands_for self.now }
        ensures { (s : Federation) → RepresentsCluster E.takes E.stands_for self.now s → result ≡ vote_helps s t member }
    {
        let node = self.member_at(member);
        match node.knows(t) {
            Phase::Active => match node.ballot_of(t) {
                Some(ballot) => is_free(&ballot),
                None => false,
            },
            Phase::Voted | Phase::Installed | Phase::Absent => false,
        }
    }

    /// Whether the transaction is voted at the member, and the coordinator that asked for the vote lacks it.
    fn ask_helps(&self, t: Txn, member: u8, coord: u8) -> bool
        requires member { (1 ≤ member) × (member ≤ length self.now.members.items) }
        requires coord { (1 ≤ coord) × (coord ≤ length self.now.coords.items) }
        requires stands { StandsUp E.takes E.stands_for self.now }
        ensures { (s : Federation) → RepresentsCluster E.takes E.stands_for self.now s → result ≡ ask_helps s t member coord }
    {
        names(self.member_at(member).coord_of(t), coord) && !self.coord_at(coord).holds(t)
    }

    /// Whether an exchange can help.
    fn helps(&self, kind: ExchangeKind, t: Txn, member: u8, coord: u8) -> bool
        requires member { (1 ≤ member) × (member ≤ length self.now.members.items) }
        requires coord { (1 ≤ coord) × (coord ≤ length self.now.coords.items) }
        requires stands { StandsUp E.takes E.stands_for self.now }
        ensures { (s : Federation) → RepresentsCluster E.takes E.stands_for self.now s → IsReady s → result ≡ helps s kind t member coord }
    {
        match kind {
            ExchangeKind::Prepare => {
                self.lacks_yes(t, member, coord) && self.may_be_asked(t, member)
            }
            ExchangeKind::Vote => self.vote_helps(t, member),
            ExchangeKind::Commit => self.lacks_ack(t, member, coord),
            ExchangeKind::Ask => self.ask_helps(t, member, coord),
        }
    }

    /// The first coordinator with which an exchange can help.
    fn coord_for(&self, kind: ExchangeKind, t: Txn, member: u8) -> Option<u8>
        requires member { (1 ≤ member) × (member ≤ length self.now.members.items) }
        requires stands { StandsUp E.takes E.stands_for self.now }
        ensures { (s : Federation) → RepresentsCluster E.takes E.stands_for self.now s → IsReady s →
            MatchOption result ((c : ℕ) → IsCoordinator s c → helps s kind t member c ≡ false) (λ c. IsCoordinator s c × (helps s kind t member c ≡ true)) }
    {
        for coord in 1..self.coord_count() + 1 {
            if self.helps(kind, t, member, coord) {
                return Some(coord);
            }
        }
        None
    }

    /// The coordinator of an exchange that can help at the member; 0 of a vote.
    fn helper(&self, kind: ExchangeKind, t: Txn, member: u8) -> Option<u8>
        requires member { (1 ≤ member) × (member ≤ length self.now.members.items) }
        requires stands { StandsUp E.takes E.stands_for self.now }
        ensures { (s : Federation) → RepresentsCluster E.takes E.stands_for self.now s → IsReady s →
            MatchOption result ((c : ℕ) → IsEnabled s (exchange_as kind t member c) → ⊥) (λ c. IsEnabled s (exchange_as kind t member c)) }
    {
        match kind {
            ExchangeKind::Vote => {
                if self.vote_helps(t, member) {
                    Some(0)
                } else {
                    None
                }
            }
            ExchangeKind::Prepare => self.coord_for(ExchangeKind::Prepare, t, member),
            ExchangeKind::Commit => self.coord_for(ExchangeKind::Commit, t, member),
            ExchangeKind::Ask => self.coord_for(ExchangeKind::Ask, t, member),
        }
    }

    /// The exchange of this kind that can help the transaction, at the least member.
    fn exchange_of(&self, kind: ExchangeKind, t: Txn) -> Option<Exchange>
        requires stands { StandsUp E.takes E.stands_for self.now }
        ensures { (s : Federation) → RepresentsCluster E.takes E.stands_for self.now s → IsReady s →
            MatchOption result ((m c : ℕ) → IsEnabled s (exchange_as kind t m c) → ⊥)
            (λ e. (e.kind ≡ kind) × (e.txn ≡ t) × IsEnabled s (exchange_as kind t e.member e.coord) × ((m c : ℕ) → m < e.member → IsEnabled s (exchange_as kind t m c) → ⊥)) }
    {
        for member in 1..self.member_count() + 1 {
            if let Some(coord) = self.helper(kind, t, member) {
                return Some(Exchange {
                    kind,
                    txn: t,
                    member,
                    coord,
                });
            }
        }
        None
    }

    /// The first exchange that can help one transaction, where no node is down: by its kind, and then by its member; none where none can help
    /// it. Takes no memory.
    pub fn exchange_with(&self, t: Txn) -> Option<Exchange>
        requires stands { StandsUp E.takes E.stands_for self.now }
        ensures { (s : Federation) → RepresentsCluster E.takes E.stands_for self.now s → IsReady s →
            MatchOption result ((e : plain.Exchange) → exchange_txn e ≡ t → IsEnabled s e → ⊥)
            (λ e. (e.txn ≡ t) × IsFirstOf s t (exchange_of e)) }
    {
        let prepare = self.exchange_of(ExchangeKind::Prepare, t);
        if prepare.is_some() {
            return prepare;
        }
        let vote = self.exchange_of(ExchangeKind::Vote, t);
        if vote.is_some() {
            return vote;
        }
        let commit = self.exchange_of(ExchangeKind::Commit, t);
        if commit.is_some() {
            return commit;
        }
        self.exchange_of(ExchangeKind::Ask, t)
    }

    /// The first exchange that can help, where no node is down: by its transaction, then by its kind, and then by its member; none where none
    /// can help. Takes no memory.
    pub fn first_exchange(&self) -> Option<Exchange>
        requires stands { StandsUp E.takes E.stands_for self.now }
        ensures { (s : Federation) → RepresentsCluster E.takes E.stands_for self.now s → IsReady s →
            MatchOption result ((e : plain.Exchange) → IsEnabled s e → ⊥) (λ e. IsFirstExchange s (exchange_of e)) }
    {
        let mut next = self.open_after(None);
        while let Some(t) = next {
            let found = self.exchange_with(t);
            if found.is_some() {
                return found;
            }
            next = self.open_above(t);
        }
        None
    }

    /// Whether nothing but a timer can help: every node is up, and no exchange can help. Takes no memory.
    pub fn quiet(&self) -> bool
        requires stands { (s : Federation) × RepresentsCluster E.takes E.stands_for self.now s × IsReady s }
        ensures { (s : Federation) → RepresentsCluster E.takes E.stands_for self.now s → IsReady s → IsTrue result ↔ IsQuiet s }
    {
        match self.first_down() {
            Some(_) => false,
            None => self.first_exchange().is_none(),
        }
    }
}
