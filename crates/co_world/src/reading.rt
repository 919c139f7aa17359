//! What a federation tells of its nodes and of its clients.
ghost use Rattle.std.specs.Prelude.{◌≡◌, ◌≤◌, ℕ, true, false, length, map, reverse, IfOk, MatchOption, IsTrue, ◌↔◌};
ghost use Rattle.co_base.specs.declared.node.Node.{Node as PlainNode};
ghost use Rattle.co_member.specs.Reading.{phase_of};
ghost use Rattle.co_plain.specs.Federation.{Federation};
ghost use Rattle.co_plain.specs.MemberStep.{standing_of};
ghost use Rattle.co_plain.specs.Quiet.{node_up, IsBusy, IsEnabled, IsNode, IsQuiet};
ghost use Rattle.co_plain.specs.Quiet as plain;
ghost use Rattle.co_plain.specs.Settling.{IsFirstDown, IsFirstExchange, IsFirstTimer, exchange_txn, timer_ends};
ghost use Rattle.co_schedule.specs.View.{IsNode as IsNodeOf};
ghost use Rattle.co_session.specs.Clients.{carried_of, decider_of, told_of};
ghost use Rattle.std.specs.FinMap.{keys};
ghost use Rattle.co_state.specs.Table.{look};
ghost use Rattle.co_cluster.specs.Conditions.{IsReady};
ghost use Rattle.co_cluster.specs.Readings.{AllUp, exchange_of, IsFirstOf};
ghost use Rattle.co_state.specs.Effects.{dumped_rows, dumped_undos};
ghost use Rattle.co_world.specs.Standing.{RepresentsWorld, StandsUp};

use crate::world::World;
use co_base::{Kind, Node, Txn};
use co_cluster::{Due, Exchange};
use co_engine::{Dump, Engine};
use co_serial::Site;
use co_vote::Phase;
use std::alloc::AllocError;

impl<E: Engine + Drop> World<E> {
    /// Whether a node of the head is up. Takes no memory.
    pub fn up(&self, node: Node) -> bool
        requires in_head { IsNodeOf (length self.now.cluster.members.items) (length self.now.cluster.coords.items) node }
        ensures { (s : Federation) → RepresentsWorld E.takes E.stands_for self.now s → result ≡ node_up s node }
    {
        self.cluster.up(node)
    }

    /// The kind of a member's engine. Takes no memory.
    pub fn kind_of(&self, member: u8) -> Kind
        requires in_head { (1 ≤ member) × (member ≤ length self.now.cluster.members.items) }
        ensures { (s : Federation) → RepresentsWorld E.takes E.stands_for self.now s → result ≡ (s.member member).engine.kind }
    {
        self.cluster.kind_of(member)
    }

    /// The first node that is down: members before coordinators, each by its number; none where all are up. Takes no memory.
    pub fn first_down(&self) -> Option<Node>
        requires stands { (s : Federation) × RepresentsWorld E.takes E.stands_for self.now s }
        ensures { (s : Federation) → RepresentsWorld E.takes E.stands_for self.now s → MatchOption result (AllUp s) (IsFirstDown s) }
    {
        self.cluster.first_down()
    }

    /// Where a transaction stands at a member that is up. Takes no memory.
    pub fn knows(&self, member: u8, t: Txn) -> Phase
        requires in_head { (1 ≤ member) × (member ≤ length self.now.cluster.members.items) }
        requires up { (s : Federation) × RepresentsWorld E.takes E.stands_for self.now s × ((s.member member).up ≡ true) }
        ensures { (s : Federation) → RepresentsWorld E.takes E.stands_for self.now s → result ≡ phase_of (standing_of (s.member member) t) }
    {
        self.cluster.knows(member, t)
    }

    /// The records that are installed at a member that is up: those that its engine keeps, and the changes that lead back from what undecided
    /// transactions wrote in place.
    pub fn dump(&self, member: u8) -> Result<Dump, AllocError>
        requires in_head { (1 ≤ member) × (member ≤ length self.now.cluster.members.items) }
        requires up { (s : Federation) × RepresentsWorld E.takes E.stands_for self.now s × ((s.member member).up ≡ true) }
        ensures rows { (s : Federation) → RepresentsWorld E.takes E.stands_for self.now s → IfOk result (λ dump. dump.rows ≡ dumped_rows (s.member member).engine.kind (s.member member).engine) }
        ensures undos { (s : Federation) → RepresentsWorld E.takes E.stands_for self.now s → IfOk result (λ dump. dump.undos ≡ dumped_undos (s.member member).engine.kind (s.member member).engine) }
    {
        self.cluster.dump(member)
    }

    /// Whether a transaction is busy, where no node is down: collecting or committed at a coordinator, voted at a member, or asked for its vote
    /// there. An exchange can help no other one. Takes no memory.
    pub fn is_busy(&self, t: Txn) -> bool
        requires stands { StandsUp E.takes E.stands_for self.now }
        ensures { (s : Federation) → RepresentsWorld E.takes E.stands_for self.now s → IsTrue result ↔ IsBusy s t }
    {
        self.cluster.is_busy(t)
    }

    /// The timer of the least transaction that a timer ends, where no node is down: at its coordinator where it is idle, else at the least
    /// member where it is active; none where no open transaction is idle or active. Takes no memory.
    pub fn first_timer(&self) -> Option<Due>
        requires stands { StandsUp E.takes E.stands_for self.now }
        ensures { (s : Federation) → RepresentsWorld E.takes E.stands_for self.now s →
            MatchOption result ((t : ℕ) (at : PlainNode) → IsNode s at → timer_ends s t at ≡ false) (λ due. IsFirstTimer s due.txn due.node) }
    {
        self.cluster.first_timer()
    }

    /// The first exchange that can help one transaction, where no node is down: by its kind, and then by its member; none where none can help
    /// it. Takes no memory.
    pub fn exchange_with(&self, t: Txn) -> Option<Exchange>
        requires stands { StandsUp E.takes E.stands_for self.now }
        ensures { (s : Federation) → RepresentsWorld E.takes E.stands_for self.now s → IsReady s →
            MatchOption result ((e : plain.Exchange) → exchange_txn e ≡ t → IsEnabled s e → ⊥)
            (λ e. (e.txn ≡ t) × IsFirstOf s t (exchange_of e)) }
    {
        self.cluster.exchange_with(t)
    }

    /// The first exchange that can help, where no node is down: by its transaction, then by its kind, and then by its member; none where none
    /// can help. Takes no memory.
    pub fn first_exchange(&self) -> Option<Exchange>
        requires stands { StandsUp E.takes E.stands_for self.now }
        ensures { (s : Federation) → RepresentsWorld E.takes E.stands_for self.now s → IsReady s →
            MatchOption result ((e : plain.Exchange) → IsEnabled s e → ⊥) (λ e. IsFirstExchange s (exchange_of e)) }
    {
        self.cluster.first_exchange()
    }

    /// Whether nothing but a timer can help: every node is up, and no exchange can help. Takes no memory.
    pub fn quiet(&self) -> bool
        requires stands { (s : Federation) × RepresentsWorld E.takes E.stands_for self.now s × IsReady s }
        ensures { (s : Federation) → RepresentsWorld E.takes E.stands_for self.now s → IsReady s → IsTrue result ↔ IsQuiet s }
    {
        self.cluster.quiet()
    }

    /// How many operations of a transaction were answered at a member in this run; none where it was not begun in it. Takes no memory.
    pub fn carried(&self, t: Txn, member: u8) -> u16
        ensures { (s : Federation) → RepresentsWorld E.takes E.stands_for self.now s → result ≡ carried_of (look s.sessions t) member }
    {
        self.sessions.carried(t, member)
    }

    /// The operations of a transaction that were answered in this run, the first one first; none where it was not begun in it. Takes no memory.
    pub fn operations(&self, t: Txn) -> &[Site]
        ensures { (s : Federation) → RepresentsWorld E.takes E.stands_for self.now s → result.now ≡ map (λ o. o.site) (reverse (told_of (look s.sessions t))) }
    {
        self.sessions.operations(t)
    }

    /// How many transactions were begun in this run. Takes no memory.
    pub fn begun(&self) -> usize
        ensures { (s : Federation) → RepresentsWorld E.takes E.stands_for self.now s → result ≡ length (keys s.sessions) }
    {
        self.sessions.count()
    }

    /// The node that decides a transaction; none where it was not begun in this run. Takes no memory.
    pub fn decider(&self, t: Txn) -> Option<Node>
        ensures { (s : Federation) → RepresentsWorld E.takes E.stands_for self.now s → result ≡ decider_of (look s.sessions t) }
    {
        self.sessions.decider(t)
    }
}
