//! What a federation lists: what is open, who is in doubt, who waits for whom, and what the logs alone give.
ghost use Rattle.std.specs.Prelude.{◌≡◌, ℕ, true, false, length, AllPairs, Contains, IfOk, ◌↔◌};
ghost use Rattle.co_base.specs.Order.{IsAscending};
ghost use Rattle.co_serial.specs.MemberRows.{numbered_rows};
ghost use Rattle.co_plain.specs.DurableRecords.{durable_in};
ghost use Rattle.co_plain.specs.Federation.{Federation};
ghost use Rattle.co_plain.specs.Quiet.{IsOpen};
ghost use Rattle.co_cluster.specs.Conditions.{IsReady};
ghost use Rattle.co_cluster.specs.Listed.{IsDoubt, IsDoubtBefore, IsWait};
ghost use Rattle.co_wait.specs.Chains.{IsWaitBefore};
ghost use Rattle.co_world.specs.Standing.{RepresentsWorld};

use crate::world::World;
use co_base::Txns;
use co_cluster::{Doubt, Doubts};
use co_engine::Engine;
use co_serial::MemberRows;
use co_wait::{Wait, Waits};
use std::alloc::AllocError;

impl<E: Engine + Drop> World<E> {
    /// Whether a transaction is open. Of a node that is down its log tells; where all are up no log is read, and no memory is taken.
    pub fn anything_open(&self) -> Result<bool, AllocError>
        requires stands { (s : Federation) × RepresentsWorld E.takes E.stands_for self.now s × IsReady s }
        ensures something { (s : Federation) → RepresentsWorld E.takes E.stands_for self.now s → IfOk result (λ some. some ≡ true → (t : ℕ) × IsOpen s t) }
        ensures nothing { (s : Federation) → RepresentsWorld E.takes E.stands_for self.now s → IfOk result (λ some. some ≡ false → (t : ℕ) → IsOpen s t → ⊥) }
    {
        self.cluster.anything_open()
    }

    /// The open transactions, ascending: those in the table of a coordinator, or active or voted at a member. Of a node that is down its log
    /// tells.
    pub fn still_open(&self) -> Result<Txns, AllocError>
        requires stands { (s : Federation) × RepresentsWorld E.takes E.stands_for self.now s × IsReady s }
        ensures ascending { IfOk result IsAscending }
        ensures listed { (s : Federation) → RepresentsWorld E.takes E.stands_for self.now s → IfOk result (λ txns. (t : ℕ) → Contains txns t ↔ IsOpen s t) }
    {
        self.cluster.still_open()
    }

    /// The members that are up and in doubt, one for each transaction that is voted there: ascending by transaction, then by member.
    pub fn doubts(&self) -> Result<Doubts, AllocError>
        requires stands { (s : Federation) × RepresentsWorld E.takes E.stands_for self.now s }
        ensures ascending { IfOk result (AllPairs IsDoubtBefore) }
        ensures doubts { (s : Federation) → RepresentsWorld E.takes E.stands_for self.now s → IfOk result (λ doubts. (d : Doubt) → Contains doubts d ↔ IsDoubt s d) }
    {
        self.cluster.doubts()
    }

    /// The held votes of the members that are up: one for each active transaction whose vote was asked for and which the voting rule now holds,
    /// with the least transaction in its way; ascending by the held transaction, then by member.
    pub fn waits(&self) -> Result<Waits, AllocError>
        requires stands { (s : Federation) × RepresentsWorld E.takes E.stands_for self.now s }
        ensures ascending { IfOk result (AllPairs IsWaitBefore) }
        ensures waits { (s : Federation) → RepresentsWorld E.takes E.stands_for self.now s → IfOk result (λ waits. (w : Wait) → Contains waits w ↔ IsWait s w) }
    {
        self.cluster.waits()
    }

    /// The records that the logs alone give, also of nodes that are down: of each member the records that its log tells, with the writes of each
    /// voted transaction laid over whose coordinator's log has its commit. Members ascend, and so do the keys of each. The logs are gone through.
    pub fn durable(&self) -> Result<MemberRows, AllocError>
        requires stands { (s : Federation) × RepresentsWorld E.takes E.stands_for self.now s × IsReady s }
        ensures { (s : Federation) → RepresentsWorld E.takes E.stands_for self.now s → IsReady s →
            IfOk result (λ rows. rows ≡ numbered_rows (durable_in s) 1 (length s.kinds)) }
    {
        self.cluster.durable()
    }
}
