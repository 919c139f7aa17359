//! What a member tells of its transactions.
ghost use Rattle.std.specs.Prelude.{◌≡◌, true, option_map, IfOk};
ghost use Rattle.co_plain.specs.MemberStep.{standing_of};
ghost use Rattle.co_plain.specs.MemberView.{recovered_view};
ghost use Rattle.co_plain.specs.declared.member_state.MemberState.{MemberState};
ghost use Rattle.co_recover.specs.Recovered.{past_of_member};
ghost use Rattle.co_state.specs.Table.{look, holds};
ghost use Rattle.co_undecided.specs.Kept.{coord_asked};
ghost use Rattle.co_vote.specs.Ballots.{verdict_of};
ghost use Rattle.co_member.specs.Attaching.{IsReadable};
ghost use Rattle.co_member.specs.Reading.{phase_of, open_after, verdict_where};
ghost use Rattle.co_member.specs.Standing.{is_up, RepresentsMember};
ghost use Rattle.co_state.specs.Effects.{dumped_rows, dumped_undos};

use crate::member::Member;
use crate::restart::recovered;
use co_base::{Kind, Txn};
use co_engine::{Dump, Engine};
use co_log::Log;
use co_plain::Standing;
use co_recover::MemberPast;
use co_vote::{Ballot, Phase};
use std::alloc::AllocError;

/// Where a transaction stands, as its phase.
fn phase_of(standing: Standing) -> Phase
    ensures { result ≡ phase_of standing }
{
    match standing {
        Standing::IsActive => Phase::Active,
        Standing::IsVoted => Phase::Voted,
        Standing::IsInstalled => Phase::Installed,
        Standing::IsAbsent => Phase::Absent,
    }
}

impl<E: Engine + Drop> Member<E> {
    /// Whether the member runs.
    pub fn up(&self) -> bool
        ensures { result ≡ is_up self.now }
    {
        self.running.is_some()
    }

    /// The kind of its engine, also while it is down.
    pub fn kind(&self) -> Kind
        ensures { (x : MemberState) → RepresentsMember E.stands_for self.now x → result ≡ x.engine.kind }
    {
        self.kind
    }

    /// The log.
    pub fn log(&self) -> &Log
        ensures { result.now ≡ self.now.log }
    {
        &self.log
    }

    /// Where a transaction stands here. Takes no memory.
    pub fn knows(&self, t: Txn) -> Phase
        requires up { is_up self.now ≡ true }
        ensures { (x : MemberState) → RepresentsMember E.stands_for self.now x → result ≡ phase_of (standing_of x t) }
    {
        phase_of(self.running().standing(t))
    }

    /// The least undecided transaction above a number, or the least of all. Takes no memory.
    pub fn open_after(&self, after: Option<Txn>) -> Option<Txn>
        requires up { is_up self.now ≡ true }
        ensures { (x : MemberState) → RepresentsMember E.stands_for self.now x → result ≡ open_after x.engine after }
    {
        let undecided = &self.running().undecided;
        match after {
            Some(t) => undecided.open_after(t),
            None => match undecided.has_voted(Txn(0)) {
                Some(_) => Some(Txn(0)),
                None => undecided.open_after(Txn(0)),
            },
        }
    }

    /// The ballot on an active transaction whose vote was asked for and is held; none on another one. Takes no memory.
    pub fn ballot_of(&self, t: Txn) -> Option<Ballot<'_>>
        requires up { is_up self.now ≡ true }
        ensures { (x : MemberState) → RepresentsMember E.stands_for self.now x → option_map verdict_of result ≡ verdict_where x.engine t (look x.asked t) }
    {
        let undecided = &self.running().undecided;
        let mark = undecided.mark_of(t)?;
        Some(undecided.ballot(t, mark.count))
    }

    /// Whether an active transaction was asked for its vote, which is held. Takes no memory.
    pub fn is_asked(&self, t: Txn) -> bool
        requires up { is_up self.now ≡ true }
        ensures { (x : MemberState) → RepresentsMember E.stands_for self.now x → result ≡ holds x.asked t }
    {
        self.running().undecided.mark_of(t).is_some()
    }

    /// The coordinator that asked for the vote of a voted transaction; none of another one. Takes no memory.
    pub fn coord_of(&self, t: Txn) -> Option<u8>
        requires up { is_up self.now ≡ true }
        ensures { (x : MemberState) → RepresentsMember E.stands_for self.now x → result ≡ coord_asked (look x.engine.voted t) }
    {
        self.running().undecided.coord_of(t)
    }

    /// The records that are installed here: those that the engine keeps, and the changes that lead back from what undecided transactions wrote in place.
    pub fn dump(&self) -> Result<Dump, AllocError>
        requires up { is_up self.now ≡ true }
        ensures rows { (x : MemberState) → RepresentsMember E.stands_for self.now x → IfOk result (λ dump. dump.rows ≡ dumped_rows x.engine.kind x.engine) }
        ensures undos { (x : MemberState) → RepresentsMember E.stands_for self.now x → IfOk result (λ dump. dump.undos ≡ dumped_undos x.engine.kind x.engine) }
    {
        self.running().undecided.dump()
    }

    /// What the records of the log tell, also while the member is down. The log is gone through.
    pub fn past(&self) -> Result<MemberPast, AllocError>
        requires stands { (x : MemberState) × RepresentsMember E.stands_for self.now x × IsReadable self.now.coords x.log }
        ensures { (x : MemberState) → RepresentsMember E.stands_for self.now x → IfOk result (λ past. past ≡ past_of_member (recovered_view x.log.stable)) }
    {
        recovered(self.alloc, &self.log, self.coords)
    }
}
