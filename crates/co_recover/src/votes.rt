//! The votes that stand, with their locks.
ghost use Rattle.std.specs.Prelude.{◌≡◌, IfOk, Some, None, if◌then◌else◌, false};
ghost use Rattle.co_state.specs.Table.{no_entries, look, put, without, holds};
ghost use Rattle.co_recover.specs.Locked.{with_vote, without_values};

use crate::locks::{hold, vote_against};
use crate::owned::touched_of;
use crate::vote::LentVote;
use co_base::Txn;
use co_locktab::LockTable;
use co_state::{Sets, Table};
use std::alloc::{AllocError, Global};
use std::marker::Model;
use std::mem::replace;

/// The votes that stand, lent from their prepare records, and a lock table in which each vote holds what it read for
/// reading and what it wrote for writing.
#[derive(Drop)]
pub(crate) struct LockedVotes<'a> {
    voted: Table<LentVote<'a>>,
    locks: LockTable,
}

impl<'a> Model for LockedVotes<'a> {
    ghost use Rattle.std.specs.Coded.{codes, coded_ℕ};
    ghost use Rattle.std.specs.FinMap as map;
    ghost use Rattle.std.specs.Ordering.{nat_cmp};
    ghost use Rattle.co_state.specs.declared.engine_state.Vote.{Vote};
    ghost use Rattle.co_state.specs.contracts.engine_state.Vote as vote;
    ghost use Rattle.co_recover.specs.Locked.{Holds, held_by};

    ghost Value = { map.FinMap nat_cmp Vote };

    ghost coded = { Prim.hlevel (codes, map.code {R = nat_cmp} coded_ℕ vote.the_row.coded) };

    ghost view = { λ v. v.voted };

    ghost invariant = { λ v. Holds v.locks (held_by v.voted) };
}

impl<'a> LockedVotes<'a> {
    /// No votes. Takes no memory.
    pub(crate) fn new(alloc: Global) -> LockedVotes<'a>
        ensures { result ≡ no_entries }
    {
        LockedVotes {
            voted: Table::new(alloc),
            locks: LockTable::new(alloc),
        }
    }

    /// The votes as a table.
    pub(crate) fn as_table(&self) -> &Table<LentVote<'a>>
        ensures { result.now ≡ self.now }
    {
        &self.voted
    }

    /// Whether a transaction has a vote.
    pub(crate) fn contains(&self, t: Txn) -> bool
        ensures { result ≡ holds self.now t }
    {
        self.voted.contains(t)
    }

    /// One vote more, of a transaction that has none; whether no vote that stands is in conflict with it. After want of memory there are
    /// no votes.
    pub(crate) fn cast(
        &mut self,
        alloc: Global,
        t: Txn,
        vote: LentVote<'a>,
    ) -> Result<bool, AllocError>
        requires { holds self.old t ≡ false }
        ensures { IfOk result (λ was_cast. (if was_cast then Some self.new else None) ≡ with_vote self.old t vote.entry) }
    {
        let sets = touched_of(alloc, &vote.sets)?;
        if vote_against(&self.locks, t, &sets).is_some() {
            return Ok(false);
        }
        let votes = replace(self, LockedVotes::new(alloc));
        let after = votes.add(t, vote, &sets)?;
        drop(replace(self, after));
        Ok(true)
    }

    /// One vote more, of a transaction that has none, which read and wrote what these sets say.
    fn add(self, t: Txn, vote: LentVote<'a>, sets: &Sets) -> Result<LockedVotes<'a>, AllocError>
        requires none { holds self t ≡ false }
        requires sets { sets.now ≡ without_values vote.sets }
        ensures { IfOk result (λ after. after ≡ put self.entry t vote.entry) }
    {
        let LockedVotes {
            mut voted,
            mut locks,
        } = self;
        hold(&mut locks, t, sets)?;
        voted.insert(t, vote)?;
        Ok(LockedVotes { voted, locks })
    }

    /// Takes out a vote with its locks; none where the transaction has no vote. Takes no memory.
    pub(crate) fn take(&mut self, t: Txn) -> Option<LentVote<'a>>
        ensures vote { result ≡ look self.old t }
        ensures rest { self.new ≡ without self.old t }
    {
        self.locks.end_all(t);
        self.voted.remove(t)
    }
}
