//! What a member has in memory while it runs.
ghost use Rattle.std.specs.Prelude.{◌≡◌, OnOk};
ghost use Rattle.co_base.specs.declared.head.Kind.{Kind};
ghost use Rattle.co_plain.specs.Member.{installed_state};
ghost use Rattle.co_plain.specs.MemberStep.{standing_of, dropped};
ghost use Rattle.co_plain.specs.declared.member_state.MemberState.{MemberState};
ghost use Rattle.co_plain.specs.declared.standing.Standing.TheVariants.{IsVoted};
ghost use Rattle.co_member.specs.Plans.{changed, marked_by};
ghost use Rattle.co_member.specs.Standing.{RepresentsRunning, Suits};
ghost use Rattle.co_undecided.specs.Pins.{pins_in};

use crate::plan::Change;
use co_base::Txn;
use co_engine::Engine;
use co_plain::{AskedMark, Standing};
use co_state::Table;
use co_undecided::Undecideds;
use std::alloc::AllocError;

/// What a member has in memory while it runs.
#[derive(Drop)]
pub struct Running<E> {
    /// Its undecided transactions, with their engine.
    pub(crate) undecided: Undecideds<E>,
    /// The transactions that are committed here.
    pub(crate) committed: Table<()>,
}

impl<E: Engine> Running<E> {
    /// Where a transaction stands. Takes no memory.
    pub(crate) fn standing(&self, t: Txn) -> Standing
        ensures { (kind : Kind) (x : MemberState) → RepresentsRunning E.stands_for kind self.now x → result ≡ standing_of x t }
    {
        match self.undecided.has_voted(t) {
            Some(false) => Standing::IsActive,
            Some(true) => Standing::IsVoted,
            None => {
                if self.committed.contains(t) {
                    Standing::IsInstalled
                } else {
                    Standing::IsAbsent
                }
            }
        }
    }

    /// A prepare of an active transaction is marked. Takes no memory.
    pub(crate) fn mark(&mut self, t: Txn, coord: u8, count: u16)
        ensures stands { (kind : Kind) (x : MemberState) → RepresentsRunning E.stands_for kind self.old x → RepresentsRunning E.stands_for kind self.new (marked_by x t coord count (standing_of x t)) }
        ensures pins { pins_in E.pins self.new.undecided ≡ pins_in E.pins self.old.undecided }
    {
        match self.standing(t) {
            Standing::IsActive => self.undecided.mark(t, AskedMark { coord, count }),
            Standing::IsVoted | Standing::IsInstalled | Standing::IsAbsent => (),
        }
    }

    /// A transaction is dropped, where it is undecided. Takes no memory.
    fn forget(&mut self, t: Txn)
        ensures stands { (kind : Kind) (x : MemberState) → RepresentsRunning E.stands_for kind self.old x → RepresentsRunning E.stands_for kind self.new (dropped x t) }
        ensures pins { pins_in E.pins self.new.undecided ≡ pins_in E.pins self.old.undecided }
    {
        match self.undecided.has_voted(t) {
            Some(_) => self.undecided.drop_txn(t),
            None => (),
        }
    }

    /// A voted transaction is committed.
    fn install(&mut self, t: Txn) -> Result<(), AllocError>
        ensures stands { (kind : Kind) (x : MemberState) → RepresentsRunning E.stands_for kind self.old x → standing_of x t ≡ IsVoted → OnOk result (RepresentsRunning E.stands_for kind self.new (installed_state x t)) }
        ensures pins { pins_in E.pins self.new.undecided ≡ pins_in E.pins self.old.undecided }
    {
        self.undecided.install(t)?;
        self.committed.insert(t, ())
    }

    /// Changes a transaction as a plan says. Only an install may want memory.
    pub(crate) fn change(&mut self, t: Txn, change: Change) -> Result<(), AllocError>
        ensures stands { (kind : Kind) (x : MemberState) → RepresentsRunning E.stands_for kind self.old x → Suits x t change → OnOk result (RepresentsRunning E.stands_for kind self.new (changed x t change)) }
        ensures pins { pins_in E.pins self.new.undecided ≡ pins_in E.pins self.old.undecided }
    {
        match change {
            Change::Stays => Ok(()),
            Change::Casts { coord, count } => {
                self.undecided.cast(t, coord, count);
                Ok(())
            }
            Change::Drops => {
                self.forget(t);
                Ok(())
            }
            Change::Installs => self.install(t),
            Change::CastsAndInstalls { coord, count } => {
                self.undecided.cast(t, coord, count);
                self.install(t)
            }
        }
    }
}
