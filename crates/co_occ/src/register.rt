//! The active transactions by what they read, and the oldest read of all.
ghost use Rattle.std.specs.Prelude.{◌≡◌, IfOk, OnOk, OnErr, option_copied};
ghost use Rattle.std.specs.FinMap.{entries};
ghost use Rattle.co_state.specs.Table.{no_entries, look, put, without};
ghost use Rattle.co_occ.specs.Kept.{oldest_kept, or_unread, with_read};
ghost use Rattle.co_occ.specs.Reading.{with_oldest};

use crate::reads::{Reads, or_unread};
use co_base::{Range, Txn};
use co_stamps::Stamps;
use co_state::Table;
use std::alloc::{AllocError, Global};
use std::marker::Model;

/// What each active transaction read, by its number. It knows the oldest read of all. A contract sees the finite
/// map.
#[derive(Drop)]
pub struct Register {
    reads: Table<Reads>,
    oldest: Stamps,
}

impl Model for Register {
    ghost use Rattle.std.specs.Ordering.{nat_cmp};
    ghost use Rattle.std.specs.FinMap as map;
    ghost use Rattle.std.specs.Coded.{codes, coded_ℕ};
    ghost use Rattle.co_occ.specs.contracts.reads.Reads as one;
    ghost use Rattle.co_occ.specs.declared.reads.Reads.{Reads};
    ghost use Rattle.co_occ.specs.Reading.{KnowsOldest};

    ghost Value = { map.FinMap nat_cmp Reads };

    ghost coded = { Prim.hlevel (codes, map.code {R = nat_cmp} coded_ℕ one.the_row.coded) };

    ghost view = { λ r. r.reads };

    ghost invariant = { λ r. KnowsOldest r.oldest r.reads };
}

/// A transaction does an operation that sees so many installs, and reads a range or none. Gives its oldest read.
/// After want of memory it is absent.
fn note_read(
    alloc: Global,
    reads: &mut Table<Reads>,
    t: Txn,
    range: Option<Range>,
    stamp: u64,
) -> Result<Option<u64>, AllocError>
    ensures reads { OnOk result (reads.new ≡ put (without reads.old t) t (with_read range stamp (or_unread (look reads.old t)))) }
    ensures oldest { IfOk result (λ oldest. oldest ≡ (with_read range stamp (or_unread (look reads.old t))).oldest) }
    ensures err { OnErr result (reads.new ≡ without reads.old t) }
{
    let more = or_unread(alloc, reads.remove(t)).reading(range, stamp)?;
    let oldest = more.oldest;
    reads.insert(t, more)?;
    Ok(oldest)
}

/// A transaction gets the number of its oldest read, if it has one, in place of the number that it had. After want
/// of memory it has none.
fn renumber(
    alloc: Global,
    stamps: &mut Stamps,
    t: Txn,
    oldest: Option<u64>,
) -> Result<(), AllocError>
    ensures ok { OnOk result (stamps.new ≡ with_oldest (without stamps.old t) t oldest) }
    ensures err { OnErr result (stamps.new ≡ without stamps.old t) }
{
    if stamps.get(t) == oldest {
        return Ok(());
    }
    match oldest {
        Some(stamp) => stamps.insert(alloc, t, stamp),
        None => {
            let _ = stamps.remove(t);
            Ok(())
        }
    }
}

impl Register {
    /// No transactions. Takes no memory.
    pub fn new(alloc: Global) -> Register
        ensures { result ≡ no_entries }
    {
        Register {
            reads: Table::new(alloc),
            oldest: Stamps::new(alloc),
        }
    }

    /// What an active transaction read, if it is there.
    pub fn get(&self, t: Txn) -> Option<&Reads>
        ensures { option_copied result ≡ look self.now t }
    {
        self.reads.get(t)
    }

    /// The oldest read of all active transactions. Takes no memory.
    pub fn oldest_read(&self) -> Option<u64>
        ensures { result ≡ oldest_kept (entries self.now) }
    {
        self.oldest.least_from(0)
    }

    /// Takes a transaction away and gives what it read, if it is there. Takes no memory.
    pub fn take(&mut self, t: Txn) -> Option<Reads>
        ensures value { result ≡ look self.old t }
        ensures rest { self.new ≡ without self.old t }
    {
        let _ = self.oldest.remove(t);
        self.reads.remove(t)
    }

    /// An active transaction does an operation that sees so many installs, and reads a range or none. After want
    /// of memory the transaction is absent.
    pub fn add(
        &mut self,
        alloc: Global,
        t: Txn,
        range: Option<Range>,
        stamp: u64,
    ) -> Result<(), AllocError>
        ensures { OnOk result (self.new ≡ put (without self.old t) t (with_read range stamp (or_unread (look self.old t)))) }
    {
        let oldest = match note_read(alloc, &mut self.reads, t, range, stamp) {
            Ok(oldest) => oldest,
            Err(error) => {
                let _ = self.oldest.remove(t);
                return Err(error);
            }
        };
        match renumber(alloc, &mut self.oldest, t, oldest) {
            Ok(()) => Ok(()),
            Err(error) => {
                let _ = self.reads.remove(t);
                Err(error)
            }
        }
    }
}
