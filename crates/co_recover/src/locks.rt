//! The locks of the votes that stand.
ghost use Rattle.std.specs.Prelude.{◌≡◌, ◌&&◌, ◌||◌, ◌==◌, not, ℕ, List, OnOk};
ghost use Rattle.co_base.specs.declared.written.Written.{Written};
ghost use Rattle.co_state.specs.Keys.{reads_meet, writes_meet};
ghost use Rattle.co_state.specs.Table.{Table};
ghost use Rattle.co_state.specs.declared.engine_state.Vote.{Vote};
ghost use Rattle.co_recover.specs.Locked.{Held, Holds, IsFound, with_reads, with_writes, sets_at, held_by, is_against};

use co_base::{Range, Txn, Written};
use co_locktab::LockTable;
use co_state::Sets;
use std::alloc::AllocError;

/// A vote of another transaction that wrote a key of these ranges.
fn writer_within(locks: &LockTable, t: Txn, ranges: &[Range]) -> Option<Txn>
    ensures { (voted : Table Vote) → Holds locks.now (held_by voted) → IsFound (λ u. not (u == t) && reads_meet ranges.now (sets_at voted u).writes) result }
{
    for range in ranges {
        if let Some(u) = locks.blocker_read(t, range) {
            return Some(u);
        }
    }
    None
}

/// A vote of another transaction that read or wrote a key of these changes.
fn holder_of(locks: &LockTable, t: Txn, changes: &[Written]) -> Option<Txn>
    ensures { (voted : Table Vote) → Holds locks.now (held_by voted) → IsFound (λ u. not (u == t) && (reads_meet (sets_at voted u).reads changes.now || writes_meet (sets_at voted u).writes changes.now)) result }
{
    for change in changes {
        if let Some(u) = locks.blocker_write(t, &change.key) {
            return Some(u);
        }
    }
    None
}

/// A vote of another transaction that is in conflict with what this one read and wrote.
pub(crate) fn vote_against(locks: &LockTable, t: Txn, sets: &Sets) -> Option<Txn>
    ensures { (voted : Table Vote) → Holds locks.now (held_by voted) → IsFound (is_against voted t sets.now) result }
{
    match writer_within(locks, t, sets.reads()) {
        Some(u) => Some(u),
        None => holder_of(locks, t, sets.writes()),
    }
}

/// A transaction holds these ranges for reading.
fn hold_reads(locks: &mut LockTable, t: Txn, ranges: &[Range]) -> Result<(), AllocError>
    ensures { (held : Held) → Holds locks.old held → OnOk result (Holds locks.new (with_reads held t ranges.now)) }
{
    for range in ranges {
        locks.add_read(t, range)?;
    }
    Ok(())
}

/// A transaction holds the keys of these changes for writing.
fn hold_writes(locks: &mut LockTable, t: Txn, changes: &[Written]) -> Result<(), AllocError>
    ensures { (held : Held) → Holds locks.old held → OnOk result (Holds locks.new (with_writes held t changes.now)) }
{
    for change in changes {
        locks.add_write(t, &change.key)?;
    }
    Ok(())
}

/// A transaction holds what it read for reading and what it wrote for writing.
pub(crate) fn hold(locks: &mut LockTable, t: Txn, sets: &Sets) -> Result<(), AllocError>
    ensures { (held : Held) → Holds locks.old held → OnOk result (Holds locks.new (with_writes (with_reads held t sets.now.reads) t sets.now.writes)) }
{
    hold_reads(locks, t, sets.reads())?;
    hold_writes(locks, t, sets.writes())
}
