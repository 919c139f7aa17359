//! What transactions read and wrote, as their operations add to it.
ghost use Rattle.std.specs.Prelude.{◌≡◌, IfOk, OnOk};
ghost use Rattle.co_pairs.specs.Votes.{told_of};
ghost use Rattle.co_engine.specs.Undecided.{grown_by, grown_at};

use co_base::{Op, Ranges, Txn, Writes};
use co_pairs::{Prepared, Sets};
use co_state::{Table, change_made, put_change, put_range, range_read};
use std::alloc::{AllocError, Global};

/// What a transaction read and wrote, with one operation more.
pub fn grown(sets: Sets, op: &Op) -> Result<Sets, AllocError>
    ensures { IfOk result (λ grown. grown ≡ grown_by op.now sets) }
{
    let mut reads = sets.reads.into_vec();
    let mut writes = sets.writes.into_vec();
    if let Some(range) = range_read(op)? {
        put_range(&mut reads, range)?;
    }
    if let Some(change) = change_made(op)? {
        put_change(&mut writes, change)?;
    }
    Ok(Sets {
        reads: Ranges::of(reads),
        writes: Writes::of(writes),
    })
}

/// A transaction of a table does an operation; one that is absent has done nothing before.
pub fn grow(alloc: Global, all: &mut Table<Sets>, t: Txn, op: &Op) -> Result<(), AllocError>
    ensures { OnOk result (all.new ≡ grown_at all.old t op.now) }
{
    let own = match all.remove(t) {
        Some(own) => own,
        None => Sets::new(alloc),
    };
    all.insert(t, grown(own, op)?)
}

/// What the prepared transactions read and wrote, by their numbers.
pub fn prepared_sets(alloc: Global, prepared: &[Prepared]) -> Result<Table<Sets>, AllocError>
    ensures { IfOk result (λ sets. sets ≡ told_of (λ p. p.sets) prepared.now) }
{
    let mut all = Table::new(alloc);
    let mut place = prepared.len();
    while 0 < place {
        place -= 1;
        let sets = prepared[place].sets.copy(alloc)?;
        all.insert(prepared[place].txn, sets)?;
    }
    Ok(all)
}
