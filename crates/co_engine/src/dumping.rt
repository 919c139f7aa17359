//! What an engine dumps that writes in place.
ghost use Rattle.std.specs.Prelude.{◌≡◌, map, filter, not, IfOk};
ghost use Rattle.std.specs.FinMap.{entries};
ghost use Rattle.co_serial.specs.Records.{all_rows, with_changes};
ghost use Rattle.co_state.specs.Effects.{undo_of};
ghost use Rattle.co_state.specs.Joined.{joined_all};
ghost use Rattle.co_engine.specs.Undecided.{changes_kept};

use crate::answers::Dump;
use crate::undecided::Roll;
use co_base::{Rows, Writes, Written};
use co_state::{RecordMap, copy_writes, join};
use std::alloc::{AllocError, Global};

/// The records with every change of the undecided transactions laid over, and what leads back.
pub fn dump_in_place(alloc: Global, records: RecordMap, roll: &Roll) -> Result<Dump, AllocError>
    ensures rows { IfOk result (λ dump. dump.rows ≡ all_rows (with_changes records (changes_kept (entries roll.now)))) }
    ensures undos { IfOk result (λ dump. dump.undos ≡ map (undo_of records) (changes_kept (entries roll.now))) }
{
    let changes = undecided_changes(alloc, roll)?;
    let undos = undos(alloc, &records, changes.as_slice())?;
    let rows = rows_over(alloc, records, changes.as_slice())?;
    Ok(Dump { rows, undos })
}

/// The records with changes laid over.
fn rows_over(alloc: Global, mut records: RecordMap, changes: &[Written]) -> Result<Rows, AllocError>
    ensures { IfOk result (λ rows. rows ≡ all_rows (with_changes records changes.now)) }
{
    records.lay(changes)?;
    records.rows(alloc)
}

/// For each change, what the records have at its key.
fn undos(alloc: Global, records: &RecordMap, changes: &[Written]) -> Result<Writes, AllocError>
    ensures { IfOk result (λ undos. undos ≡ map (undo_of records.now) changes.now) }
{
    let mut undos = Vec::new(alloc);
    for change in changes {
        undos.push(undo(records, change)?)?;
    }
    Ok(Writes::of(undos))
}

/// What the records have at the key of a change.
fn undo(records: &RecordMap, change: &Written) -> Result<Written, AllocError>
    ensures { IfOk result (λ undo. undo ≡ undo_of records.now change.now) }
{
    let value = match records.get(&change.key) {
        Some(value) => Some(value.copy()?),
        None => None,
    };
    Ok(Written {
        key: change.key.copy()?,
        value,
    })
}

/// Every change of the undecided transactions, by key.
fn undecided_changes(alloc: Global, roll: &Roll) -> Result<Vec<Written>, AllocError>
    ensures { IfOk result (λ changes. changes.items ≡ changes_kept (entries roll.now)) }
{
    let mut changes = joined_of_active(alloc, roll)?;
    let apart = joined_of_voted(alloc, roll)?;
    join(&mut changes, apart.as_slice())?;
    Ok(changes)
}

/// The changes of the active transactions, by key.
fn joined_of_active(alloc: Global, roll: &Roll) -> Result<Vec<Written>, AllocError>
    ensures { IfOk result (λ changes. changes.items ≡ joined_all (map (λ e. e.1.sets.writes) (filter (λ e. not e.1.voted) (entries roll.now)))) }
{
    let lists = changes_of_active(alloc, roll)?;
    join_all(alloc, lists.as_slice())
}

/// The changes of the voted transactions, by key.
fn joined_of_voted(alloc: Global, roll: &Roll) -> Result<Vec<Written>, AllocError>
    ensures { IfOk result (λ changes. changes.items ≡ joined_all (map (λ e. e.1.sets.writes) (filter (λ e. e.1.voted) (entries roll.now)))) }
{
    let lists = changes_of_voted(alloc, roll)?;
    join_all(alloc, lists.as_slice())
}

/// The changes of each voted transaction, ascending by number.
fn changes_of_voted(alloc: Global, roll: &Roll) -> Result<Vec<Writes>, AllocError>
    ensures { IfOk result (λ all. all.items ≡ map (λ e. e.1.sets.writes) (filter (λ e. e.1.voted) (entries roll.now))) }
{
    let mut all = Vec::new(alloc);
    for (_, undecided) in roll.iter() {
        if undecided.voted {
            all.push(copy_writes(alloc, undecided.sets.writes())?)?;
        }
    }
    Ok(all)
}

/// The changes of each active transaction, ascending by number.
fn changes_of_active(alloc: Global, roll: &Roll) -> Result<Vec<Writes>, AllocError>
    ensures { IfOk result (λ all. all.items ≡ map (λ e. e.1.sets.writes) (filter (λ e. not e.1.voted) (entries roll.now))) }
{
    let mut all = Vec::new(alloc);
    for (_, undecided) in roll.iter() {
        if !undecided.voted {
            all.push(copy_writes(alloc, undecided.sets.writes())?)?;
        }
    }
    Ok(all)
}

/// Lists of changes laid over one another, the last list first.
fn join_all(alloc: Global, lists: &[Writes]) -> Result<Vec<Written>, AllocError>
    ensures { IfOk result (λ changes. changes.items ≡ joined_all lists.now) }
{
    let mut changes = Vec::new(alloc);
    let mut place = lists.len();
    while 0 < place {
        place -= 1;
        join(&mut changes, lists[place].as_slice())?;
    }
    Ok(changes)
}
