//! The records that a filled spare tells again, behind its header.
ghost use Rattle.std.specs.Prelude.{◌≡◌, ◌++◌, map, IfOk};
ghost use Rattle.co_member.specs.Checkpoint.{prepared_again};
ghost use Rattle.co_migrate.specs.Telling.{commit_again, member_again, coord_again};

use co_base::Writes;
use co_pairs::{Prepared, Sets};
use co_record::Record;
use co_recover::{CoordPast, Decided, MemberPast};
use std::alloc::{AllocError, Global};

/// The prepare record of a voted transaction.
fn prepared(vote: Prepared) -> Record
    ensures { result ≡ prepared_again vote }
{
    let Prepared {
        txn,
        coord,
        count,
        sets,
    } = vote;
    let Sets { reads, writes } = sets;
    Record::Prepare {
        txn,
        coord,
        count,
        reads,
        writes,
    }
}

/// What a member's log tells: a checkpoint without undos, and a prepare record for each voted transaction, ascending.
pub(crate) fn member_records(alloc: Global, past: MemberPast) -> Result<Vec<Record>, AllocError>
    ensures { IfOk result (λ records. records.items ≡ member_again past) }
{
    let MemberPast {
        rows,
        voted,
        committed,
    } = past;
    let mut records = Vec::new(alloc);
    records.push(Record::Checkpoint {
        rows,
        undos: Writes::new(alloc),
        committed,
    })?;
    for vote in voted.into_vec() {
        records.push(prepared(vote))?;
    }
    Ok(records)
}

/// The commit record of a decided transaction.
fn committed(decided: Decided) -> Record
    ensures { result ≡ commit_again decided }
{
    let Decided { txn, members } = decided;
    Record::Commit { txn, members }
}

/// What a coordinator's log tells: a commit record for each commit without end, ascending.
pub(crate) fn coord_records(alloc: Global, past: CoordPast) -> Result<Vec<Record>, AllocError>
    ensures { IfOk result (λ records. records.items ≡ coord_again past) }
{
    let mut records = Vec::new(alloc);
    for decided in past.committed.into_vec() {
        records.push(committed(decided))?;
    }
    Ok(records)
}
