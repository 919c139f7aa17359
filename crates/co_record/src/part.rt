//! The fields of each kind of record.
ghost use Rattle.std.specs.Prelude.{◌≡◌};
ghost use Rattle.co_record.specs.Lent.{record_of};
ghost use Rattle.co_record.specs.Reading.{Gives, node_at, header_at, prepare_at, commit_at, abort_at, end_at, checkpoint_at, record_at};

use crate::field::{read_byte, read_byte_within, read_u16_within, read_u32};
use crate::list::{read_members, read_ranges, read_rows, read_txns, read_undos, read_writes};
use crate::miss::Miss;
use crate::view::RecordView;
use co_base::{MOST_COORDINATORS, MOST_OPERATIONS, Node, Txn};

/// A node, by its byte.
#[tactic(auto, unfolding(crate::specs::Reading::node_at))]
fn read_node(bytes: &[u8]) -> Result<(Node, &[u8]), Miss>
    ensures { Gives (λ x. (x.0, x.1.now)) result (node_at bytes.now) }
{
    let (byte, rest) = read_byte(bytes)?;
    match Node::of_byte(byte) {
        Some(node) => Ok((node, rest)),
        None => Err(Miss::Outside { left: bytes.len() }),
    }
}

#[tactic(auto, unfolding(crate::specs::Reading::header_at))]
fn read_header(version: u8, bytes: &[u8]) -> Result<(RecordView<'_>, &[u8]), Miss>
    ensures { Gives (λ x. (record_of x.0, x.1.now)) result (header_at version bytes.now) }
{
    let (_, rest) = read_byte_within(version, version, bytes)?;
    let (node, rest) = read_node(rest)?;
    let (generation, rest) = read_u32(rest)?;
    Ok((RecordView::Header { node, generation }, rest))
}

#[tactic(auto, unfolding(crate::specs::Reading::prepare_at))]
fn read_prepare(version: u8, bytes: &[u8]) -> Result<(RecordView<'_>, &[u8]), Miss>
    ensures { Gives (λ x. (record_of x.0, x.1.now)) result (prepare_at version bytes.now) }
{
    let (txn, rest) = read_u32(bytes)?;
    let (coord, rest) = read_byte_within(1, MOST_COORDINATORS, rest)?;
    let (count, rest) = read_u16_within(1, MOST_OPERATIONS, rest)?;
    let (reads, rest) = read_ranges(rest)?;
    let (writes, rest) = read_writes(version, rest)?;
    Ok((
        RecordView::Prepare {
            txn: Txn(txn),
            coord,
            count,
            reads,
            writes,
        },
        rest,
    ))
}

#[tactic(auto, unfolding(crate::specs::Reading::commit_at))]
fn read_commit(bytes: &[u8]) -> Result<(RecordView<'_>, &[u8]), Miss>
    ensures { Gives (λ x. (record_of x.0, x.1.now)) result (commit_at bytes.now) }
{
    let (txn, rest) = read_u32(bytes)?;
    let (members, rest) = read_members(rest)?;
    Ok((
        RecordView::Commit {
            txn: Txn(txn),
            members,
        },
        rest,
    ))
}

#[tactic(auto, unfolding(crate::specs::Reading::checkpoint_at))]
fn read_checkpoint(version: u8, bytes: &[u8]) -> Result<(RecordView<'_>, &[u8]), Miss>
    ensures { Gives (λ x. (record_of x.0, x.1.now)) result (checkpoint_at version bytes.now) }
{
    let (rows, rest) = read_rows(version, bytes)?;
    let (undos, rest) = read_undos(version, rest)?;
    let (committed, rest) = read_txns(rest)?;
    Ok((
        RecordView::Checkpoint {
            rows,
            undos,
            committed,
        },
        rest,
    ))
}

#[tactic(auto, unfolding(crate::specs::Reading::abort_at))]
fn read_abort(bytes: &[u8]) -> Result<(RecordView<'_>, &[u8]), Miss>
    ensures { Gives (λ x. (record_of x.0, x.1.now)) result (abort_at bytes.now) }
{
    let (txn, rest) = read_u32(bytes)?;
    Ok((RecordView::Abort { txn: Txn(txn) }, rest))
}

#[tactic(auto, unfolding(crate::specs::Reading::end_at))]
fn read_end(bytes: &[u8]) -> Result<(RecordView<'_>, &[u8]), Miss>
    ensures { Gives (λ x. (record_of x.0, x.1.now)) result (end_at bytes.now) }
{
    let (txn, rest) = read_u32(bytes)?;
    Ok((RecordView::End { txn: Txn(txn) }, rest))
}

/// The record of a version at the front, and the bytes behind it.
#[tactic(auto, unfolding(crate::specs::Reading::record_at))]
pub fn read_any(version: u8, bytes: &[u8]) -> Result<(RecordView<'_>, &[u8]), Miss>
    ensures { Gives (λ x. (record_of x.0, x.1.now)) result (record_at version bytes.now) }
{
    match bytes {
        [] => Err(Miss::Short),
        [1, fields @ ..] => read_header(version, fields),
        [2, fields @ ..] => read_prepare(version, fields),
        [3, fields @ ..] => read_commit(fields),
        [4, fields @ ..] => read_abort(fields),
        [5, fields @ ..] => read_end(fields),
        [6, fields @ ..] => read_checkpoint(version, fields),
        [_, ..] => Err(Miss::Kind),
    }
}
