//! Lent records.
use crate::walk::{ChangeWalk, MemberWalk, PairWalk, TxnWalk};
use co_base::{Node, Txn};

/// A record of a log, lent from the bytes that it stands in: nothing of it is copied.
#[derive(Drop)]
pub enum RecordView<'a> {
    /// The first record of a file: whose log it is, and which of the node's two files is newer.
    Header {
        node: Node,
        generation: u32,
    },
    /// A member voted for the transaction, with the ranges that it read and what it wrote there.
    Prepare {
        txn: Txn,
        coord: u8,
        count: u16,
        reads: PairWalk<'a>,
        writes: ChangeWalk<'a>,
    },
    /// The transaction is committed. A coordinator names the participants, a member none.
    Commit {
        txn: Txn,
        members: MemberWalk<'a>,
    },
    /// A member that voted learnt that the transaction is aborted.
    Abort {
        txn: Txn,
    },
    /// Every participant acknowledged the commit.
    End {
        txn: Txn,
    },
    /// A member's records as they stand, the values that lead back from uncommitted writes, and the
    /// transactions that it committed.
    Checkpoint {
        rows: PairWalk<'a>,
        undos: ChangeWalk<'a>,
        committed: TxnWalk<'a>,
    },
}
