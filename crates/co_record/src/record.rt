//! The records of a log, as values of their own.
use co_base::{Bytes, Node, Ranges, Rows, Txn, Txns, Writes};

/// A record of a log.
#[derive(Drop)]
pub enum Record {
    /// The first record of a file: whose log it is, and which of the node's two files is newer.
    Header {
        node: Node,
        generation: u32,
    },
    /// A member voted for the transaction, with what it read and wrote there.
    Prepare {
        txn: Txn,
        coord: u8,
        count: u16,
        reads: Ranges,
        writes: Writes,
    },
    /// The transaction is committed. A coordinator names the participants, a member none.
    Commit {
        txn: Txn,
        members: Bytes,
    },
    /// A member that voted learnt that the transaction is aborted.
    Abort {
        txn: Txn,
    },
    /// Every participant acknowledged the commit.
    End {
        txn: Txn,
    },
    /// A member's records as they stand, the values that lead back from uncommitted writes, and the
    /// transactions that it committed.
    Checkpoint {
        rows: Rows,
        undos: Writes,
        committed: Txns,
    },
}
