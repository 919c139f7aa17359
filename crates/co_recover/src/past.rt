//! What is recovered.
use co_base::{Bytes, Rows, Sequence, Txn, Txns};
use co_pairs::PreparedList;

/// What a member's log tells.
#[derive(Drop)]
pub struct MemberPast {
    /// The installed records.
    pub rows: Rows,
    /// The voted transactions, ascending by number.
    pub voted: PreparedList,
    /// The numbers of the transactions that are committed here.
    pub committed: Txns,
}

/// A decided transaction that some participant may not have acknowledged.
#[derive(Drop)]
pub struct Decided {
    /// Its number.
    pub txn: Txn,
    /// Its participants, ascending.
    pub members: Bytes,
}

/// A list of decided transactions.
pub type Commits = Sequence<Decided>;

/// What a coordinator's log tells.
#[derive(Drop)]
pub struct CoordPast {
    /// The commits without end, ascending by number.
    pub committed: Commits,
    /// The numbers of all commits.
    pub seen: Txns,
}
