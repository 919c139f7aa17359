//! What a member votes.
use co_base::{Key, Txn};

/// What a member votes on a transaction that it is asked about.
#[derive(Drop)]
pub enum Ballot<'a> {
    /// No: it lost operations of the transaction.
    NoLost,
    /// No: the transaction read this key, and it has been overwritten since.
    NoStale(&'a Key),
    /// Not yet: this transaction is in the way.
    Held(Txn),
    /// Yes.
    Yes,
}
