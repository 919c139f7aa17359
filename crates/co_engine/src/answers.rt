//! What engines answer.
use co_base::{Reply, Rows, Txn, Writes};

/// What an operation of a transaction comes to.
#[derive(Drop)]
pub enum Seen {
    /// It was done, and this is its reply.
    Answer(Reply),
    /// It was not done, since this transaction is in the way.
    Blocked(Txn),
}

/// The records as an engine keeps them, and the changes that lead back to the installed ones.
#[derive(Drop)]
pub struct Dump {
    /// The records.
    pub rows: Rows,
    /// For each key that an undecided transaction wrote in place: what is installed there.
    pub undos: Writes,
}
