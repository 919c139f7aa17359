//! A held vote, and the list of them.
use co_base::{Sequence, Txn};

/// A vote that was asked for and is held.
#[derive(Clone, Copy)]
pub struct Wait {
    /// The number of the member.
    pub member: u8,
    /// The transaction whose vote is held.
    pub held: Txn,
    /// The least transaction in its way.
    pub by: Txn,
}

/// Held votes: ascending by the held transaction, then by member.
pub type Waits = Sequence<Wait>;
