//! The operations of a transaction, each with the member where it is done.
use co_base::{Op, Sequence};

/// One operation of a transaction.
#[derive(Drop)]
pub struct Site {
    /// The number of the member.
    pub member: u8,
    /// What is done there.
    pub op: Op,
}

/// A list of operations.
pub type Sites = Sequence<Site>;
