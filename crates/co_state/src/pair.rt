//! Pairs of transactions that are in conflict.
use co_base::{Sequence, Txn};

/// How two transactions are in conflict.
#[derive(Clone, Copy)]
pub enum PairKind {
    /// The first one read a key that the second one wrote.
    Reads,
    /// Both wrote one key, and the first one has the lesser number.
    Writes,
}

/// Two undecided transactions of one member that are in conflict.
#[derive(Clone, Copy)]
pub struct Pair {
    /// How they are in conflict.
    pub by: PairKind,
    /// The one that read, or the one with the lesser number.
    pub first: Txn,
    /// The one that wrote, or the one with the greater number.
    pub second: Txn,
}

/// A list of pairs.
pub type Pairs = Sequence<Pair>;
