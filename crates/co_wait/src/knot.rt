//! How waits hang together.
use crate::wait::Wait;
use co_base::{Sequence, Txn};

/// The waits of a cycle, in the order in which one goes round.
pub type Legs = Sequence<Wait>;

/// A transaction and its rank.
#[derive(Clone, Copy)]
pub struct Rank {
    /// Which transaction.
    pub txn: Txn,
    /// How many waits the longest chain from it has.
    pub rank: u32,
}

/// Transactions with their ranks, ascending by transaction.
pub type Ranks = Sequence<Rank>;

/// How waits hang together.
#[derive(Drop)]
pub enum Knot {
    /// Some close: each leg's `by` is the next one's `held`, and the last one's the first one's. The least transaction of them is first.
    Cycle(Legs),
    /// None close: each transaction of the waits with its rank.
    Order(Ranks),
}
