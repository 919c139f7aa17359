//! The messages of two-phase commit.
use co_base::{Sequence, Txn};

/// A message between a coordinator and a member about one transaction.
#[derive(Clone, Copy, PartialEq, Eq, Hash)]
pub enum Message {
    /// The coordinator asks the member to vote; `count` is how many operations of the transaction
    /// the client saw answered there.
    Prepare {
        txn: Txn,
        coord: u8,
        member: u8,
        count: u16,
    },
    /// The member votes.
    Vote {
        txn: Txn,
        member: u8,
        coord: u8,
        yes: bool,
    },
    /// The coordinator tells its decision.
    Decide {
        txn: Txn,
        coord: u8,
        member: u8,
        commit: bool,
    },
    /// A member that voted asks for the decision.
    Ask {
        txn: Txn,
        member: u8,
        coord: u8,
    },
    /// The member acknowledges that it committed.
    Ack {
        txn: Txn,
        member: u8,
        coord: u8,
    },
}

/// A list of messages.
pub type Messages = Sequence<Message>;
