//! The events of a schedule.
use crate::message::Message;
use co_base::{Key, Leaves, Node, Range, Txn, Value};

/// What one line of a schedule lets happen.
#[derive(Drop)]
pub enum Event {
    /// A client begins the transaction at a coordinator.
    Begin {
        txn: Txn,
        coord: u8,
    },
    /// A client begins the transaction at a member, which decides it alone.
    Local {
        txn: Txn,
        member: u8,
    },
    /// A read of one record.
    Read {
        txn: Txn,
        member: u8,
        key: Key,
    },
    /// A write of one record.
    Write {
        txn: Txn,
        member: u8,
        key: Key,
        value: Value,
    },
    /// An erasure of one record.
    Erase {
        txn: Txn,
        member: u8,
        key: Key,
    },
    /// A read of the records of a range.
    Scan {
        txn: Txn,
        member: u8,
        range: Range,
    },
    /// The client asks for the commit.
    Commit {
        txn: Txn,
    },
    /// The client asks for the abort.
    Abort {
        txn: Txn,
    },
    /// A message that was sent arrives.
    Deliver(Message),
    /// The member tries a vote again that it held back.
    Vote {
        txn: Txn,
        member: u8,
    },
    /// The timer of the transaction fires at the node.
    Timer {
        txn: Txn,
        node: Node,
    },
    /// A member that voted asks its coordinator.
    Ask {
        txn: Txn,
        member: u8,
    },
    /// The coordinator sends again what was not answered.
    Resend {
        txn: Txn,
        coord: u8,
    },
    /// The node stops between two log writes.
    Crash(Node),
    /// The node starts again from its log.
    Restart(Node),
    /// The next log write of the node stops in this device call, 1 to 4, and leaves this image.
    Arm {
        node: Node,
        call: u8,
        leaves: Leaves,
    },
    /// One step of a checkpoint.
    Checkpoint(Node),
}
