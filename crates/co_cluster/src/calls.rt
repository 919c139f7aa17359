//! What is asked of a node.
use co_base::{Leaves, Parts, Txn};
use co_message::Message;

/// What is asked of a member, but operations.
#[derive(Drop)]
pub enum MemberCall {
    /// A message comes.
    Deliver(Message),
    /// A held vote is tried again.
    Vote(Txn),
    /// The timer of a transaction fires.
    Timer(Txn),
    /// A member in doubt asks.
    Ask(Txn),
    /// The client of a local transaction asks for the commit, and carries how many operations it saw answered.
    LocalCommit { txn: Txn, carried: u16 },
    /// The client of a local transaction asks for the abort.
    LocalAbort(Txn),
    /// The member stops between two log writes.
    Crash,
    /// The member starts again from its log.
    Restart,
    /// Its next log write stops in this device call and leaves this image.
    Arm { call: u8, leaves: Leaves },
    /// One step of a checkpoint.
    Checkpoint,
}

/// What is asked of a coordinator.
#[derive(Drop)]
pub enum CoordCall {
    /// A client begins.
    Begin(Txn),
    /// A client asks for the commit, with the participants of its session.
    Commit { txn: Txn, parts: Parts },
    /// A client asks for the abort, with the participants of its session.
    Abort { txn: Txn, parts: Parts },
    /// A message comes.
    Deliver(Message),
    /// The timer of a transaction fires.
    Timer(Txn),
    /// What was not answered is sent again.
    Resend(Txn),
    /// The coordinator stops between two log writes.
    Crash,
    /// The coordinator starts again from its log.
    Restart,
    /// Its next log write stops in this device call and leaves this image.
    Arm { call: u8, leaves: Leaves },
    /// One step of a checkpoint.
    Checkpoint,
}
