//! The answers to events.
use co_base::{Key, Node, Reply, Txn};

/// Why a transaction left the table of its coordinator without a commit.
#[derive(Clone, Copy)]
pub enum Cause {
    /// A participant voted no.
    Vote,
    /// The timer fired before the last vote.
    Timer,
    /// The client asked for it.
    Client,
}

/// What an event answers.
#[derive(Drop)]
pub enum Answer {
    /// The federation is open.
    Opened,
    /// The transaction is begun.
    Begun,
    /// The reply to an operation.
    Replied(Reply),
    /// A lock is in the way; the transaction is its least holder.
    Blocked(Txn),
    /// Operations of the transaction were lost at this member.
    Gone { kept: u16, carried: u16 },
    /// The member answered as many operations of the transaction as it may.
    TooMany,
    /// The member is the least participant without a yes.
    Waiting(u8),
    /// The transaction is decided commit; this acknowledges it.
    Committed,
    /// The transaction is over, by this cause.
    Aborted(Cause),
    /// The transaction is committed, and a participant has not acknowledged.
    Decided,
    /// The last acknowledgement came.
    Ended,
    /// The transaction is in the table, and its commit was not asked.
    Idle,
    /// The transaction is not in the table.
    Unknown,
    /// The member forced its prepare record and voted yes.
    Yes,
    /// The member votes no: it lost operations.
    NoLost { kept: u16, carried: u16 },
    /// The member votes no: this key was read and has been overwritten.
    NoStale(Key),
    /// The vote waits; the transaction is the least one in the way.
    Held(Txn),
    /// The transaction is voted here.
    Voted,
    /// The transaction was not asked to prepare.
    Unasked,
    /// The transaction is active here and has not voted.
    Unvoted,
    /// The transaction is installed here.
    Already,
    /// The transaction is not here.
    Absent,
    /// The transaction was installed.
    Installed,
    /// The transaction was dropped.
    Dropped,
    /// The transaction was kept because it voted.
    Kept,
    /// The question was sent.
    Asking,
    /// The node is down now.
    Crashed,
    /// The node is up again.
    Up,
    /// The node was up.
    Running,
    /// The stop is armed.
    Armed,
    /// The spare file was closed.
    Closed,
    /// The spare file was filled and is the current one, of this generation.
    Filled(u32),
    /// The node was stopped in this device call and is down.
    Stopped(u8),
    /// The number of the transaction is used up.
    Used,
    /// The transaction was not begun.
    NotBegun,
    /// The transaction was asked to end.
    Asked,
    /// The message was never sent.
    Unsent,
    /// The node is down.
    Down(Node),
}
