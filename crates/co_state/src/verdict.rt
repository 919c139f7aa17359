//! What the voting rule says.
use co_base::{Key, Txn};

/// What the voting rule says of a transaction at a member.
#[derive(Drop)]
pub enum Verdict {
    /// No: operations were lost here.
    LostOperations,
    /// No: this key was read and has been overwritten.
    StaleRead(Key),
    /// Not yet: this transaction is in the way.
    HeldBy(Txn),
    /// Yes.
    VoteYes,
}
