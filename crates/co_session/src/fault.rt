//! Why a client was refused.
use thiserror::Error;

/// Why a client may not begin a transaction, or act in it.
#[derive(Clone, Copy, Debug, PartialEq, Eq, Error)]
pub enum SessionFault {
    /// The number was begun in this run, or stands in an opened log.
    #[error("the number of the transaction is used up")]
    Used,
    /// The transaction was not begun in this run, or it is local to another member.
    #[error("the transaction was not begun")]
    NotBegun,
    /// The transaction was asked to end, and its deciding node answered.
    #[error("the transaction was asked to end")]
    Asked,
    /// As many numbers are begun or used up as there may be.
    #[error("too many transactions")]
    Count,
}
