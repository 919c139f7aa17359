//! The replies to operations.
use crate::rows::Rows;
use crate::sequence::Sequence;
use crate::value::Value;

/// What an operation answers.
#[derive(Drop)]
pub enum Reply {
    /// To a read: the value of the record, or none where there is no such record.
    Got(Option<Value>),
    /// To a scan: the records of the range.
    Rows(Rows),
    /// To a write or an erasure.
    Done,
}

/// A list of replies.
pub type Replies = Sequence<Reply>;
