//! Calls of an engine as data.
use crate::answers::Seen;
use co_base::{Key, Range, Sequence, Txn, Value};

/// A call of an engine.
#[derive(Drop)]
pub enum Command {
    /// Reads one record.
    Read {
        /// The transaction.
        txn: Txn,
        /// The name of the record.
        key: Key,
    },
    /// Reads the records of a range.
    Scan {
        /// The transaction.
        txn: Txn,
        /// The range.
        range: Range,
    },
    /// Writes one record, or takes it away.
    Write {
        /// The transaction.
        txn: Txn,
        /// The name of the record.
        key: Key,
        /// What it holds afterwards; no value takes it away.
        value: Option<Value>,
    },
    /// Makes an active transaction a voted one.
    Cast(Txn),
    /// Commits a voted transaction.
    Install(Txn),
    /// Forgets an active or voted transaction.
    Drop(Txn),
}

/// What a command comes to.
#[derive(Drop)]
pub enum Played {
    /// What an operation came to.
    Seen(Seen),
    /// The call was made.
    Done,
    /// The condition of the call is not met, and nothing is changed.
    Refused,
}

/// What commands come to, one for each.
pub type Answers = Sequence<Played>;
