//! What checking a transcript gives.
use crate::client::Committed;
use co_base::{Reply, Txn};
use co_serial::SerialMap;
use co_state::History;

/// Whether the committed transactions read what the serial run reads.
#[derive(Drop)]
pub enum Verdict {
    /// All of them do.
    Serial {
        /// How many transactions are committed.
        transactions: u32,
        /// The records that their serial run leaves.
        map: SerialMap,
    },
    /// One does not; it is the first in the order of the decisions.
    Differs {
        /// The transaction.
        txn: Txn,
        /// The number of the event of its first operation that differs.
        line: u32,
        /// What the transcript says that it was answered.
        told: Reply,
        /// What the serial run answers.
        serial: Reply,
    },
}

/// What a transcript ends with.
#[derive(Drop)]
pub struct Ending {
    /// Whether the committed transactions read what the serial run reads.
    pub verdict: Verdict,
    /// The committed transactions, newest first, where they were kept.
    pub kept: Option<History<Committed>>,
}
