//! The plain state of one coordinator.
use crate::log_state::LogState;
use co_base::{Bytes, Parts};
use co_state::Table;

/// What a coordinator knows of a transaction in its table.
#[derive(Drop)]
pub enum Entry {
    /// It was begun, and its client has not asked for the end.
    Idle,
    /// Its participants were asked to vote.
    Collecting {
        /// The participants, ascending by member, each with its count of operations.
        parts: Parts,
        /// The members that said yes, newest first.
        yeses: Bytes,
    },
    /// It is committed.
    Committed {
        /// The participants, ascending.
        members: Bytes,
        /// The members that acknowledged, newest first.
        acks: Bytes,
    },
}

/// The plain state of one coordinator.
#[derive(Drop)]
pub struct CoordState {
    /// Whether the coordinator runs.
    pub up: bool,
    /// Its transactions.
    pub table: Table<Entry>,
    /// Its log.
    pub log: LogState,
}
