//! The plain state of one member.
use crate::log_state::LogState;
use co_state::{EngineState, Table};

/// What a prepare asked a member for that could not vote at once.
#[derive(Clone, Copy)]
pub struct AskedMark {
    /// The coordinator that asked.
    pub coord: u8,
    /// How many operations the client saw answered here.
    pub count: u16,
}

/// The plain state of one member.
#[derive(Drop)]
pub struct MemberState {
    /// Whether the member runs.
    pub up: bool,
    /// Its records and transactions.
    pub engine: EngineState,
    /// The transactions that it installed, in this run or an earlier one.
    pub committed: Table<()>,
    /// The active transactions that it was asked to vote on.
    pub asked: Table<AskedMark>,
    /// Its log.
    pub log: LogState,
}
