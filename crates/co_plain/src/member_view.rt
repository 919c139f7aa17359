//! What a member holds, as its memory has it or as its log tells it.
use co_serial::RecordMap;
use co_state::{Table, Vote};

/// The records of a member with its voted and committed transactions.
#[derive(Drop)]
pub struct MemberView {
    /// The installed records.
    pub records: RecordMap,
    /// The voted transactions.
    pub voted: Table<Vote>,
    /// The transactions that are committed here.
    pub committed: Table<()>,
}
