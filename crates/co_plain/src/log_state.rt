//! The log of one node, as records.
use co_base::Stop;
use co_record::Record;
use co_state::History;

/// The log of one node.
#[derive(Drop)]
pub struct LogState {
    /// The records that a crash leaves, newest first.
    pub stable: History<Record>,
    /// The records that go out with the next forced one, newest first. A crash loses them.
    pub waiting: History<Record>,
    /// The armed stop.
    pub armed: Option<Stop>,
    /// Whether the spare file is closed, so that it may be filled.
    pub spare_closed: bool,
}
