//! What a coordinator's log tells.
use co_base::Bytes;
use co_state::Table;

/// The commits of a coordinator.
#[derive(Drop)]
pub struct CoordView {
    /// The commits without end, each with its participants.
    pub unended: Table<Bytes>,
    /// The numbers of all commits.
    pub seen: Table<()>,
}
