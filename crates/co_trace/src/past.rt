//! What was noted before.
use std::snapshot::Snapshot;

/// What was noted, the newest last.
#[derive(Drop)]
pub(crate) enum Past<C> {
    /// Nothing was noted.
    Nothing,
    /// This was noted after what the snapshot remembers.
    Then(Snapshot<Past<C>>, C),
}
