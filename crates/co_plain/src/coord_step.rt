//! A step of one coordinator.
use crate::coord_state::CoordState;
use co_base::Marks;
use co_message::{Answer, Messages};

/// What an event at a coordinator leaves and tells.
#[derive(Drop)]
pub struct CoordStep {
    /// The coordinator afterwards.
    pub state: CoordState,
    /// The answer.
    pub answer: Answer,
    /// The messages that are sent, in their order.
    pub sent: Messages,
    /// The records that became stable.
    pub marks: Marks,
}
