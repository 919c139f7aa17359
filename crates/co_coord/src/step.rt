//! What an event at a coordinator tells.
use co_base::Marks;
use co_message::{Answer, Messages};

/// What an event at a coordinator tells.
#[derive(Drop)]
pub struct CoordStep {
    /// The answer.
    pub answer: Answer,
    /// The messages that are sent, in their order.
    pub sent: Messages,
    /// The records that became stable.
    pub marks: Marks,
}
