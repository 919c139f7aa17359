//! What an event at a member tells.
use co_base::Marks;
use co_message::{Answer, Message};

/// What an event at a member tells.
#[derive(Drop)]
pub struct MemberStep {
    /// The answer.
    pub answer: Answer,
    /// The message that is sent.
    pub sent: Option<Message>,
    /// The records that became stable.
    pub marks: Marks,
}
