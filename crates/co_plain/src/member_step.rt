//! A step of one member.
use crate::member_state::MemberState;
use co_base::Marks;
use co_message::{Answer, Message};

/// What an event at a member leaves and tells.
#[derive(Drop)]
pub struct MemberStep {
    /// The member afterwards.
    pub state: MemberState,
    /// The answer.
    pub answer: Answer,
    /// The message that is sent.
    pub sent: Option<Message>,
    /// The records that became stable.
    pub marks: Marks,
}
