//! The items of a transcript.
use crate::answer::Answer;
use crate::event::Event;
use crate::message::Message;
use co_base::{Head, Mark, Sequence};

/// One line of a transcript.
#[derive(Drop)]
pub struct Item {
    /// The number of the schedule line that it belongs to.
    pub number: u32,
    /// What it tells.
    pub what: ItemKind,
}

/// What an item tells.
#[derive(Drop)]
pub enum ItemKind {
    /// The head of the schedule.
    Head(Head),
    /// An event.
    Event(Event),
    /// A record became stable.
    Log(Mark),
    /// A message was sent.
    Sent(Message),
    /// The answer to the event.
    Answered(Answer),
}

/// A list of items.
pub type Items = Sequence<Item>;
