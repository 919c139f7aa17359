//! Lines, and the looks of lines and of texts.
/// The looks of a line.
#[derive(Clone, Copy)]
pub enum Stroke {
    /// The life line of a lane.
    Life,
    /// A node that is down.
    Down,
    /// A client asks a node.
    Call,
    /// A message from its sending to its arrival.
    Message,
    /// A message that arrives and was not sent.
    Stub,
}

/// The looks of a text.
#[derive(Clone, Copy)]
pub enum Style {
    /// The title of a lane.
    Title,
    /// The number of a line of the schedule.
    Number,
    /// An event.
    Event,
    /// A record.
    Record,
    /// A message that is sent.
    Sending,
    /// An answer.
    Answer,
}

/// A line between two points, in pixels from the left and from the upper edge.
#[derive(Clone, Copy)]
pub struct Line {
    /// How it looks.
    pub stroke: Stroke,
    /// Where it begins.
    pub x1: u64,
    /// Where it begins.
    pub y1: u64,
    /// Where it ends.
    pub x2: u64,
    /// Where it ends.
    pub y2: u64,
}
