//! Where a transcript stands between two of its lines.
ghost use Rattle.std.specs.Prelude.{◌≡◌};
ghost use Rattle.co_check.specs.Shape.{is_whole};

use co_base::{Head, Node, Sequence};
use co_message::Event;

/// Where a transcript stands between two of its lines.
#[derive(Drop)]
pub enum Place {
    /// Before the first line.
    AtFront,
    /// In the group of the head.
    InHead {
        /// The head.
        head: Head,
        /// The nodes whose header of generation 1 was told.
        seen: Sequence<Node>,
        /// Whether something was sent.
        sending: bool,
    },
    /// In the group of an event.
    InGroup {
        /// The head.
        head: Head,
        /// The number of the group.
        number: u32,
        /// The event.
        event: Event,
        /// Whether something was sent.
        sending: bool,
    },
    /// Behind a whole group.
    Behind {
        /// The head.
        head: Head,
        /// The number of the group.
        number: u32,
    },
}

impl Place {
    /// Whether the last group is whole.
    pub(crate) fn is_whole(&self) -> bool
        ensures { result ≡ is_whole self.now }
    {
        match self {
            Place::Behind { head: _, number: _ } => true,
            _ => false,
        }
    }
}
