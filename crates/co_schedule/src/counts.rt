//! How many nodes a line may name.
ghost use Rattle.std.specs.Prelude.{◌≡◌, length};

use co_base::{Head, MOST_COORDINATORS, MOST_MEMBERS};

/// How many members and how many coordinators a federation has.
#[derive(Clone, Copy)]
pub struct NodeCounts {
    /// The count of members, at most `MOST_MEMBERS`.
    pub members: u8,
    /// The count of coordinators, at most `MOST_COORDINATORS`.
    pub coords: u8,
}

impl NodeCounts {
    /// The most that a federation has.
    pub const MOST: NodeCounts = NodeCounts {
        members: MOST_MEMBERS,
        coords: MOST_COORDINATORS,
    };

    /// The nodes of this head.
    pub fn of(head: &Head) -> NodeCounts
        ensures members { result.members ≡ length head.now.kinds }
        ensures coords { result.coords ≡ head.now.coords }
    {
        NodeCounts {
            members: head.kinds.len() as u8,
            coords: head.coords,
        }
    }
}
