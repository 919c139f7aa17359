//! The two sorts of nodes.
ghost use Rattle.std.specs.Prelude.{◌≡◌};
ghost use Rattle.co_opening.specs.Sorts.{node_in};

use co_base::Node;

/// Members or coordinators.
#[derive(Clone, Copy)]
pub(crate) enum Sort {
    /// Members stand before coordinators.
    Members,
    /// Coordinators.
    Coords,
}

impl Sort {
    /// The node of this sort with a number.
    pub(crate) fn node(self, number: u8) -> Node
        ensures { result ≡ node_in self number }
    {
        match self {
            Sort::Members => Node::Member(number),
            Sort::Coords => Node::Coord(number),
        }
    }
}
