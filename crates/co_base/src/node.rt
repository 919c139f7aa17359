//! The nodes of a federation.
ghost use Rattle.std.specs.Prelude.{◌≡◌, ◌≢◌, ◌↔◌, IsNone, IfSome};
ghost use Rattle.co_base.specs.declared.node.Node.{Node};
ghost use Rattle.co_base.specs.Nodes.{IsValidNode, node_byte};

/// A member, numbered 1 to 16, or a coordinator, numbered 1 to 8.
///
/// Members stand before coordinators, and each by its number.
#[derive(Clone, Copy, Debug, PartialEq, Eq)]
pub enum Node {
    /// The member of this number.
    Member(u8),
    /// The coordinator of this number.
    Coord(u8),
}

impl Node {
    /// The byte that stands for the node in a log: its number, and 128 more for a coordinator.
    pub fn byte(&self) -> u8
        requires { IsValidNode self.now }
        ensures { result ≡ node_byte self.now }
    {
        match *self {
            Node::Member(number) => number,
            Node::Coord(number) => 0x80 + number,
        }
    }

    /// The valid node that this byte stands for, where there is one.
    pub fn of_byte(byte: u8) -> Option<Node>
        ensures found { IfSome result (λ node. IsValidNode node × (node_byte node ≡ byte)) }
        ensures none { IsNone result ↔ ((node : Node) → IsValidNode node → node_byte node ≢ byte) }
    {
        match byte {
            0x01..=0x10 => Some(Node::Member(byte)),
            0x81..=0x88 => Some(Node::Coord(byte - 0x80)),
            _ => None,
        }
    }
}
