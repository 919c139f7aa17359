//! The nodes of a federation, in their order.
ghost use Rattle.std.specs.Prelude.{◌≡◌, IfOk};
ghost use Rattle.co_durable.specs.Nodes.{member_nodes, coord_nodes};

use co_base::Node;
use std::alloc::{AllocError, Global};

/// So many members, from the first one on.
pub(crate) fn member_nodes(alloc: Global, count: u8) -> Result<Vec<Node>, AllocError>
    ensures { IfOk result (λ nodes. nodes.items ≡ member_nodes count) }
{
    let mut nodes = Vec::new(alloc);
    for place in 0..count {
        nodes.push(Node::Member(place + 1))?;
    }
    Ok(nodes)
}

/// So many coordinators, from the first one on.
pub(crate) fn coord_nodes(alloc: Global, count: u8) -> Result<Vec<Node>, AllocError>
    ensures { IfOk result (λ nodes. nodes.items ≡ coord_nodes count) }
{
    let mut nodes = Vec::new(alloc);
    for place in 0..count {
        nodes.push(Node::Coord(place + 1))?;
    }
    Ok(nodes)
}
