//! Where the items of a transcript stand in its table.
ghost use Rattle.std.specs.Prelude.{◌≡◌, ◌++◌, IfOk};
ghost use Rattle.co_picture.specs.Picture.{head_of};
ghost use Rattle.co_table.specs.Place.{coords_to, members_to, nodes_of, has_node, place_of_node, place_of_answer, place_of, is_front, same_place};

use co_base::Node;
use co_message::{Answer, Item, ItemKind};
use co_picture::{Course, same_node, sender};
use std::alloc::{AllocError, Global};

/// Where an item stands in a table.
#[derive(Clone, Copy)]
pub enum Place {
    /// At the front of a row, as its event.
    Front,
    /// Beside the event of its row: it has no column.
    Beside,
    /// In its row, in the column of this node.
    At(Node),
    /// Nowhere: the row of the head says that the federation is open.
    Nowhere,
}

impl Place {
    /// Whether a row begins there.
    pub(crate) fn is_front(self) -> bool
        ensures { result ≡ is_front self }
    {
        matches!(self, Place::Front)
    }

    /// Whether an item of the other place stands in the cell of this one.
    pub(crate) fn has(self, other: Place) -> bool
        ensures { result ≡ same_place self other }
    {
        match (self, other) {
            (Place::Beside, Place::Beside) => true,
            (Place::At(node), Place::At(other)) => same_node(node, other),
            _ => false,
        }
    }
}

/// So many coordinators, and so many members.
fn nodes_to(alloc: Global, coords: u8, members: u8) -> Result<Vec<Node>, AllocError>
    ensures { IfOk result (λ nodes. nodes.items ≡ coords_to coords ++ members_to members) }
{
    let mut nodes = Vec::new(alloc);
    for number in 0..coords {
        nodes.push(Node::Coord(number + 1))?;
    }
    for number in 0..members {
        nodes.push(Node::Member(number + 1))?;
    }
    Ok(nodes)
}

/// The nodes of the head of a transcript: coordinators, then members.
pub(crate) fn nodes_of(alloc: Global, items: &[Item]) -> Result<Vec<Node>, AllocError>
    ensures { IfOk result (λ nodes. nodes.items ≡ nodes_of (head_of items.now)) }
{
    match items {
        [
            Item {
                what: ItemKind::Head(head),
                ..
            },
            ..
        ] => nodes_to(alloc, head.coords, head.kinds.len() as u8),
        _ => Ok(Vec::new(alloc)),
    }
}

/// Whether the node is among them.
fn has_node(nodes: &[Node], node: Node) -> bool
    ensures { result ≡ has_node nodes.now node }
{
    nodes.iter().any(|other| same_node(*other, node))
}

/// The column of a node, or beside the event where it has none.
fn place_of_node(nodes: &[Node], node: Node) -> Place
    ensures { result ≡ place_of_node nodes.now node }
{
    if has_node(nodes, node) {
        Place::At(node)
    } else {
        Place::Beside
    }
}

/// The place of an answer: that of the node where the event happened.
fn place_of_answer(nodes: &[Node], course: &Course, answer: &Answer) -> Place
    ensures { result ≡ place_of_answer nodes.now course.now answer.now }
{
    match (answer, course.node) {
        (Answer::Opened, _) => Place::Nowhere,
        (_, Some(node)) => place_of_node(nodes, node),
        (_, None) => Place::Beside,
    }
}

/// The place of an item behind those that tell this.
pub(crate) fn place_of(nodes: &[Node], course: &Course, what: &ItemKind) -> Place
    ensures { result ≡ place_of nodes.now course.now what.now }
{
    match what {
        ItemKind::Head(_) | ItemKind::Event(_) => Place::Front,
        ItemKind::Log(mark) => place_of_node(nodes, mark.node),
        ItemKind::Sent(message) => place_of_node(nodes, sender(*message)),
        ItemKind::Answered(answer) => place_of_answer(nodes, course, answer),
    }
}
