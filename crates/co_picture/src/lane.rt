//! The lanes of a picture.
ghost use Rattle.std.specs.Prelude.{◌≡◌};
ghost use Rattle.co_picture.specs.Lanes.{sender, receiver, lane_of, rank};

use co_base::{Node, Txn};
use co_message::{Event, Message};

/// Where an item of a transcript is drawn.
#[derive(Clone, Copy)]
pub enum Lane {
    /// At the left edge, with the numbers of the lines.
    Front,
    /// In the lane of the client of this transaction.
    Client(Txn),
    /// In the lane of this node.
    At(Node),
}

impl Lane {
    /// A number that stands for the lane. Lanes stand in its order: clients, coordinators, members.
    pub(crate) fn rank(&self) -> u64
        ensures { result ≡ rank self.now }
    {
        match self {
            Lane::Front => 0,
            Lane::Client(txn) => u64::from(txn.0) + 1,
            Lane::At(Node::Coord(number)) => 4_294_967_300 + u64::from(*number),
            Lane::At(Node::Member(number)) => 4_294_967_600 + u64::from(*number),
        }
    }
}

/// The node that a message comes from.
pub fn sender(message: Message) -> Node
    ensures { result ≡ sender message }
{
    match message {
        Message::Prepare { coord, .. } | Message::Decide { coord, .. } => Node::Coord(coord),
        Message::Vote { member, .. } | Message::Ask { member, .. } | Message::Ack { member, .. } =>
            { Node::Member(member) }
    }
}

/// The node that a message goes to.
pub fn receiver(message: Message) -> Node
    ensures { result ≡ receiver message }
{
    match message {
        Message::Prepare { member, .. } | Message::Decide { member, .. } => Node::Member(member),
        Message::Vote { coord, .. } | Message::Ask { coord, .. } | Message::Ack { coord, .. } => {
            Node::Coord(coord)
        }
    }
}

/// The lane of an event: that of the client that asks for it, or of the node where it happens.
pub(crate) fn lane_of(event: &Event) -> Lane
    ensures { result ≡ lane_of event.now }
{
    match event {
        Event::Begin { txn, .. }
        | Event::Local { txn, .. }
        | Event::Read { txn, .. }
        | Event::Write { txn, .. }
        | Event::Erase { txn, .. }
        | Event::Scan { txn, .. }
        | Event::Commit { txn }
        | Event::Abort { txn } => Lane::Client(*txn),
        Event::Deliver(message) => Lane::At(receiver(*message)),
        Event::Vote { member, .. } | Event::Ask { member, .. } => Lane::At(Node::Member(*member)),
        Event::Resend { coord, .. } => Lane::At(Node::Coord(*coord)),
        Event::Timer { node, .. } | Event::Arm { node, .. } => Lane::At(*node),
        Event::Crash(node) | Event::Restart(node) | Event::Checkpoint(node) => Lane::At(*node),
    }
}
