//! Which events fit a head.
ghost use Rattle.std.specs.Prelude.{◌≡◌};
ghost use Rattle.co_check.specs.Shape.{is_member, is_coord, is_node, is_sendable, fits};

use co_base::{Head, Node};
use co_message::{Event, Message};

fn is_member(head: &Head, member: u8) -> bool
    ensures { result ≡ is_member head.now member }
{
    1 <= member && usize::from(member) <= head.kinds.len()
}

fn is_coord(head: &Head, coord: u8) -> bool
    ensures { result ≡ is_coord head.now coord }
{
    1 <= coord && coord <= head.coords
}

fn is_node(head: &Head, node: Node) -> bool
    ensures { result ≡ is_node head.now node }
{
    match node {
        Node::Member(member) => is_member(head, member),
        Node::Coord(coord) => is_coord(head, coord),
    }
}

fn is_sendable(head: &Head, message: Message) -> bool
    ensures { result ≡ is_sendable head.now message }
{
    match message {
        Message::Prepare { coord, member, .. }
        | Message::Vote { coord, member, .. }
        | Message::Decide { coord, member, .. }
        | Message::Ask { coord, member, .. }
        | Message::Ack { coord, member, .. } => is_coord(head, coord) && is_member(head, member),
    }
}

/// Whether every node that the event names is in the head.
pub(crate) fn fits(head: &Head, event: &Event) -> bool
    ensures { result ≡ fits head.now event.now }
{
    match event {
        Event::Begin { coord, .. } | Event::Resend { coord, .. } => is_coord(head, *coord),
        Event::Local { member, .. }
        | Event::Read { member, .. }
        | Event::Write { member, .. }
        | Event::Erase { member, .. }
        | Event::Scan { member, .. }
        | Event::Vote { member, .. }
        | Event::Ask { member, .. } => is_member(head, *member),
        Event::Commit { .. } | Event::Abort { .. } => true,
        Event::Deliver(message) => is_sendable(head, *message),
        Event::Timer { node, .. } | Event::Arm { node, .. } => is_node(head, *node),
        Event::Crash(node) | Event::Restart(node) | Event::Checkpoint(node) => is_node(head, *node),
    }
}
