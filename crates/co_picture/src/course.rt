//! What a picture has to know of the items before the one that it draws.
ghost use Rattle.std.specs.Prelude.{◌≡◌, ◌<◌, ◌≤◌, ◌+◌, ◌^◌, Some, option_map, find, filter, ◌==◌, IfOk, OnOk};
ghost use Rattle.co_base.specs.Nodes.{same_node};
ghost use Rattle.co_picture.specs.Course.{home_of, node_of, begun_by, without, falls, rises, homed, decides, after_event, after_mark, after_answer, after, at_first, is_at};

use crate::lane::{Lane, lane_of, receiver};
use co_base::{Mark, MarkKind, Node, Sequence, Txn};
use co_message::{Answer, Event, Item, ItemKind};
use std::alloc::{AllocError, Global};

/// The node where a transaction was begun, which decides it.
#[derive(Clone, Copy)]
pub struct Home {
    /// The transaction.
    pub txn: Txn,
    /// The node.
    pub node: Node,
}

/// What the items so far tell: the event of the group, the nodes where transactions were begun, the nodes that are down, and how many
/// transactions were decided to commit.
#[derive(Drop)]
pub struct Course {
    /// The lane of the event.
    pub lane: Lane,
    /// The node where it happens, where it is known.
    pub node: Option<Node>,
    /// The transaction that it begins, if it is a begin.
    pub begins: Option<Txn>,
    /// Where transactions were begun, the oldest one first.
    pub homes: Sequence<Home>,
    /// The nodes that are down.
    pub down: Sequence<Node>,
    /// How many transactions were decided to commit.
    pub decided: u64,
}

/// Whether two nodes are the same one.
pub fn same_node(one: Node, other: Node) -> bool
    ensures { result ≡ same_node one other }
{
    match (one, other) {
        (Node::Member(one), Node::Member(other)) | (Node::Coord(one), Node::Coord(other)) => {
            one == other
        }
        _ => false,
    }
}

/// The node where the transaction was begun.
fn home_of(homes: &[Home], txn: u32) -> Option<Node>
    ensures { result ≡ home_of homes.now txn }
{
    homes
        .iter()
        .find(|home| home.txn.0 == txn)
        .map(|home| home.node)
}

/// The node where an event happens, where it is known.
fn node_of(homes: &[Home], event: &Event) -> Option<Node>
    ensures { result ≡ node_of homes.now event.now }
{
    match event {
        Event::Begin { coord, .. } | Event::Resend { coord, .. } => Some(Node::Coord(*coord)),
        Event::Local { member, .. }
        | Event::Read { member, .. }
        | Event::Write { member, .. }
        | Event::Erase { member, .. }
        | Event::Scan { member, .. }
        | Event::Vote { member, .. }
        | Event::Ask { member, .. } => Some(Node::Member(*member)),
        Event::Commit { txn } | Event::Abort { txn } => home_of(homes, txn.0),
        Event::Deliver(message) => Some(receiver(*message)),
        Event::Timer { node, .. } | Event::Arm { node, .. } => Some(*node),
        Event::Crash(node) | Event::Restart(node) | Event::Checkpoint(node) => Some(*node),
    }
}

/// The transaction that an event begins.
fn begun_by(event: &Event) -> Option<Txn>
    ensures { result ≡ begun_by event.now }
{
    match event {
        Event::Begin { txn, .. } | Event::Local { txn, .. } => Some(*txn),
        _ => None,
    }
}

/// The nodes but this one.
fn without(alloc: Global, nodes: &[Node], node: Node) -> Result<Sequence<Node>, AllocError>
    ensures { IfOk result (λ left. left ≡ without nodes.now node) }
{
    let left = nodes
        .iter()
        .copied()
        .filter(|other| !same_node(*other, node))
        .collect(alloc)?;
    Ok(Sequence::of(left))
}

/// Whether this record decides a transaction to commit: it stands in the log of the node where the transaction was begun.
pub(crate) fn decides(homes: &[Home], mark: &Mark) -> bool
    ensures { result ≡ decides homes.now mark.now }
{
    match (mark.kind, home_of(homes, mark.number)) {
        (MarkKind::Commit, Some(node)) => same_node(node, mark.node),
        _ => false,
    }
}

impl Course {
    /// Nothing was told.
    pub fn new(alloc: Global) -> Course
        ensures { result ≡ at_first }
    {
        Course {
            lane: Lane::Front,
            node: None,
            begins: None,
            homes: Sequence::new(alloc),
            down: Sequence::new(alloc),
            decided: 0,
        }
    }

    /// An event begins a group.
    fn event(&mut self, event: &Event)
        ensures { self.new ≡ after_event self.old event.now }
    {
        self.lane = lane_of(event);
        self.node = node_of(self.homes.as_slice(), event);
        self.begins = begun_by(event);
    }

    /// A record became stable.
    fn mark(&mut self, mark: &Mark)
        requires { self.old.decided + 1 < 2 ^ 64 }
        ensures { self.new ≡ after_mark self.old mark.now }
    {
        if decides(self.homes.as_slice(), mark) {
            self.decided += 1;
        }
    }

    /// The transaction of the event is begun at its node.
    fn begun(&mut self) -> Result<(), AllocError>
        ensures { OnOk result (self.new ≡ record self.old { homes = homed self.old.homes self.old.begins self.old.node }) }
    {
        if let (Some(txn), Some(node)) = (self.begins, self.node) {
            self.homes.push(Home { txn, node })?;
        }
        Ok(())
    }

    /// The node of the event is up.
    fn up(&mut self, alloc: Global) -> Result<(), AllocError>
        ensures { OnOk result (self.new ≡ record self.old { down = rises self.old.down self.old.node }) }
    {
        if let Some(node) = self.node {
            self.down = without(alloc, self.down.as_slice(), node)?;
        }
        Ok(())
    }

    /// The node of the event is down.
    fn down(&mut self, alloc: Global) -> Result<(), AllocError>
        ensures { OnOk result (self.new ≡ record self.old { down = falls self.old.down self.old.node }) }
    {
        if let Some(node) = self.node {
            let mut down = without(alloc, self.down.as_slice(), node)?;
            down.push(node)?;
            self.down = down;
        }
        Ok(())
    }

    /// An answer ends a group.
    fn answer(&mut self, alloc: Global, answer: &Answer) -> Result<(), AllocError>
        ensures { OnOk result (self.new ≡ after_answer self.old answer.now) }
    {
        match answer {
            Answer::Begun => self.begun(),
            Answer::Up => self.up(alloc),
            Answer::Crashed | Answer::Stopped(_) => self.down(alloc),
            _ => Ok(()),
        }
    }

    /// One more item.
    pub fn item(&mut self, alloc: Global, item: &Item) -> Result<(), AllocError>
        requires { self.old.decided + 1 < 2 ^ 64 }
        ensures ok { OnOk result (self.new ≡ after self.old item.now.what) }
        ensures few { OnOk result (self.new.decided ≤ self.old.decided + 1) }
    {
        match &item.what {
            ItemKind::Event(event) => {
                self.event(event);
                Ok(())
            }
            ItemKind::Log(mark) => {
                self.mark(mark);
                Ok(())
            }
            ItemKind::Answered(answer) => self.answer(alloc, answer),
            ItemKind::Head(_) | ItemKind::Sent(_) => Ok(()),
        }
    }
}
