//! What befalls nodes: crashes, restarts, checkpoints and stopped log writes.
ghost use Rattle.std.specs.Prelude.{◌≡◌, IfOk};
ghost use Rattle.co_message.specs.declared.event.Event.TheVariants as event;
ghost use Rattle.co_make.specs.Making.{node, at_node, left, armed, checked_or_armed};

use crate::maker::Maker;
use co_base::{Bytes, Leaves, Node};
use co_message::Event;
use std::alloc::AllocError;

impl Maker {
    /// One of the five nodes.
    #[tactic(auto, unfolding(crate::specs::Making::node))]
    fn node(&mut self) -> Node
        ensures { (result, self.new) ≡ node self.old }
    {
        let place = self.pick(5) as u8;
        if place < 3 {
            Node::Member(place + 1)
        } else {
            Node::Coord(place - 2)
        }
    }

    #[tactic(auto, unfolding(crate::specs::Making::at_node))]
    pub(crate) fn crash(&mut self) -> Event
        ensures { (result, self.new) ≡ at_node event.Crash self.old }
    {
        Event::Crash(self.node())
    }

    #[tactic(auto, unfolding(crate::specs::Making::at_node))]
    pub(crate) fn restart(&mut self) -> Event
        ensures { (result, self.new) ≡ at_node event.Restart self.old }
    {
        Event::Restart(self.node())
    }

    /// A step of a checkpoint, or a stop for the next log write of a node.
    #[tactic(auto, unfolding(crate::specs::Making::checked_or_armed, crate::specs::Making::at_node))]
    pub(crate) fn check_or_arm(&mut self) -> Result<Event, AllocError>
        ensures { IfOk result (λ e. (e, self.new) ≡ checked_or_armed self.old) }
    {
        if self.pick(2) == 0 {
            Ok(Event::Checkpoint(self.node()))
        } else {
            self.arm()
        }
    }

    #[tactic(auto, unfolding(crate::specs::Making::armed))]
    fn arm(&mut self) -> Result<Event, AllocError>
        ensures { IfOk result (λ e. (e, self.new) ≡ armed self.old) }
    {
        let node = self.node();
        let call = 1 + self.pick(4) as u8;
        let leaves = self.leaves()?;
        Ok(Event::Arm { node, call, leaves })
    }

    /// The image that a stopped write leaves.
    #[tactic(auto, unfolding(crate::specs::Making::left))]
    fn leaves(&mut self) -> Result<Leaves, AllocError>
        ensures { IfOk result (λ image. (image, self.new) ≡ left self.old) }
    {
        match self.pick(3) {
            0 => Ok(Leaves::Old),
            1 => Ok(Leaves::New),
            _ => {
                let byte = self.pick(256) as u8;
                let mut bytes = Vec::new(self.alloc);
                bytes.push(byte)?;
                Ok(Leaves::Filled(Bytes::of(bytes)))
            }
        }
    }
}
