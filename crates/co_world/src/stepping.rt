//! One event of a schedule line.
ghost use Rattle.std.specs.Prelude.{◌≡◌, ◌≤◌, length, IfOk, IfErr, IsErrOf, OnOk, ◌↔◌};
ghost use Rattle.co_base.specs.declared.op.Op.TheVariants as op;
ghost use Rattle.co_outside.specs.Home.{HomeView};
ghost use Rattle.co_plain.specs.Federation.{Federation};
ghost use Rattle.co_plain.specs.Runs.{numbered};
ghost use Rattle.co_plain.specs.Step.{operate, deliver, timer_at, crash_at, restart_at, arm_at, checkpoint_at, step_line};
ghost use Rattle.co_schedule.specs.View.{IsEventFor, IsMessageFor, IsNode};
ghost use Rattle.co_world.specs.Calls.{receiver};
ghost use Rattle.co_cluster.specs.Conditions.{IsReady};
ghost use Rattle.co_world.specs.Counting.{MeetsLimit, MeetsPlainLimit};
ghost use Rattle.co_world.specs.Standing.{RepresentsWorld, AreHeld};
ghost use Rattle.co_world.specs.Answered.{AnswersEvent};
ghost use Rattle.co_opening.specs.Rest.{OnlyOwnFilesChange};
ghost use Rattle.co_world.specs.Pins.{PinsStay};

use crate::clients::Ending;
use crate::world::World;
use co_base::{Key, Leaves, Node, Op, Range, Txn, Value, copy_bytes};
use co_cluster::{CoordCall, MemberCall};
use co_durable::WorldFault;
use co_engine::Engine;
use co_message::{Answer, Event, Items, Message};
use co_outside::Home;
use std::alloc::{AllocError, Global};

/// An equal choice of a crash image.
fn copy_leaves(alloc: Global, leaves: &Leaves) -> Result<Leaves, AllocError>
    ensures { IfOk result (λ copy. copy ≡ leaves.now) }
{
    match leaves {
        Leaves::Old => Ok(Leaves::Old),
        Leaves::New => Ok(Leaves::New),
        Leaves::Filled(bytes) => Ok(Leaves::Filled(copy_bytes(alloc, bytes.as_slice())?)),
    }
}

/// The node that a message goes to.
fn receiver(message: &Message) -> Node
    ensures { result ≡ receiver message.now }
{
    match message {
        Message::Prepare { member, .. } | Message::Decide { member, .. } => Node::Member(*member),
        Message::Vote { coord, .. } | Message::Ask { coord, .. } | Message::Ack { coord, .. } => {
            Node::Coord(*coord)
        }
    }
}

impl<E: Engine + Drop> World<E> {
    /// A client reads a record.
    fn reads(&mut self, number: u32, t: Txn, member: u8, key: &Key) -> Result<Items, WorldFault>
        requires in_head { (1 ≤ member) × (member ≤ length self.old.cluster.members.items) }
        requires stands { (s : Federation) × RepresentsWorld E.takes E.stands_for self.old s × IsReady s }
        ensures items { (s : Federation) → RepresentsWorld E.takes E.stands_for self.old s → IsReady s → IfOk result (λ items. items ≡ numbered number (operate s t member (op.Read key.now)).items) }
        ensures stands { (s : Federation) → RepresentsWorld E.takes E.stands_for self.old s → IsReady s → OnOk result (RepresentsWorld E.takes E.stands_for self.new (operate s t member (op.Read key.now)).state) }
        ensures held { (home : HomeView) → AreHeld home self.old → OnOk result (AreHeld home self.new) }
        ensures memory { IfErr result (λ fault. fault ≡ WorldFault.Memory) }
        ensures pins { PinsStay E.pins self.old self.new }
    {
        self.operate(number, t, member, Op::Read(key.copy()?))
    }

    /// A client writes a record.
    fn writes(
        &mut self,
        number: u32,
        t: Txn,
        member: u8,
        key: &Key,
        value: &Value,
    ) -> Result<Items, WorldFault>
        requires in_head { (1 ≤ member) × (member ≤ length self.old.cluster.members.items) }
        requires stands { (s : Federation) × RepresentsWorld E.takes E.stands_for self.old s × IsReady s }
        ensures items { (s : Federation) → RepresentsWorld E.takes E.stands_for self.old s → IsReady s → IfOk result (λ items. items ≡ numbered number (operate s t member (op.Write key.now value.now)).items) }
        ensures stands { (s : Federation) → RepresentsWorld E.takes E.stands_for self.old s → IsReady s → OnOk result (RepresentsWorld E.takes E.stands_for self.new (operate s t member (op.Write key.now value.now)).state) }
        ensures held { (home : HomeView) → AreHeld home self.old → OnOk result (AreHeld home self.new) }
        ensures memory { IfErr result (λ fault. fault ≡ WorldFault.Memory) }
        ensures pins { PinsStay E.pins self.old self.new }
    {
        self.operate(number, t, member, Op::Write(key.copy()?, value.copy()?))
    }

    /// A client takes a record away.
    fn erases(&mut self, number: u32, t: Txn, member: u8, key: &Key) -> Result<Items, WorldFault>
        requires in_head { (1 ≤ member) × (member ≤ length self.old.cluster.members.items) }
        requires stands { (s : Federation) × RepresentsWorld E.takes E.stands_for self.old s × IsReady s }
        ensures items { (s : Federation) → RepresentsWorld E.takes E.stands_for self.old s → IsReady s → IfOk result (λ items. items ≡ numbered number (operate s t member (op.Erase key.now)).items) }
        ensures stands { (s : Federation) → RepresentsWorld E.takes E.stands_for self.old s → IsReady s → OnOk result (RepresentsWorld E.takes E.stands_for self.new (operate s t member (op.Erase key.now)).state) }
        ensures held { (home : HomeView) → AreHeld home self.old → OnOk result (AreHeld home self.new) }
        ensures memory { IfErr result (λ fault. fault ≡ WorldFault.Memory) }
        ensures pins { PinsStay E.pins self.old self.new }
    {
        self.operate(number, t, member, Op::Erase(key.copy()?))
    }

    /// A client reads the records of a range.
    fn scans(&mut self, number: u32, t: Txn, member: u8, range: &Range) -> Result<Items, WorldFault>
        requires in_head { (1 ≤ member) × (member ≤ length self.old.cluster.members.items) }
        requires stands { (s : Federation) × RepresentsWorld E.takes E.stands_for self.old s × IsReady s }
        ensures items { (s : Federation) → RepresentsWorld E.takes E.stands_for self.old s → IsReady s → IfOk result (λ items. items ≡ numbered number (operate s t member (op.Scan range.now)).items) }
        ensures stands { (s : Federation) → RepresentsWorld E.takes E.stands_for self.old s → IsReady s → OnOk result (RepresentsWorld E.takes E.stands_for self.new (operate s t member (op.Scan range.now)).state) }
        ensures held { (home : HomeView) → AreHeld home self.old → OnOk result (AreHeld home self.new) }
        ensures memory { IfErr result (λ fault. fault ≡ WorldFault.Memory) }
        ensures pins { PinsStay E.pins self.old self.new }
    {
        self.operate(number, t, member, Op::Scan(range.copy()?))
    }

    /// A message is delivered to the node that it names, where it was sent.
    fn deliver<H: Home>(
        &mut self,
        home: &mut H,
        number: u32,
        message: Message,
    ) -> Result<Items, WorldFault>
        requires in_head { IsMessageFor (length self.old.cluster.members.items) (length self.old.cluster.coords.items) message }
        requires held { AreHeld (H.seen home.old) self.old }
        requires stands { (s : Federation) × RepresentsWorld E.takes E.stands_for self.old s × IsReady s }
        ensures count { IsErrOf result WorldFault.Count → ⊥ }
        ensures answered { (s : Federation) → RepresentsWorld E.takes E.stands_for self.old s → IsReady s →
            AnswersEvent E.takes E.stands_for number (λ z. deliver z message) s self.new (H.seen home.old) (H.seen home.new) result }
        ensures rest { OnlyOwnFilesChange (length self.old.cluster.members.items) (length self.old.cluster.coords.items) (H.seen home.old) (H.seen home.new) }
        ensures pins { PinsStay E.pins self.old self.new }
    {
        match self.wire.get(&message) {
            Ok(()) => match receiver(&message) {
                Node::Member(member) => {
                    self.at_member(home, number, member, MemberCall::Deliver(message))
                }
                Node::Coord(coord) => {
                    self.at_coord(home, number, coord, CoordCall::Deliver(message))
                }
            },
            Err(_) => self.answers(number, Answer::Unsent),
        }
    }

    /// The timer of a transaction fires at a node.
    fn timer<H: Home>(
        &mut self,
        home: &mut H,
        number: u32,
        t: Txn,
        node: Node,
    ) -> Result<Items, WorldFault>
        requires in_head { IsNode (length self.old.cluster.members.items) (length self.old.cluster.coords.items) node }
        requires held { AreHeld (H.seen home.old) self.old }
        requires stands { (s : Federation) × RepresentsWorld E.takes E.stands_for self.old s × IsReady s }
        ensures count { IsErrOf result WorldFault.Count → ⊥ }
        ensures answered { (s : Federation) → RepresentsWorld E.takes E.stands_for self.old s →
            AnswersEvent E.takes E.stands_for number (λ z. timer_at z t node) s self.new (H.seen home.old) (H.seen home.new) result }
        ensures rest { OnlyOwnFilesChange (length self.old.cluster.members.items) (length self.old.cluster.coords.items) (H.seen home.old) (H.seen home.new) }
        ensures pins { PinsStay E.pins self.old self.new }
    {
        match node {
            Node::Member(member) => self.at_member(home, number, member, MemberCall::Timer(t)),
            Node::Coord(coord) => self.at_coord(home, number, coord, CoordCall::Timer(t)),
        }
    }

    /// A node stops between two log writes.
    fn crash<H: Home>(&mut self, home: &mut H, number: u32, node: Node) -> Result<Items, WorldFault>
        requires in_head { IsNode (length self.old.cluster.members.items) (length self.old.cluster.coords.items) node }
        requires held { AreHeld (H.seen home.old) self.old }
        requires stands { (s : Federation) × RepresentsWorld E.takes E.stands_for self.old s × IsReady s }
        ensures count { IsErrOf result WorldFault.Count → ⊥ }
        ensures answered { (s : Federation) → RepresentsWorld E.takes E.stands_for self.old s →
            AnswersEvent E.takes E.stands_for number (λ z. crash_at z node) s self.new (H.seen home.old) (H.seen home.new) result }
        ensures rest { OnlyOwnFilesChange (length self.old.cluster.members.items) (length self.old.cluster.coords.items) (H.seen home.old) (H.seen home.new) }
        ensures pins { PinsStay E.pins self.old self.new }
    {
        match node {
            Node::Member(member) => self.at_member(home, number, member, MemberCall::Crash),
            Node::Coord(coord) => self.at_coord(home, number, coord, CoordCall::Crash),
        }
    }

    /// A restart is answered by a node that is down too.
    fn restart<H: Home>(
        &mut self,
        home: &mut H,
        number: u32,
        node: Node,
    ) -> Result<Items, WorldFault>
        requires in_head { IsNode (length self.old.cluster.members.items) (length self.old.cluster.coords.items) node }
        requires held { AreHeld (H.seen home.old) self.old }
        requires stands { (s : Federation) × RepresentsWorld E.takes E.stands_for self.old s × IsReady s }
        ensures count { IsErrOf result WorldFault.Count → ⊥ }
        ensures answered { (s : Federation) → RepresentsWorld E.takes E.stands_for self.old s →
            AnswersEvent E.takes E.stands_for number (λ z. restart_at z node) s self.new (H.seen home.old) (H.seen home.new) result }
        ensures rest { OnlyOwnFilesChange (length self.old.cluster.members.items) (length self.old.cluster.coords.items) (H.seen home.old) (H.seen home.new) }
        ensures pins { PinsStay E.pins self.old self.new }
    {
        match node {
            Node::Member(member) => {
                let did = self.member_does(home, member, MemberCall::Restart)?;
                self.tells_of_member(number, did)
            }
            Node::Coord(coord) => {
                let did = self.coord_does(home, coord, CoordCall::Restart)?;
                self.tells_of_coord(number, did)
            }
        }
    }

    /// The next log write of a node is to stop.
    fn arm<H: Home>(
        &mut self,
        home: &mut H,
        number: u32,
        node: Node,
        call: u8,
        leaves: &Leaves,
    ) -> Result<Items, WorldFault>
        requires in_head { IsNode (length self.old.cluster.members.items) (length self.old.cluster.coords.items) node }
        requires call { (1 ≤ call) × (call ≤ 4) }
        requires held { AreHeld (H.seen home.old) self.old }
        requires stands { (s : Federation) × RepresentsWorld E.takes E.stands_for self.old s × IsReady s }
        ensures count { IsErrOf result WorldFault.Count → ⊥ }
        ensures answered { (s : Federation) → RepresentsWorld E.takes E.stands_for self.old s →
            AnswersEvent E.takes E.stands_for number (λ z. arm_at z call leaves.now node) s self.new (H.seen home.old) (H.seen home.new) result }
        ensures rest { OnlyOwnFilesChange (length self.old.cluster.members.items) (length self.old.cluster.coords.items) (H.seen home.old) (H.seen home.new) }
        ensures pins { PinsStay E.pins self.old self.new }
    {
        let leaves = copy_leaves(self.alloc, leaves)?;
        match node {
            Node::Member(member) => {
                self.at_member(home, number, member, MemberCall::Arm { call, leaves })
            }
            Node::Coord(coord) => {
                self.at_coord(home, number, coord, CoordCall::Arm { call, leaves })
            }
        }
    }

    /// One step of a checkpoint at a node.
    fn checkpoint<H: Home>(
        &mut self,
        home: &mut H,
        number: u32,
        node: Node,
    ) -> Result<Items, WorldFault>
        requires in_head { IsNode (length self.old.cluster.members.items) (length self.old.cluster.coords.items) node }
        requires held { AreHeld (H.seen home.old) self.old }
        requires stands { (s : Federation) × RepresentsWorld E.takes E.stands_for self.old s × IsReady s }
        ensures count { IsErrOf result WorldFault.Count → ⊥ }
        ensures answered { (s : Federation) → RepresentsWorld E.takes E.stands_for self.old s →
            AnswersEvent E.takes E.stands_for number (λ z. checkpoint_at z node) s self.new (H.seen home.old) (H.seen home.new) result }
        ensures rest { OnlyOwnFilesChange (length self.old.cluster.members.items) (length self.old.cluster.coords.items) (H.seen home.old) (H.seen home.new) }
        ensures pins { PinsStay E.pins self.old self.new }
    {
        match node {
            Node::Member(member) => self.at_member(home, number, member, MemberCall::Checkpoint),
            Node::Coord(coord) => self.at_coord(home, number, coord, CoordCall::Checkpoint),
        }
    }

    /// Does the event of the line of this number, whose nodes are in the head, and whose device call, where it arms a stop, is 1 to 4.
    ///
    /// The items are what became stable, what was sent and exactly one answer; the event's own item is not among them. `Count` comes exactly where a
    /// transaction is begun whose number is neither begun nor used, and 65,536 are; `Device`, `Differs`, `Full` and `Memory` as the node says.
    /// `InUse`, `Bad` and `Old` never come. A fault leaves in the files the stable records of before the event, or those that the event leaves, or
    /// those that it leaves where no stop is armed.
    pub fn step<H: Home>(
        &mut self,
        home: &mut H,
        number: u32,
        event: &Event,
    ) -> Result<Items, WorldFault>
        requires event { IsEventFor (length self.old.cluster.members.items) (length self.old.cluster.coords.items) event.now }
        requires held { AreHeld (H.seen home.old) self.old }
        requires stands { (s : Federation) × RepresentsWorld E.takes E.stands_for self.old s × IsReady s }
        ensures count { IsErrOf result WorldFault.Count ↔ MeetsLimit self.old.sessions event.now }
        ensures limit { (s : Federation) → RepresentsWorld E.takes E.stands_for self.old s → IsErrOf result WorldFault.Count ↔ MeetsPlainLimit s event.now }
        ensures answered { (s : Federation) → RepresentsWorld E.takes E.stands_for self.old s → IsReady s →
            AnswersEvent E.takes E.stands_for number (λ z. step_line z event.now) s self.new (H.seen home.old) (H.seen home.new) result }
        ensures rest { OnlyOwnFilesChange (length self.old.cluster.members.items) (length self.old.cluster.coords.items) (H.seen home.old) (H.seen home.new) }
        ensures pins { PinsStay E.pins self.old self.new }
    {
        match event {
            Event::Begin { txn, coord } => self.begin(home, number, *txn, *coord),
            Event::Local { txn, member } => self.begin_local(number, *txn, *member),
            Event::Read { txn, member, key } => self.reads(number, *txn, *member, key),
            Event::Write {
                txn,
                member,
                key,
                value,
            } => self.writes(number, *txn, *member, key, value),
            Event::Erase { txn, member, key } => self.erases(number, *txn, *member, key),
            Event::Scan { txn, member, range } => self.scans(number, *txn, *member, range),
            Event::Commit { txn } => self.end(home, number, *txn, Ending::Commit),
            Event::Abort { txn } => self.end(home, number, *txn, Ending::Abort),
            Event::Deliver(message) => self.deliver(home, number, *message),
            Event::Vote { txn, member } => {
                self.at_member(home, number, *member, MemberCall::Vote(*txn))
            }
            Event::Timer { txn, node } => self.timer(home, number, *txn, *node),
            Event::Ask { txn, member } => {
                self.at_member(home, number, *member, MemberCall::Ask(*txn))
            }
            Event::Resend { txn, coord } => {
                self.at_coord(home, number, *coord, CoordCall::Resend(*txn))
            }
            Event::Crash(node) => self.crash(home, number, *node),
            Event::Restart(node) => self.restart(home, number, *node),
            Event::Arm { node, call, leaves } => self.arm(home, number, *node, *call, leaves),
            Event::Checkpoint(node) => self.checkpoint(home, number, *node),
        }
    }
}
