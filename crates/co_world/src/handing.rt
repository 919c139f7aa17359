//! A verdict that is handed over by another member.
ghost use Rattle.std.specs.Prelude.{◌≡◌, ◌≤◌, true, length, IsErrOf};
ghost use Rattle.co_plain.specs.Federation.{Federation};
ghost use Rattle.co_plain.specs.Member.{coord_of};
ghost use Rattle.co_plain.specs.Step.{step};
ghost use Rattle.co_plain.specs.declared.happening.Happening.TheVariants as happening;
ghost use Rattle.co_state.specs.Table.{holds};
ghost use Rattle.co_world.specs.Standing.{RepresentsWorld, AreHeld};
ghost use Rattle.co_world.specs.Answered.{AnswersEvent};
ghost use Rattle.co_opening.specs.Rest.{OnlyOwnFilesChange};
ghost use Rattle.co_world.specs.Pins.{PinsStay};

use crate::world::World;
use co_base::Txn;
use co_cluster::MemberCall;
use co_durable::WorldFault;
use co_engine::Engine;
use co_message::{Items, Message};
use co_outside::Home;

impl<E: Engine + Drop> World<E> {
    /// The coordinator that asked for the vote of a transaction, which the member has voted.
    fn asker_of(&self, member: u8, t: Txn) -> u8
        requires in_head { (1 ≤ member) × (member ≤ length self.now.cluster.members.items) }
        requires voted { (s : Federation) × RepresentsWorld E.takes E.stands_for self.now s × ((s.member member).up ≡ true) × (holds (s.member member).engine.voted t ≡ true) }
        ensures { (s : Federation) → RepresentsWorld E.takes E.stands_for self.now s → result ≡ coord_of (s.member member) t }
    {
        match self.cluster.member_at(member).coord_of(t) {
            Some(coord) => coord,
            None => unreachable!(),
        }
    }

    /// Hands a verdict to a member that is up and has voted the transaction, as a decision that is delivered by the coordinator that asked for
    /// the vote.
    ///
    /// The items bear the number. `Device`, `Differs`, `Full` and `Memory` come as a step says; the other faults never come. Whether the
    /// verdict is true is the caller's to know.
    pub fn hand<H: Home>(
        &mut self,
        home: &mut H,
        number: u32,
        member: u8,
        t: Txn,
        commit: bool,
    ) -> Result<Items, WorldFault>
        requires in_head { (1 ≤ member) × (member ≤ length self.old.cluster.members.items) }
        requires held { AreHeld (H.seen home.old) self.old }
        requires voted { (s : Federation) × RepresentsWorld E.takes E.stands_for self.old s × ((s.member member).up ≡ true) × (holds (s.member member).engine.voted t ≡ true) }
        ensures count { IsErrOf result WorldFault.Count → ⊥ }
        ensures answered { (s : Federation) → RepresentsWorld E.takes E.stands_for self.old s →
            AnswersEvent E.takes E.stands_for number (λ z. step z (happening.Hand t member commit)) s self.new (H.seen home.old) (H.seen home.new) result }
        ensures rest { OnlyOwnFilesChange (length self.old.cluster.members.items) (length self.old.cluster.coords.items) (H.seen home.old) (H.seen home.new) }
        ensures pins { PinsStay E.pins self.old self.new }
    {
        let coord = self.asker_of(member, t);
        let decision = Message::Decide {
            txn: t,
            coord,
            member,
            commit,
        };
        self.at_member(home, number, member, MemberCall::Deliver(decision))
    }
}
