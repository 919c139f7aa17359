//! What the network and the clocks do: messages arrive, votes are tried again, timers fire.
ghost use Rattle.std.specs.Prelude.{◌≡◌, ◌<◌, ◌≤◌, ◌-◌, ◌^◌, [], nat_lt, if◌then◌else◌, length, IfOk};
ghost use Rattle.co_message.specs.declared.event.Event.TheVariants as event;
ghost use Rattle.co_make.specs.Making.{delivered, place_of, at_member, at_coord, timer_fired, chosen, HasChosen};

use crate::maker::Maker;
use co_base::Node;
use co_message::{Event, Wire};
use std::alloc::AllocError;

impl Maker {
    /// A place among so many messages.
    #[tactic(auto, unfolding(crate::specs::Making::place_of))]
    fn place(&mut self, count: usize) -> usize
        requires { 0 < count }
        ensures place { (result, self.new) ≡ place_of count self.old }
        ensures below { result < count }
        ensures rest { HasChosen self.old self.new }
    {
        if self.pick(2) == 0 {
            self.pick(count as u64) as usize
        } else {
            let back = self.pick(count.min(16) as u64) as usize;
            count - 1 - back
        }
    }

    /// A message that was sent arrives.
    #[tactic(auto, unfolding(crate::specs::Making::delivered))]
    pub(crate) fn deliver(&mut self, wire: &Wire) -> Result<Event, AllocError>
        requires fresh { self.old.fresh ≤ self.old.made }
        requires window { length self.old.window < self.old.made }
        requires within { self.old.made < 2 ^ 32 - 1 }
        ensures { IfOk result (λ e. (e, self.new) ≡ delivered wire.now self.old) }
    {
        if wire.len() == 0 {
            return self.begin();
        }
        let place = self.place(wire.len());
        Ok(Event::Deliver(*wire.at(place)))
    }

    /// What befalls a recent transaction, or a node, by the choices 85 to 98.
    pub(crate) fn befall(&mut self, which: u64) -> Result<Event, AllocError>
        requires from { 85 ≤ which }
        requires to { which < 99 }
        requires fresh { self.old.fresh ≤ self.old.made }
        requires window { length self.old.window < self.old.made }
        requires within { self.old.made < 2 ^ 32 - 1 }
        ensures { IfOk result (λ e. (e, self.new) ≡ chosen [] which self.old) }
    {
        match which {
            96 => Ok(self.crash()),
            97..=98 => Ok(self.restart()),
            _ => {
                if self.fresh == 1 {
                    self.begin()
                } else {
                    Ok(self.befall_recent(which))
                }
            }
        }
    }

    /// What befalls a recent transaction, by the choices 85 to 95.
    fn befall_recent(&mut self, which: u64) -> Event
        requires from { 85 ≤ which }
        requires to { which < 96 }
        requires begun { 2 ≤ self.old.fresh }
        ensures { (result, self.new) ≡ (if nat_lt which 91 then at_member event.Vote self.old else if nat_lt which 93 then timer_fired self.old else if nat_lt which 95 then at_member event.Ask self.old else at_coord event.Resend self.old) }
    {
        match which {
            85..=90 => self.vote(),
            91..=92 => self.fire(),
            93..=94 => self.ask_for_decision(),
            _ => self.resend(),
        }
    }

    #[tactic(auto, unfolding(crate::specs::Making::at_member))]
    fn vote(&mut self) -> Event
        requires { 2 ≤ self.old.fresh }
        ensures { (result, self.new) ≡ at_member event.Vote self.old }
    {
        let txn = self.recent();
        let member = self.member();
        Event::Vote { txn, member }
    }

    #[tactic(auto, unfolding(crate::specs::Making::at_member))]
    fn ask_for_decision(&mut self) -> Event
        requires { 2 ≤ self.old.fresh }
        ensures { (result, self.new) ≡ at_member event.Ask self.old }
    {
        let txn = self.recent();
        let member = self.member();
        Event::Ask { txn, member }
    }

    #[tactic(auto, unfolding(crate::specs::Making::at_coord))]
    fn resend(&mut self) -> Event
        requires { 2 ≤ self.old.fresh }
        ensures { (result, self.new) ≡ at_coord event.Resend self.old }
    {
        let txn = self.recent();
        let coord = self.coord();
        Event::Resend { txn, coord }
    }

    /// A timer fires, at a member or at a coordinator.
    #[tactic(auto, unfolding(crate::specs::Making::timer_fired))]
    fn fire(&mut self) -> Event
        requires { 2 ≤ self.old.fresh }
        ensures { (result, self.new) ≡ timer_fired self.old }
    {
        let txn = self.recent();
        let node = if self.pick(2) == 0 {
            Node::Member(self.member())
        } else {
            Node::Coord(self.coord())
        };
        Event::Timer { txn, node }
    }
}
