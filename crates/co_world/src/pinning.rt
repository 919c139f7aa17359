//! Readers that stay.
ghost use Rattle.std.specs.Prelude.{◌≡◌, ◌≤◌, true, length, IfOk, OnOk};
ghost use Rattle.co_engine.specs.Pins.{HasPinned, pinned_rows};
ghost use Rattle.co_outside.specs.Home.{HomeView};
ghost use Rattle.co_plain.specs.Federation.{Federation};
ghost use Rattle.co_state.specs.Table.{look, without};
ghost use Rattle.co_world.specs.Pins.{OtherPinsStay, pins_at};
ghost use Rattle.co_world.specs.Standing.{RepresentsWorld, AreHeld};

use crate::world::World;
use co_base::{Range, Rows};
use co_engine::{Pinned, Pinning};
use std::alloc::AllocError;

impl<E: Pinning + Drop> World<E> {
    /// Pins the records that are installed at a member that is up under an id, which its user chooses. No transaction is changed, nothing is
    /// written, and nothing is told to a node.
    pub fn pin(&mut self, member: u8, id: u32) -> Result<Pinned, AllocError>
        requires in_head { (1 ≤ member) × (member ≤ length self.old.cluster.members.items) }
        requires up { (s : Federation) × RepresentsWorld E.takes E.stands_for self.old s × ((s.member member).up ≡ true) }
        ensures pinned { (s : Federation) → RepresentsWorld E.takes E.stands_for self.old s → IfOk result (HasPinned (s.member member).engine id (pins_at E.pins self.old member) (pins_at E.pins self.new member)) }
        ensures others { OtherPinsStay E.pins member self.old self.new }
        ensures stands { (s : Federation) → RepresentsWorld E.takes E.stands_for self.old s → OnOk result (RepresentsWorld E.takes E.stands_for self.new s) }
        ensures held { (home : HomeView) → AreHeld home self.old → AreHeld home self.new }
        ensures head { (length self.new.cluster.members.items ≡ length self.old.cluster.members.items) × (length self.new.cluster.coords.items ≡ length self.old.cluster.coords.items) }
    {
        match self.cluster.pin(member, id)? {
            Some(pinned) => Ok(pinned),
            None => unreachable!(),
        }
    }

    /// The records of a range as they were installed at the pin of an id at a member; none where the member is down, or the id is not pinned there.
    pub fn look(&self, member: u8, id: u32, range: &Range) -> Result<Option<Rows>, AllocError>
        requires in_head { (1 ≤ member) × (member ≤ length self.now.cluster.members.items) }
        ensures { (s : Federation) → RepresentsWorld E.takes E.stands_for self.now s → IfOk result (λ rows. rows ≡ pinned_rows (s.member member).engine range.now (look (pins_at E.pins self.now member) id)) }
    {
        self.cluster.look(member, id, range)
    }

    /// Ends the pin of an id at a member; does nothing where the member is down, or the id is not pinned there. Takes no memory.
    pub fn unpin(&mut self, member: u8, id: u32)
        requires in_head { (1 ≤ member) × (member ≤ length self.old.cluster.members.items) }
        ensures pins { pins_at E.pins self.new member ≡ without (pins_at E.pins self.old member) id }
        ensures others { OtherPinsStay E.pins member self.old self.new }
        ensures stands { (s : Federation) → RepresentsWorld E.takes E.stands_for self.old s → RepresentsWorld E.takes E.stands_for self.new s }
        ensures held { (home : HomeView) → AreHeld home self.old → AreHeld home self.new }
        ensures head { (length self.new.cluster.members.items ≡ length self.old.cluster.members.items) × (length self.new.cluster.coords.items ≡ length self.old.cluster.coords.items) }
    {
        self.cluster.unpin(member, id);
    }
}
