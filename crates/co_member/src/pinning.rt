//! Readers that stay.
ghost use Rattle.std.specs.Prelude.{◌≡◌, true, IfOk, OnOk};
ghost use Rattle.co_engine.specs.Pins.{HasPinned, pinned_rows};
ghost use Rattle.co_plain.specs.declared.member_state.MemberState.{MemberState};
ghost use Rattle.co_state.specs.Table.{look, without};
ghost use Rattle.co_member.specs.Pins.{pins_of};
ghost use Rattle.co_member.specs.Standing.{is_up, RepresentsMember, IsSame};

use crate::member::Member;
use co_base::{Range, Rows};
use co_engine::{Pinned, Pinning};
use std::alloc::AllocError;

impl<E: Pinning + Drop> Member<E> {
    /// Pins the records that are installed here under an id, which its user chooses. No transaction is changed, and nothing is written.
    pub fn pin(&mut self, id: u32) -> Result<Pinned, AllocError>
        requires up { is_up self.old ≡ true }
        ensures pinned { (x : MemberState) → RepresentsMember E.stands_for self.old x → IfOk result (HasPinned x.engine id (pins_of E.pins self.old) (pins_of E.pins self.new)) }
        ensures stands { (x : MemberState) → RepresentsMember E.stands_for self.old x → OnOk result (RepresentsMember E.stands_for self.new x) }
        ensures up { is_up self.new ≡ true }
        ensures log { self.new.log ≡ self.old.log }
        ensures same { IsSame self.old self.new }
    {
        match &mut self.running {
            Some(running) => running.undecided.pin(id),
            None => unreachable!(),
        }
    }

    /// The records of a range as they were installed at the pin of an id, or none where the id is not pinned.
    pub fn look(&self, id: u32, range: &Range) -> Result<Option<Rows>, AllocError>
        requires up { is_up self.now ≡ true }
        ensures { (x : MemberState) → RepresentsMember E.stands_for self.now x → IfOk result (λ rows. rows ≡ pinned_rows x.engine range.now (look (pins_of E.pins self.now) id)) }
    {
        self.running().undecided.look(id, range)
    }

    /// Ends the pin of an id; does nothing where it is not pinned. Takes no memory.
    pub fn unpin(&mut self, id: u32)
        requires up { is_up self.old ≡ true }
        ensures pins { pins_of E.pins self.new ≡ without (pins_of E.pins self.old) id }
        ensures stands { (x : MemberState) → RepresentsMember E.stands_for self.old x → RepresentsMember E.stands_for self.new x }
        ensures up { is_up self.new ≡ true }
        ensures log { self.new.log ≡ self.old.log }
        ensures same { IsSame self.old self.new }
    {
        match &mut self.running {
            Some(running) => running.undecided.unpin(id),
            None => unreachable!(),
        }
    }
}
