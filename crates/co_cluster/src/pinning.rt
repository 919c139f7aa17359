//! Readers that stay.
ghost use Rattle.std.specs.Prelude.{◌≡◌, ◌≤◌, length, IfOk, OnOk};
ghost use Rattle.co_engine.specs.Pins.{pinned_rows};
ghost use Rattle.co_member.specs.Pins.{pins_of};
ghost use Rattle.co_member.specs.Standing.{RepresentsMember, IsSame};
ghost use Rattle.co_outside.specs.Home.{HomeView};
ghost use Rattle.co_plain.specs.Federation.{Federation};
ghost use Rattle.co_plain.specs.declared.member_state.MemberState.{MemberState};
ghost use Rattle.co_state.specs.Table.{look, without};
ghost use Rattle.co_cluster.specs.Pins.{HasPinnedAt, OtherPinsStay, pins_at};
ghost use Rattle.co_cluster.specs.Standing.{RepresentsCluster, AreHeld};

use crate::cluster::Cluster;
use co_base::{Range, Rows};
use co_engine::{Pinned, Pinning};
use co_member::Member;
use std::alloc::AllocError;

/// Pins the records that are installed at a member, where it is up.
fn pin_where_up<E: Pinning + Drop>(
    member: &mut Member<E>,
    id: u32,
) -> Result<Option<Pinned>, AllocError>
    ensures pinned { (x : MemberState) → RepresentsMember E.stands_for member.old x → IfOk result (HasPinnedAt x id (pins_of E.pins member.old) (pins_of E.pins member.new)) }
    ensures stands { (x : MemberState) → RepresentsMember E.stands_for member.old x → OnOk result (RepresentsMember E.stands_for member.new x) }
    ensures log { member.new.log ≡ member.old.log }
    ensures same { IsSame member.old member.new }
{
    if !member.up() {
        return Ok(None);
    }
    let pinned = member.pin(id)?;
    Ok(Some(pinned))
}

/// The records of a range as they were installed at a pin of a member, where it is up.
fn look_where_up<E: Pinning + Drop>(
    member: &Member<E>,
    id: u32,
    range: &Range,
) -> Result<Option<Rows>, AllocError>
    ensures { (x : MemberState) → RepresentsMember E.stands_for member.now x → IfOk result (λ rows. rows ≡ pinned_rows x.engine range.now (look (pins_of E.pins member.now) id)) }
{
    if !member.up() {
        return Ok(None);
    }
    member.look(id, range)
}

/// Ends a pin of a member, where it is up.
fn unpin_where_up<E: Pinning + Drop>(member: &mut Member<E>, id: u32)
    ensures pins { pins_of E.pins member.new ≡ without (pins_of E.pins member.old) id }
    ensures stands { (x : MemberState) → RepresentsMember E.stands_for member.old x → RepresentsMember E.stands_for member.new x }
    ensures log { member.new.log ≡ member.old.log }
    ensures same { IsSame member.old member.new }
{
    if member.up() {
        member.unpin(id);
    }
}

impl<E: Pinning + Drop> Cluster<E> {
    /// Pins the records that are installed at a member under an id, which its user chooses; nothing where the member is down. No transaction is
    /// changed, and nothing is written.
    pub fn pin(&mut self, member: u8, id: u32) -> Result<Option<Pinned>, AllocError>
        requires in_head { (1 ≤ member) × (member ≤ length self.old.members.items) }
        ensures pinned { (s : Federation) → RepresentsCluster E.takes E.stands_for self.old s → IfOk result (HasPinnedAt (s.member member) id (pins_at E.pins self.old member) (pins_at E.pins self.new member)) }
        ensures others { OtherPinsStay E.pins member self.old self.new }
        ensures stands { (s : Federation) → RepresentsCluster E.takes E.stands_for self.old s → OnOk result (RepresentsCluster E.takes E.stands_for self.new s) }
        ensures held { (home : HomeView) → AreHeld home self.old → AreHeld home self.new }
        ensures head { (length self.new.members.items ≡ length self.old.members.items) × (length self.new.coords.items ≡ length self.old.coords.items) }
    {
        pin_where_up(&mut self.members[usize::from(member) - 1], id)
    }

    /// The records of a range as they were installed at the pin of an id at a member; none where the member is down, or the id is not pinned there.
    pub fn look(&self, member: u8, id: u32, range: &Range) -> Result<Option<Rows>, AllocError>
        requires in_head { (1 ≤ member) × (member ≤ length self.now.members.items) }
        ensures { (s : Federation) → RepresentsCluster E.takes E.stands_for self.now s → IfOk result (λ rows. rows ≡ pinned_rows (s.member member).engine range.now (look (pins_at E.pins self.now member) id)) }
    {
        look_where_up(&self.members[usize::from(member) - 1], id, range)
    }

    /// Ends the pin of an id at a member; does nothing where the member is down, or the id is not pinned there. Takes no memory.
    pub fn unpin(&mut self, member: u8, id: u32)
        requires in_head { (1 ≤ member) × (member ≤ length self.old.members.items) }
        ensures pins { pins_at E.pins self.new member ≡ without (pins_at E.pins self.old member) id }
        ensures others { OtherPinsStay E.pins member self.old self.new }
        ensures stands { (s : Federation) → RepresentsCluster E.takes E.stands_for self.old s → RepresentsCluster E.takes E.stands_for self.new s }
        ensures held { (home : HomeView) → AreHeld home self.old → AreHeld home self.new }
        ensures head { (length self.new.members.items ≡ length self.old.members.items) × (length self.new.coords.items ≡ length self.old.coords.items) }
    {
        unpin_where_up(&mut self.members[usize::from(member) - 1], id);
    }
}
