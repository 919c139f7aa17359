//! The open transactions, also of nodes that are down.
ghost use Rattle.std.specs.Prelude.{◌≡◌, ◌<◌, ◌≤◌, ℕ, Some, true, length, map, IfOk, OnOk, Contains, ◌↔◌};
ghost use Rattle.co_base.specs.Order.{IsAscending};
ghost use Rattle.co_coord.specs.Standing.{is_up as is_up_coord, RepresentsCoord};
ghost use Rattle.co_coord.specs.Reading.{is_above};
ghost use Rattle.co_member.specs.Reading.{open_after};
ghost use Rattle.co_member.specs.Standing.{is_up, RepresentsMember};
ghost use Rattle.co_plain.specs.Federation.{Federation};
ghost use Rattle.co_plain.specs.MemberView.{with_numbers};
ghost use Rattle.co_plain.specs.Quiet.{IsOpen};
ghost use Rattle.co_plain.specs.declared.coord_state.CoordState.{CoordState};
ghost use Rattle.co_plain.specs.declared.member_state.MemberState.{MemberState};
ghost use Rattle.co_state.specs.Table.{holds, least_where};
ghost use Rattle.co_cluster.specs.Conditions.{IsReady};
ghost use Rattle.co_cluster.specs.Listed.{is_undecided, is_undecided_up, any_to, AreNoted};
ghost use Rattle.co_cluster.specs.Standing.{RepresentsCluster};

use crate::cluster::Cluster;
use co_base::{Txn, Txns};
use co_coord::Coord;
use co_durable::Numbers;
use co_engine::Engine;
use co_member::Member;
use co_opening::{lay_votes, numbers_in};
use co_recover::Decided;
use std::alloc::AllocError;

/// The least undecided transaction of a member above one.
fn undecided_above<E: Engine + Drop>(member: &Member<E>, t: Txn) -> Option<Txn>
    requires up { is_up member.now ≡ true }
    ensures number { t < 4294967296 }
    ensures next { (x : MemberState) → RepresentsMember E.stands_for member.now x → result ≡ open_after x.engine (Some t) }
{
    member.open_after(Some(t))
}

/// The least transaction in the table of a coordinator above one.
fn tabled_above(coord: &Coord, t: Txn) -> Option<Txn>
    requires up { is_up_coord coord.now ≡ true }
    ensures number { t < 4294967296 }
    ensures next { (y : CoordState) → RepresentsCoord coord.now y → result ≡ least_where (λ u e. is_above (Some t) u) y.table }
{
    coord.open_after(Some(t))
}

/// Adds the undecided transactions of a member that is up.
fn note_member<E: Engine + Drop>(member: &Member<E>, found: &mut Numbers) -> Result<(), AllocError>
    requires up { is_up member.now ≡ true }
    requires stands { (x : MemberState) × RepresentsMember E.stands_for member.now x }
    ensures { (x : MemberState) → RepresentsMember E.stands_for member.now x → OnOk result (AreNoted (is_undecided x.engine) found.old found.new) }
{
    let mut next = member.open_after(None);
    while let Some(t) = next {
        found.insert(t, ())?;
        next = undecided_above(member, t);
    }
    Ok(())
}

/// Adds the transactions in the table of a coordinator that is up.
fn note_coord(coord: &Coord, found: &mut Numbers) -> Result<(), AllocError>
    requires up { is_up_coord coord.now ≡ true }
    requires stands { (y : CoordState) × RepresentsCoord coord.now y }
    ensures { (y : CoordState) → RepresentsCoord coord.now y → OnOk result (AreNoted (holds y.table) found.old found.new) }
{
    let mut next = coord.open_after(None);
    while let Some(t) = next {
        found.insert(t, ())?;
        next = tabled_above(coord, t);
    }
    Ok(())
}

/// Adds these decided transactions.
fn lay_decided(found: &mut Numbers, commits: &[Decided]) -> Result<(), AllocError>
    ensures { OnOk result (found.new ≡ with_numbers found.old (map (λ decided. decided.txn) commits.now)) }
{
    for decided in commits {
        found.insert(decided.txn, ())?;
    }
    Ok(())
}

impl<E: Engine + Drop> Cluster<E> {
    /// Adds the undecided transactions of a member. Where it is down, its log tells.
    fn note_undecided(&self, member: u8, found: &mut Numbers) -> Result<(), AllocError>
        requires member { (1 ≤ member) × (member ≤ length self.now.members.items) }
        requires stands { (s : Federation) × RepresentsCluster E.takes E.stands_for self.now s × IsReady s }
        ensures { (s : Federation) → RepresentsCluster E.takes E.stands_for self.now s → OnOk result (AreNoted (is_undecided (s.member member).engine) found.old found.new) }
    {
        let node = self.member_at(member);
        if node.up() {
            return note_member(node, found);
        }
        let past = self.member_past(member)?;
        lay_votes(found, past.voted.as_slice())
    }

    /// Adds the transactions in the table of a coordinator. Where it is down, its log tells.
    fn note_tabled(&self, coord: u8, found: &mut Numbers) -> Result<(), AllocError>
        requires coord { (1 ≤ coord) × (coord ≤ length self.now.coords.items) }
        requires stands { (s : Federation) × RepresentsCluster E.takes E.stands_for self.now s × IsReady s }
        ensures { (s : Federation) → RepresentsCluster E.takes E.stands_for self.now s → OnOk result (AreNoted (holds (s.coord coord).table) found.old found.new) }
    {
        let node = self.coord_at(coord);
        if node.up() {
            return note_coord(node, found);
        }
        let past = self.coord_past(coord)?;
        lay_decided(found, past.committed.as_slice())
    }

    /// Adds the undecided transactions of a member, where it is up.
    fn note_running(&self, member: u8, found: &mut Numbers) -> Result<(), AllocError>
        requires member { (1 ≤ member) × (member ≤ length self.now.members.items) }
        requires stands { (s : Federation) × RepresentsCluster E.takes E.stands_for self.now s }
        ensures { (s : Federation) → RepresentsCluster E.takes E.stands_for self.now s → OnOk result (AreNoted (is_undecided_up (s.member member)) found.old found.new) }
    {
        let node = self.member_at(member);
        if node.up() {
            note_member(node, found)
        } else {
            Ok(())
        }
    }

    /// Adds the undecided transactions of all members.
    fn note_members(&self, found: &mut Numbers) -> Result<(), AllocError>
        requires stands { (s : Federation) × RepresentsCluster E.takes E.stands_for self.now s × IsReady s }
        ensures { (s : Federation) → RepresentsCluster E.takes E.stands_for self.now s →
            OnOk result (AreNoted (λ t. any_to (length s.kinds) (λ m. is_undecided (s.member m).engine t)) found.old found.new) }
    {
        for place in 0..self.member_count() {
            self.note_undecided(place + 1, found)?;
        }
        Ok(())
    }

    /// Adds the transactions in the tables of all coordinators.
    fn note_coords(&self, found: &mut Numbers) -> Result<(), AllocError>
        requires stands { (s : Federation) × RepresentsCluster E.takes E.stands_for self.now s × IsReady s }
        ensures { (s : Federation) → RepresentsCluster E.takes E.stands_for self.now s →
            OnOk result (AreNoted (λ t. any_to s.coordinators (λ c. holds (s.coord c).table t)) found.old found.new) }
    {
        for place in 0..self.coord_count() {
            self.note_tabled(place + 1, found)?;
        }
        Ok(())
    }

    /// Adds the undecided transactions of the members that are up.
    fn note_all_running(&self, found: &mut Numbers) -> Result<(), AllocError>
        requires stands { (s : Federation) × RepresentsCluster E.takes E.stands_for self.now s }
        ensures { (s : Federation) → RepresentsCluster E.takes E.stands_for self.now s →
            OnOk result (AreNoted (λ t. any_to (length s.kinds) (λ m. is_undecided_up (s.member m) t)) found.old found.new) }
    {
        for place in 0..self.member_count() {
            self.note_running(place + 1, found)?;
        }
        Ok(())
    }

    /// The undecided transactions of the members that are up, ascending.
    pub(crate) fn undecided(&self) -> Result<Txns, AllocError>
        requires stands { (s : Federation) × RepresentsCluster E.takes E.stands_for self.now s }
        ensures ascending { IfOk result IsAscending }
        ensures listed { (s : Federation) → RepresentsCluster E.takes E.stands_for self.now s →
            IfOk result (λ txns. (t : ℕ) → Contains txns t ↔ (any_to (length s.kinds) (λ m. is_undecided_up (s.member m) t) ≡ true)) }
    {
        let mut found = Numbers::new(self.alloc);
        self.note_all_running(&mut found)?;
        numbers_in(self.alloc, &found)
    }

    /// The open transactions, ascending: those in the table of a coordinator, or active or voted at a member. Of a node that is down its log
    /// tells.
    pub fn still_open(&self) -> Result<Txns, AllocError>
        requires stands { (s : Federation) × RepresentsCluster E.takes E.stands_for self.now s × IsReady s }
        ensures ascending { IfOk result IsAscending }
        ensures listed { (s : Federation) → RepresentsCluster E.takes E.stands_for self.now s → IfOk result (λ txns. (t : ℕ) → Contains txns t ↔ IsOpen s t) }
    {
        let mut found = Numbers::new(self.alloc);
        self.note_members(&mut found)?;
        self.note_coords(&mut found)?;
        numbers_in(self.alloc, &found)
    }
}
