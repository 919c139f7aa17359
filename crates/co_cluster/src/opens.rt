//! Whether anything is open, also where nodes are down.
ghost use Rattle.std.specs.Prelude.{◌≡◌, ◌≤◌, ℕ, true, false, None, is_some, length, IfOk};
ghost use Rattle.co_member.specs.Reading.{open_after};
ghost use Rattle.co_plain.specs.Federation.{Federation};
ghost use Rattle.co_plain.specs.Quiet.{IsOpen};
ghost use Rattle.co_state.specs.Table.{least_where};
ghost use Rattle.co_cluster.specs.Conditions.{IsReady};
ghost use Rattle.co_cluster.specs.Standing.{RepresentsCluster};

use crate::cluster::Cluster;
use co_engine::Engine;
use std::alloc::AllocError;

impl<E: Engine + Drop> Cluster<E> {
    /// Whether a member has an undecided transaction. Where it is down, its log tells.
    fn has_undecided(&self, member: u8) -> Result<bool, AllocError>
        requires member { (1 ≤ member) × (member ≤ length self.now.members.items) }
        requires stands { (s : Federation) × RepresentsCluster E.takes E.stands_for self.now s × IsReady s }
        ensures { (s : Federation) → RepresentsCluster E.takes E.stands_for self.now s → IfOk result (λ some. some ≡ is_some (open_after (s.member member).engine None)) }
    {
        let node = self.member_at(member);
        if node.up() {
            return Ok(node.open_after(None).is_some());
        }
        let past = self.member_past(member)?;
        Ok(!past.voted.as_slice().is_empty())
    }

    /// Whether a coordinator has a transaction in its table. Where it is down, its log tells.
    fn has_tabled(&self, coord: u8) -> Result<bool, AllocError>
        requires coord { (1 ≤ coord) × (coord ≤ length self.now.coords.items) }
        requires stands { (s : Federation) × RepresentsCluster E.takes E.stands_for self.now s × IsReady s }
        ensures { (s : Federation) → RepresentsCluster E.takes E.stands_for self.now s → IfOk result (λ some. some ≡ is_some (least_where (λ t e. true) (s.coord coord).table)) }
    {
        let node = self.coord_at(coord);
        if node.up() {
            return Ok(node.open_after(None).is_some());
        }
        let past = self.coord_past(coord)?;
        Ok(!past.committed.as_slice().is_empty())
    }

    /// Whether a transaction is open. Of a node that is down its log tells; where all are up no log is read, and no memory is taken.
    pub fn anything_open(&self) -> Result<bool, AllocError>
        requires stands { (s : Federation) × RepresentsCluster E.takes E.stands_for self.now s × IsReady s }
        ensures something { (s : Federation) → RepresentsCluster E.takes E.stands_for self.now s → IfOk result (λ some. some ≡ true → (t : ℕ) × IsOpen s t) }
        ensures nothing { (s : Federation) → RepresentsCluster E.takes E.stands_for self.now s → IfOk result (λ some. some ≡ false → (t : ℕ) → IsOpen s t → ⊥) }
    {
        for member in 1..self.member_count() + 1 {
            if self.has_undecided(member)? {
                return Ok(true);
            }
        }
        for coord in 1..self.coord_count() + 1 {
            if self.has_tabled(coord)? {
                return Ok(true);
            }
        }
        Ok(false)
    }
}
