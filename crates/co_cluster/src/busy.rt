//! Which transactions an exchange can be about.
ghost use Rattle.std.specs.Prelude.{◌≡◌, ◌≤◌, length, IsTrue, ◌↔◌};
ghost use Rattle.co_plain.specs.Federation.{Federation};
ghost use Rattle.co_state.specs.Table.{look};
ghost use Rattle.co_cluster.specs.Readings.{StandsUp};
ghost use Rattle.co_plain.specs.Quiet.{busy_at, busy_in, IsBusy};
ghost use Rattle.co_cluster.specs.Standing.{RepresentsCluster};

use crate::cluster::Cluster;
use co_base::Txn;
use co_coord::Stage;
use co_engine::Engine;

impl<E: Engine + Drop> Cluster<E> {
    /// Whether the transaction is voted at the member, or was asked for its vote there.
    fn is_busy_at(&self, t: Txn, member: u8) -> bool
        requires member { (1 ≤ member) × (member ≤ length self.now.members.items) }
        requires stands { StandsUp E.takes E.stands_for self.now }
        ensures { (s : Federation) → RepresentsCluster E.takes E.stands_for self.now s → result ≡ busy_at (s.member member) t }
    {
        let node = self.member_at(member);
        node.coord_of(t).is_some() || node.is_asked(t)
    }

    /// Whether the coordinator collects votes, or has committed.
    fn is_busy_in(&self, t: Txn, coord: u8) -> bool
        requires coord { (1 ≤ coord) × (coord ≤ length self.now.coords.items) }
        requires stands { StandsUp E.takes E.stands_for self.now }
        ensures { (s : Federation) → RepresentsCluster E.takes E.stands_for self.now s → result ≡ busy_in (look (s.coord coord).table t) }
    {
        match self.coord_at(coord).stage(t) {
            Stage::Collecting | Stage::Committed => true,
            Stage::Idle | Stage::Unknown => false,
        }
    }

    /// Whether a transaction is busy, where no node is down: collecting or committed at a coordinator, voted at a member, or asked for its vote
    /// there. An exchange can help no other one. Takes no memory.
    pub fn is_busy(&self, t: Txn) -> bool
        requires stands { StandsUp E.takes E.stands_for self.now }
        ensures { (s : Federation) → RepresentsCluster E.takes E.stands_for self.now s → IsTrue result ↔ IsBusy s t }
    {
        for coord in 1..self.coord_count() + 1 {
            if self.is_busy_in(t, coord) {
                return true;
            }
        }
        for member in 1..self.member_count() + 1 {
            if self.is_busy_at(t, member) {
                return true;
            }
        }
        false
    }
}
