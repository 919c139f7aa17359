//! What the logs alone give.
ghost use Rattle.std.specs.Prelude.{◌≡◌, ◌≤◌, length, IfOk};
ghost use Rattle.co_serial.specs.MemberRows.{numbered_rows};
ghost use Rattle.co_durable.specs.Nodes.{numbered};
ghost use Rattle.co_plain.specs.CoordView.{recovered_commits};
ghost use Rattle.co_plain.specs.DurableRecords.{durable_in};
ghost use Rattle.co_plain.specs.Federation.{Federation};
ghost use Rattle.co_plain.specs.MemberView.{recovered_view};
ghost use Rattle.co_recover.specs.Recovered.{past_of_member};
ghost use Rattle.co_cluster.specs.Conditions.{IsReady};
ghost use Rattle.co_cluster.specs.Standing.{RepresentsCluster};

use crate::cluster::Cluster;
use co_durable::{Numbers, durable_rows, numbers_from};
use co_engine::Engine;
use co_recover::MemberPast;
use co_serial::MemberRows;
use std::alloc::AllocError;

impl<E: Engine + Drop> Cluster<E> {
    /// What the logs of the members tell, from member 1 on.
    fn member_pasts(&self) -> Result<Vec<MemberPast>, AllocError>
        requires stands { (s : Federation) × RepresentsCluster E.takes E.stands_for self.now s × IsReady s }
        ensures { (s : Federation) → RepresentsCluster E.takes E.stands_for self.now s →
            IfOk result (λ pasts. pasts.items ≡ numbered (λ m. past_of_member (recovered_view (s.member m).log.stable)) (length s.kinds)) }
    {
        let mut pasts = Vec::new(self.alloc);
        for place in 0..self.member_count() {
            pasts.push(self.member_past(place + 1)?)?;
        }
        Ok(pasts)
    }

    /// The commits in the log of a coordinator.
    fn commits_of(&self, coord: u8) -> Result<Numbers, AllocError>
        requires coord { (1 ≤ coord) × (coord ≤ length self.now.coords.items) }
        requires stands { (s : Federation) × RepresentsCluster E.takes E.stands_for self.now s × IsReady s }
        ensures { (s : Federation) → RepresentsCluster E.takes E.stands_for self.now s → IfOk result (λ commits. commits ≡ (recovered_commits (s.coord coord).log.stable).seen) }
    {
        let past = self.coord_past(coord)?;
        numbers_from(self.alloc, past.seen.as_slice())
    }

    /// The commits in the logs of the coordinators, from coordinator 1 on.
    fn commits(&self) -> Result<Vec<Numbers>, AllocError>
        requires stands { (s : Federation) × RepresentsCluster E.takes E.stands_for self.now s × IsReady s }
        ensures { (s : Federation) → RepresentsCluster E.takes E.stands_for self.now s →
            IfOk result (λ commits. commits.items ≡ numbered (λ c. (recovered_commits (s.coord c).log.stable).seen) s.coordinators) }
    {
        let mut commits = Vec::new(self.alloc);
        for place in 0..self.coord_count() {
            commits.push(self.commits_of(place + 1)?)?;
        }
        Ok(commits)
    }

    /// The records that the logs alone give, also of nodes that are down: of each member the records that its log tells, with the writes of each
    /// voted transaction laid over whose coordinator's log has its commit. Members ascend, and so do the keys of each. The logs are gone through.
    pub fn durable(&self) -> Result<MemberRows, AllocError>
        requires stands { (s : Federation) × RepresentsCluster E.takes E.stands_for self.now s × IsReady s }
        ensures { (s : Federation) → RepresentsCluster E.takes E.stands_for self.now s → IsReady s →
            IfOk result (λ rows. rows ≡ numbered_rows (durable_in s) 1 (length s.kinds)) }
    {
        let pasts = self.member_pasts()?;
        let commits = self.commits()?;
        durable_rows(self.alloc, pasts.as_slice(), commits.as_slice())
    }
}
