//! What the logs of nodes tell, also of nodes that are down.
ghost use Rattle.std.specs.Prelude.{◌≡◌, ◌≤◌, length, IfOk};
ghost use Rattle.co_plain.specs.CoordView.{recovered_commits};
ghost use Rattle.co_plain.specs.Federation.{Federation};
ghost use Rattle.co_plain.specs.MemberView.{recovered_view};
ghost use Rattle.co_recover.specs.Recovered.{past_of_member, past_of_coord};
ghost use Rattle.co_cluster.specs.Conditions.{IsReady};
ghost use Rattle.co_cluster.specs.Standing.{RepresentsCluster};

use crate::cluster::Cluster;
use co_engine::Engine;
use co_recover::{CoordPast, MemberPast};
use std::alloc::AllocError;

impl<E: Engine + Drop> Cluster<E> {
    /// What the records of a member's log tell.
    pub(crate) fn member_past(&self, member: u8) -> Result<MemberPast, AllocError>
        requires member { (1 ≤ member) × (member ≤ length self.now.members.items) }
        requires stands { (s : Federation) × RepresentsCluster E.takes E.stands_for self.now s × IsReady s }
        ensures { (s : Federation) → RepresentsCluster E.takes E.stands_for self.now s → IfOk result (λ past. past ≡ past_of_member (recovered_view (s.member member).log.stable)) }
    {
        self.member_at(member).past()
    }

    /// What the records of a coordinator's log tell.
    pub(crate) fn coord_past(&self, coord: u8) -> Result<CoordPast, AllocError>
        requires coord { (1 ≤ coord) × (coord ≤ length self.now.coords.items) }
        requires stands { (s : Federation) × RepresentsCluster E.takes E.stands_for self.now s × IsReady s }
        ensures { (s : Federation) → RepresentsCluster E.takes E.stands_for self.now s → IfOk result (λ past. past ≡ past_of_coord (recovered_commits (s.coord coord).log.stable)) }
    {
        self.coord_at(coord).past()
    }
}
