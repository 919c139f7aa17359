//! The open transactions of a federation whose nodes are up, in their order.
ghost use Rattle.std.specs.Prelude.{◌≡◌, ◌<◌, Some, length};
ghost use Rattle.co_coord.specs.Reading.{is_above};
ghost use Rattle.co_member.specs.Reading.{open_after};
ghost use Rattle.co_plain.specs.Federation.{Federation};
ghost use Rattle.co_state.specs.Table.{least_where, lesser};
ghost use Rattle.co_cluster.specs.Readings.{StandsUp, least_to, open_above};
ghost use Rattle.co_cluster.specs.Standing.{RepresentsCluster};

use crate::cluster::Cluster;
use co_base::Txn;
use co_engine::Engine;

/// The lesser of two transactions, where there are any.
fn lesser(one: Option<Txn>, other: Option<Txn>) -> Option<Txn>
    ensures { result ≡ lesser one other }
{
    match (one, other) {
        (Some(t), Some(u)) => Some(t.min(u)),
        (Some(t), None) | (None, Some(t)) => Some(t),
        (None, None) => None,
    }
}

/// The same number again, where there is one.
fn copied(after: &Option<Txn>) -> Option<Txn>
    ensures { result ≡ after.now }
{
    match after {
        Some(t) => Some(*t),
        None => None,
    }
}

impl<E: Engine + Drop> Cluster<E> {
    /// The least undecided transaction of a member above a number, or the least of all.
    fn undecided_after(&self, after: &Option<Txn>) -> Option<Txn>
        requires stands { StandsUp E.takes E.stands_for self.now }
        ensures { (s : Federation) → RepresentsCluster E.takes E.stands_for self.now s → result ≡ least_to (length s.kinds) (λ m. open_after (s.member m).engine after.now) }
    {
        let mut least = None;
        for place in 0..self.member_count() {
            least = lesser(least, self.member_at(place + 1).open_after(copied(after)));
        }
        least
    }

    /// The least transaction in the table of a coordinator above a number, or the least of all.
    fn tabled_after(&self, after: &Option<Txn>) -> Option<Txn>
        requires stands { StandsUp E.takes E.stands_for self.now }
        ensures { (s : Federation) → RepresentsCluster E.takes E.stands_for self.now s → result ≡ least_to s.coordinators (λ c. least_where (λ t e. is_above after.now t) (s.coord c).table) }
    {
        let mut least = None;
        for place in 0..self.coord_count() {
            least = lesser(least, self.coord_at(place + 1).open_after(copied(after)));
        }
        least
    }

    /// The least open transaction above a number, or the least of all.
    pub(crate) fn open_after(&self, after: Option<Txn>) -> Option<Txn>
        requires stands { StandsUp E.takes E.stands_for self.now }
        ensures { (s : Federation) → RepresentsCluster E.takes E.stands_for self.now s → result ≡ open_above s after }
    {
        lesser(self.undecided_after(&after), self.tabled_after(&after))
    }

    /// The least open transaction above one.
    pub(crate) fn open_above(&self, t: Txn) -> Option<Txn>
        requires stands { StandsUp E.takes E.stands_for self.now }
        ensures number { t < 4294967296 }
        ensures next { (s : Federation) → RepresentsCluster E.takes E.stands_for self.now s → result ≡ open_above s (Some t) }
    {
        self.open_after(Some(t))
    }
}
