//! What the clients saw.
use co_base::{Node, Reply, Txn};
use co_serial::Site;
use co_state::History;

/// An operation with the reply that the client saw.
#[derive(Drop)]
pub struct Told {
    /// The operation, and the member where it was done.
    pub site: Site,
    /// The reply.
    pub reply: Reply,
}

/// The client's side of one transaction.
#[derive(Drop)]
pub struct Session {
    /// The node that decides: the coordinator, or the member of a local transaction.
    pub by: Node,
    /// The answered operations with their replies, newest first.
    pub told: History<Told>,
    /// Whether the deciding node answered a request to commit or to abort.
    pub asked: bool,
}

/// A committed transaction, with what its client saw when it was decided.
#[derive(Drop)]
pub struct Decided {
    /// Its number.
    pub txn: Txn,
    /// The operations answered before the decision with their replies, newest first.
    pub told: History<Told>,
}
