//! What is known of one transaction.
use co_base::{Node, Reply, Txn};
use co_serial::Site;
use co_state::History;

/// An operation that was answered with a reply.
#[derive(Drop)]
pub struct Answered {
    /// The number of its event.
    pub number: u32,
    /// The operation, and the member where it was done.
    pub site: Site,
    /// The reply.
    pub reply: Reply,
}

/// What is known of one transaction.
#[derive(Drop)]
pub struct Client {
    /// The node that decides it, once it was begun.
    pub by: Option<Node>,
    /// The operations that were answered before its decision, newest first; none once it is decided.
    pub told: History<Answered>,
    /// Whether it is decided.
    pub decided: bool,
}

/// A decided transaction.
#[derive(Drop)]
pub struct Committed {
    /// The transaction.
    pub txn: Txn,
    /// The operations that were answered before its decision, newest first.
    pub told: History<Answered>,
}
