//! The nodes of a federation that was opened.
use co_base::{Marks, Txns};
use co_coord::Coord;
use co_member::Member;

/// The nodes of a federation, each on its log.
#[derive(Drop)]
pub struct Nodes<E> {
    /// The members, from member 1 on.
    pub members: Vec<Member<E>>,
    /// The coordinators, from coordinator 1 on.
    pub coords: Vec<Coord>,
    /// The numbers that stand in the logs, ascending.
    pub used: Txns,
    /// The headers of the logs that were made.
    pub marks: Marks,
}
