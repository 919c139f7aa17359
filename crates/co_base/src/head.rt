//! The head of a schedule: which members and coordinators a federation has.
ghost use Rattle.std.specs.Prelude.{◌≤◌, length};
ghost use Rattle.co_base.specs.Limits.{most_coordinators, most_members};

use crate::sequence::Sequence;

/// The kinds of engines that a member may have.
#[derive(Clone, Copy)]
pub enum Kind {
    /// Strict locking.
    Lock,
    /// Backward validation.
    Occ,
    /// Multiversion.
    Mv,
}

/// A list of kinds, one for each member.
pub type Kinds = Sequence<Kind>;

/// The members of a federation by their kinds, and how many coordinators it has.
#[derive(Drop)]
pub struct Head {
    /// The kind of each member, from member 1 on: 1 to 16 of them.
    pub kinds: Kinds,
    /// How many coordinators there are: 1 to 8.
    pub coords: u8,
    pub ghost some_member: { 1 ≤ length kinds },
    pub ghost members: { length kinds ≤ most_members },
    pub ghost some_coord: { 1 ≤ coords },
    pub ghost coordinators: { coords ≤ most_coordinators },
}
