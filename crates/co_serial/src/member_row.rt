//! Records of several members in one list.
use co_base::{Row, Sequence};

/// A record of a member.
#[derive(Drop, PartialEq)]
pub struct MemberRow {
    /// The number of the member, from 1 on.
    pub member: u8,
    /// The record.
    pub row: Row,
}

/// Records of members: members ascending, and the keys of each member ascending.
pub type MemberRows = Sequence<MemberRow>;
