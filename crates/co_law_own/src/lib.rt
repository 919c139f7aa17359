//! The member that joins in the proof that commitment ordering is necessary is one of ours.
//!
//! Each law is the contract of a function without a body.
#![tactic(auto)]

mod own;

pub use own::own_members_play_the_part;
