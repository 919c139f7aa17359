//! What the log of a node tells, read from its lent records.
//!
//! **What is proved.** A member's and a coordinator's log are recovered as defined: installed records by redo and undo, votes with all that they read and wrote, commits
//! without end; a log with a record that is not allowed where it stands is refused at the first one, by its place.
#![tactic(auto)]

mod coord;
mod fault;
mod locks;
mod member;
mod owned;
mod past;
mod vote;
mod votes;

pub use coord::recover_coord;
pub use fault::RecoverFault;
pub use member::recover_member;
pub use past::{Commits, CoordPast, Decided, MemberPast};
