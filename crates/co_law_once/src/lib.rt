//! At most once: each vote, each install, each decision and each end becomes stable once in a run, whatever is lost, repeated or resent; and
//! where nothing is, each message is sent once. So what a transaction costs is bounded by its participants.
//!
//! Each law is the contract of a function without a body.
//!
//! **What is proved.**
//!
//! - **At most once**. In every run a member forces the vote of a transaction at most once and its install at most once, and each transaction is
//!   decided at most once, whatever is lost, repeated or resent (`records_are_forced_once`): two forced writes at a member and one at the
//!   coordinator, as two-phase commit with presumed abort has at best. So the items tell of each commit record at most once at each node
//!   (`commits_are_told_once`), and of each prepare at most once at each member, and of none that the opened logs know (`prepares_are_told_once`). An end is not forced and may be written again after a crash, but becomes stable at most once, at one node, in all
//!   runs over the same files (`ends_are_told_once`).
#![tactic(auto)]

mod once;

pub use once::{
    commits_are_told_once, commits_cost_as_presumed_abort, commits_cost_four_messages,
    ends_are_told_once, forced_records_are_few, prepares_are_told_once, records_are_forced_once,
};
