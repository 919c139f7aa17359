//! What each node is by itself, over any opened logs that its grammar allows: whole, so that a restart never finds a
//! log that is not allowed, and writable, so that no event writes what cannot be written.
//!
//! **What is proved.**
//!
//! - Each event of a whole member and of a whole coordinator leaves it whole, with the conditions of the call as premises, however its log write ends
//!   (`members_stay_whole`, `coordinators_stay_whole`), and a node that is opened over an allowed log is whole (`opened_members_are_whole`,
//!   `opened_coordinators_are_whole`).
//! - Each event of a whole node leaves it such that its records are within their bounds and in order, and each vote, decision and filled spare that
//!   it may write next can be written (`members_stay_writable`, `coordinators_stay_writable`, `opened_members_are_writable`,
//!   `opened_coordinators_are_writable`).
//! - A coordinator that is down has committed entries alone (`down_coordinators_have_commits_alone`).
//! - In every state, whole or not, a member answers yes, or decides alone, exactly where its table leads to a ballot, the voting rule says yes and
//!   the write completes (`yes_is_exact`); a coordinator decides exactly in two rows of its table, where its write leaves the commit record stable,
//!   and answers so where it completes (`decisions_are_exact`).
#![tactic(auto)]

mod causes;
mod coords;
mod members;

pub use causes::{decisions_are_exact, yes_is_exact};
pub use coords::{
    coordinators_stay_whole, coordinators_stay_writable, down_coordinators_have_commits_alone,
    opened_coordinators_are_whole, opened_coordinators_are_writable,
};
pub use members::{
    members_stay_whole, members_stay_writable, opened_members_are_whole,
    opened_members_are_writable,
};
