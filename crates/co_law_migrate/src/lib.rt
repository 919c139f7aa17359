//! What a migration keeps: the log of a node may give way to the spare file that a checkpoint of the node fills.
//!
//! **What is proved.**
//!
//! - The log of a node may give way to the migrated one: what a checkpoint leaves of the node that is opened over it, a member of a kind that writes
//!   nothing in place (`migrated`). Of a member it tells the same view, of a coordinator the same commits without end
//!   (`migrated_logs_tell_the_same`).
//! - Where each record of a log is allowed at its place, and within its bounds, so is each of the migrated one (`migrated_logs_are_allowed`).
//! - Where logs are sound and any of them give way, they stay sound, and the durable records of every member stay (`migrated_logs_stay_sound`).
#![tactic(auto)]

mod laws;

pub use laws::{migrated_logs_are_allowed, migrated_logs_stay_sound, migrated_logs_tell_the_same};
