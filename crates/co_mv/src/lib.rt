//! An engine that keeps versions, so that each transaction reads the records as they were at its first
//! operation.
//!
//! It meets the contract of all engines, and that of those whose readers may stay. What it keeps of a key are
//! exactly the versions that some active transaction, a new one or a pinned reader can still read.
//!
//! **What is proved.** The multiversion engine meets the contract of all engines; a reader that is pinned sees the records as they were installed at its pin; the versions
//! that it lists of a key are exactly those that some active transaction, a new one or a pinned reader can still read.
#![tactic(auto)]

mod archive;
mod chain;
mod chains;
mod mv_engine;
mod pruning;
mod reading;
mod recents;
mod snapshots;
mod stale;
mod version;

pub use mv_engine::MvEngine;
