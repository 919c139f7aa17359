//! An engine of any kind that keeps the state of an engine itself, slow and plainly right: the other engines
//! are compared with it.
//!
//! **What is proved.** `PlainEngine`, of all three kinds, meets the contract of all engines: answers, blockers, sets, stale keys, votes, commits, drops and dumps.
#![tactic(auto)]

mod plain;

pub use plain::PlainEngine;
