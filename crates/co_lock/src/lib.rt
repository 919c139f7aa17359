//! The engine that locks: strict two-phase locking, with read locks that end at the vote.
//!
//! Writes are in place, and each undecided transaction keeps what leads back. Write locks are held to the
//! decision and read locks to the vote; what was read stays on record until the decision.
//!
//! **What is proved.** The engine of strict locking meets the contract of all engines.
#![tactic(auto)]

mod engine;
mod locked_store;

pub use engine::LockEngine;
