//! The locks of one member: key locks for writing and range locks for reading.
//!
//! `specs/Locks` says what locks are as plain data and whom they block. Writers are kept by key, readers of
//! one key by that key, and readers of more keys by range, with an index of those ranges by where their bounds
//! part. So to find a blocker costs what is in the way, not what is held.
//!
//! **What is proved.** The blockers are the least other transactions that strict two-phase locking names, after any calls.
#![tactic(auto)]

mod fork;
mod fork_index;
mod holders;
mod key_index;
mod lock_table;
mod place;
mod range_holders;
mod range_index;

pub use lock_table::LockTable;
