//! An engine with backward validation (Kung and Robinson, On Optimistic Methods for Concurrency Control,
//! ACM TODS 1981).
//!
//! Writes stay private until the transaction is committed, and no operation is ever blocked. A read is
//! overwritten where a later install wrote a key of its range; whether a transaction has such a read is
//! asked when it is to vote. For that the engine keeps the write sets of recent installs, and only those
//! that came after the oldest read of an active transaction.
//!
//! **What is proved.** The engine with backward validation meets the contract of all engines, and keeps exactly the write sets of the installs after the oldest read of
//! an active transaction.
#![tactic(auto)]

mod engine;
mod installed;
mod lasts;
mod old;
mod reading;
mod reads;
mod register;
mod validation;

pub use engine::OccEngine;
