//! Numbers of transactions, with the least one at or above any number.
//!
//! A contract sees the finite map from transactions to numbers. Each call takes the logarithm of how many
//! transactions there are.
//!
//! **What is proved.** A map from transactions to numbers; its least number at or above any one, and its greatest below it, are those of the map.
#![tactic(auto)]

mod bearers;
mod stamps;

pub use stamps::Stamps;
