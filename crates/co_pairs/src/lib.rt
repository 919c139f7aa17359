//! Transactions that have prepared: their votes as a table, and whether they may wait side by side.
//!
//! **What is proved.** Prepared transactions are free exactly where their numbers differ and no two of them are in conflict.
#![tactic(auto)]

mod prepared;

pub use co_state::Sets;
pub use prepared::{Prepared, PreparedList, are_free};
