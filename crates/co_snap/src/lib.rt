//! What a reader sees that comes to a multiversion member behind a line of a schedule, and stays: the question as one call, for a caller that has no command line.
//!
//! **What is proved.** Where the whole schedule was done, the rows are the records of the serial run, in the order of decisions, of exactly the transactions that the member had
//! installed behind the line, and the other answers come each in its case alone. Each error comes by the cause that the command `run` has for it, before any answer.
#![tactic(auto)]

mod look;
#[cfg(test)]
mod rows;

pub use co_top::{Ask, Looked};
pub use look::{LookFault, look_after};
