//! A run over fresh logs in a directory in memory, and a run that goes on over what it left.
//!
//! What is promised of a run has premises: that the source tells its bytes, the sink what it took and the directory its files, and that the logs
//! that were found are fresh or sound. Here a proved caller meets all of them at once, and twice in a row.
//!
//! **What is proved.** Each of the two ends as the command `run` does. Where both are done, committed transactions of each read what they read when run
//! whole, one by one, in the order of decisions (commitment ordering: Raz, VLDB 1992), and behind each run the files alone give the records of its serial
//! run; of the second one this is said where it has as many members and coordinators as the first one.
#![tactic(auto)]

#[cfg(test)]
mod examples;
mod runs;

pub use runs::{TwoRuns, run_twice};
