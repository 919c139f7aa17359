//! How long logs get: in every run over logs that have no record, each log is bounded by a plain sum over what happened,
//! and so is each generation. So a run of known length over short keys and values meets no limit of a log file.
//!
//! Each law is the contract of a function without a body. The argument is told in `docs/PROOF.md`.
//!
//! **What is proved.** In every run over logs without records, and one event beyond where no stop is armed, no log of a member or of a coordinator is longer than 31
//! bytes, 30 for each happening and three times the bytes of each operation, and no generation is greater than one more than the checkpoint events
//! (`logs_stay_within_their_room`); these rooms are sums (`rooms_are_sums`).
#![tactic(auto)]

mod logs;

pub use logs::{logs_stay_within_their_room, rooms_are_sums};
