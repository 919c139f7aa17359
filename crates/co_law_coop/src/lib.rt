//! Cooperative termination, and its laws: what another member tells a member in doubt is true, and no rule over what the members hold
//! could tell more.
//!
//! Each law is the contract of a function without a body.
//!
//! **What is proved.**
//!
//! - A member in doubt asks another member, and what that tells is one table (`told_at_turn`; Skeen, SIGMOD 1981). **A verdict that it gives is true
//!   where it is handed**: a commit is of a settled transaction, an abort of one that is presumed aborted (`handed_verdicts_are_true`), from every
//!   state with all invariants and whole nodes. So every law of runs holds of runs in which members consult each other.
//! - **No rule could tell more where everybody is in doubt.** Wherever the last yes is about to arrive, a stop of the coordinator in its log write
//!   leaves one of two states that nobody but it can tell apart: in one the transaction is settled, in the other presumed aborted, and no verdict is
//!   true of both (`doubts_may_go_either_way`).
#![tactic(auto)]

mod laws;
mod told;

pub use laws::{doubts_may_go_either_way, handed_verdicts_are_true};
pub use told::Told;
