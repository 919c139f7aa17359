//! The two small decisions of a member: its ballot on a transaction, and what a timer does.
//!
//! `ballot` is the voting rule of commitment ordering (Raz, *The principle of commitment ordering*, VLDB
//! 1992; the profile is this project's own) on the four values that it looks at.
//!
//! **What is proved.** `ballot` is the voting rule from four values, each case exactly; the timer drops exactly an active transaction.
#![tactic(auto)]

mod firing;
mod verdict;
mod voting;

pub use firing::{Fire, Phase, timer};
pub use verdict::Ballot;
pub use voting::ballot;
