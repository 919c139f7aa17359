//! Histories that only clauses read.
//!
//! A history is made of snapshots, each of which remembers the one before it. It has no bytes, and
//! each call on it does nothing at run time.
//!
//! **What is proved.** A history is what was noted in it, in that order, and nothing else. It is made of std's snapshots, each of which remembers the one before it, so
//! it has no bytes, and no proof by hand sets it.
#![tactic(auto)]

mod past;
mod text;
mod trace;

pub use text::Text;
pub use trace::Trace;
