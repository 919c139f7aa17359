//! The one part of the voting rule that is a courtesy: that an active reader of what is written holds the vote. With it left out of
//! every vote all invariants are kept, so every promise is.
//!
//! The law is the contract of a function without a body. That each other part is needed is a law of `co_law_minimal`.
#![tactic(auto)]

mod courtesy;

pub use courtesy::active_readers_are_a_courtesy;
