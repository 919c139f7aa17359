//! The voting rule is minimal: each of its parts but one is needed.
//!
//! Each law is the contract of a function without a body.
//!
//! **What is proved.**
//!
//! - **The voting rule is minimal**. For each of its parts but one there is a closed run over fresh logs in which one vote leaves that part out,
//!   every other move is as it must be, and committed transactions do not read serially (`voting_rule_is_minimal`): lost operations, a stale read, a
//!   voted reader of what is written, a voted writer of it, a voted writer of what is read. What is left out is that part alone: where the rule says
//!   yes without one part and without another, it says yes (`one_part_is_left_out`). The part that remains, an active reader of what is written, has
//!   no such claim: it is a courtesy to readers. The judge calls the transcripts of the five runs `not serial`, and that of a run without the sixth
//!   part `serial` (the cases `a_vote_that_does_not_ask_for_..`).
#![tactic(auto)]

mod minimal;
mod parts;

pub use minimal::voting_rule_is_minimal;
pub use parts::one_part_is_left_out;
