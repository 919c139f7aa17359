//! The rule, both ways: why a member refuses, holds or grants a vote and an operation, and which events decide a transaction;
//! each exactly where the tables say so.
//!
//! Each law is the contract of a function without a body. Why a member answers yes, and a coordinator `committed`, is said by
//! `yes_is_exact` and `decisions_are_exact` of `co_law_node`.
//!
//! **What is proved.**
//!
//! - **The rule, both ways**, in every state, whole or not. The verdict on a vote is lost exactly where the counts differ, stale exactly where they
//!   agree and a read was overwritten, held by the least one in the way exactly where besides no read is stale, and yes exactly where none of these
//!   is so (`verdicts_are_exact`). A no is answered and sent exactly where the transaction may be voted on and the rule refuses (`no_is_exact`); a
//!   yes is sent exactly where the rule grants it and its record was written, or where the transaction is voted already (`yes_sent_is_exact`); a vote
//!   is held exactly where someone is in the way, and then nothing changes but a mark (`held_is_exact`); an operation is `gone`, `too many`,
//!   `blocked` or done exactly by its counts and its lock (`blocked_is_exact`). With `yes_is_exact` and `decisions_are_exact` of `co_law_node` this
//!   is the whole rule.
//! - **Which events decide**, from every state with all invariants: exactly a commit at a coordinator without participants, a local commit that the
//!   rule grants, and the last yes that lacks, each at a node that is up, where the write leaves the record stable, stopped or not; no other event
//!   decides (`decisions_are_exact_events`), nor does a verdict that is handed (`handed_verdicts_decide_nothing`). No run over sound logs changes
//!   which numbers stand in its opened logs, nor its members and coordinators (`opened_numbers_stay`).
//! - **Which events vote, refuse and block**, in every state, and with what sessions, the wire and nodes that are down let through. A yes is sent
//!   exactly by a prepare that was sent and a vote that is tried again, each at a member that is up, where the rule grants it and the record is
//!   written, or, by the prepare, where the transaction is voted already (`yes_votes_are_exact_events`); a no exactly by these two where the rule
//!   refuses (`no_votes_are_exact_events`). They and the commit of a local transaction answer what the rule finds, and no other event does
//!   (`vote_answers_are_exact_events`); an operation answers exactly by its counts and its lock (`operation_answers_are_exact_events`).
#![tactic(auto)]

mod events;
mod votes;

pub use events::{
    decisions_are_exact_events, handed_verdicts_decide_nothing, no_votes_are_exact_events,
    opened_numbers_stay, operation_answers_are_exact_events, vote_answers_are_exact_events,
    yes_votes_are_exact_events,
};
pub use votes::{
    blocked_is_exact, held_is_exact, no_is_exact, verdicts_are_exact, yes_sent_is_exact,
};
