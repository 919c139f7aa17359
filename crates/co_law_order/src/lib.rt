//! Laws of commitment ordering itself (Raz, The principle of commitment ordering, VLDB 1992), on traces: that it is a matter of
//! each member alone, and that among autonomous members serializability needs it.
//!
//! Each law is the contract of a function without a body. They speak of lists of begins, operations and commit records, whatever
//! made them; that the items of every run are ordered so is a law of runs (`commitment_ordered` of `co_law`).
//!
//! **What is proved.**
//!
//! - **Ordering is local**. Items are commitment ordered exactly where the part of each member is, taken alone: its own operations and installs, with
//!   the begins and the one list of decisions. The part tells the same decisions, has no operation of another member, and of commit records elsewhere
//!   those alone that decide (`ordering_is_local`). So a member that keeps to the rule needs to know nothing of the others but what is decided (Raz,
//!   VLDB 1992).
//! - **Ordering is enough, and among autonomous members it is necessary**, on traces, whatever made them. A trace that is ordered, each transaction
//!   decided once, is serializable by the order of decisions (`order_suffices`). Where a member let t precede u while u was decided first, one more
//!   member may join, of any kind, that keeps the order by itself, with the same decisions and nothing changed elsewhere, and no order of distinct
//!   numbers serializes the whole (`order_is_necessary`): the new member does nothing but one transaction after the other. So a trace of
//!   coordinators' transactions is ordered exactly where it stays serializable whatever member joins it that keeps the order by itself
//!   (`order_is_exact`). This is said of histories, not of schedulers as programs, and not of local transactions, which operate at one member alone.
//!   A member of ours, of each kind, may be the one that joins: there is a closed run in which it does just that (`own_members_play_the_part` in
//!   `co_law_own`; replayed by the case `a_member_that_joins_shows_that_the_order_is_needed`).
#![tactic(auto)]

mod local;
mod necessary;

pub use local::ordering_is_local;
pub use necessary::{order_is_exact, order_is_necessary, order_suffices};
