//! Settling: from every state of a run over sound logs, restarts, exchanges and timers in a fixed order lead to a state
//! where nothing is open, in a bounded number of events.
//!
//! Each law is the contract of a function without a body. The argument is told in `docs/PROOF.md`.
//!
//! **What is proved.**
//!
//! - In every state of a run over sound logs where something is open there is a next turn of settling (`settling_is_never_stuck`).
//! - Where no stop is armed, each event of an exchange finds its message sent and its node up (`exchanges_are_served`), so its node answers it
//!   (`events_are_answered`); a turn raises nothing of what is left, and each exchange and each timer lowers it (`turns_lower`), which is at most
//!   three for each open pair and one for each open transaction (`what_is_left_is_counted`).
//! - An exchange is of a transaction that is collecting or committed at a coordinator, voted at a member, or asked for its vote there
//!   (`exchanges_are_of_busy_ones`), and no turn makes one so that was not (`turns_make_none_busy`).
//! - However far settling has come, it has a next turn while something is open (`settling_has_a_next_turn`, `settling_goes_on`) and is within its
//!   bound (`settling_is_bounded`); it comes to its end (`settling_ends`), in one way only (`settling_is_one`); each of its timers stands in a quiet
//!   state (`timers_stand_in_quiet_states`).
//! - Where nothing is open, and so after settling, the durable and the installed records of every member are those of the serial run
//!   (`settled_records`, `settling_leaves_serial_records`).
#![tactic(auto)]

mod settling;
mod turn;

pub use settling::{
    settled_records, settling_ends, settling_goes_on, settling_has_a_next_turn,
    settling_is_bounded, settling_is_one, settling_leaves_serial_records,
    timers_stand_in_quiet_states,
};
pub use turn::{
    events_are_answered, exchanges_are_of_busy_ones, exchanges_are_served, settling_is_never_stuck,
    turns_lower, turns_make_none_busy, what_is_left_is_counted,
};
