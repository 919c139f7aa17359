//! Settling: what a run left open is brought to its end, by restarts, exchanges and timers in a fixed order, until nothing is open.
//!
//! Each choice is made anew from what the federation tells: the first node that is down is started again; where all are up, the first
//! exchange that can help is done, and where none can help the first timer fires. An exchange is sought among the transactions alone that
//! were busy when all nodes were up, so that one that nobody asked to end costs no more than its timers. A settled federation has decided every transaction.
//!
//! **What is proved.**
//!
//! - `settle` takes the armed stops away and ends what a run over sound logs left open: its items are the transcript of events that settle the
//!   federation as the definitions say, numbered on, each counted as one step, and within the bound of the laws; the federation stands for what they
//!   leave (`settled`).
//! - They are at most 24 + 3 * (4 * members + 3) * open transactions, 13,172,760 with the most that there may be of either (`settling_is_short`).
//! - A fault ends it as one of an event, and the files have what some of its events left, with what that event says of a file that would be too long
//!   (`IsCutShort`); no other fault comes (`ended`).
#![tactic(auto)]

mod candidates;
mod counting;
mod exchanges;
mod laws;
mod notes;
mod settling;
mod telling;
mod turns;

pub use counting::Steps;
pub use laws::{
    events_begin_few, fresh_runs_leave_few_open, open_ones_are_known, settling_is_short,
};
pub use settling::settle;
