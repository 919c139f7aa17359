//! Each item of a run has a line in a transcript, and there are few of them for each event: what an event tells is bounded by what the
//! events before it said.
//!
//! Each law is the contract of a function without a body.
//!
//! **What is proved.**
//!
//! - Each item of a run over logs without records has a line in a transcript: every number, key and value that it tells is in its set
//!   (`items_have_lines`); over any logs whose records are of their format so has each one, but for the reply to a scan of more records than a count
//!   of 32 bits tells (`opened_items_have_lines`).
//! - Over these a run has at most 26 items, and 19 for each event (`items_are_few`).
//! - No item but the reply to a scan has a line of more than 8,209 bytes (`scans_alone_are_long`), and that one, over logs without records, at most
//!   32 bytes and 4,130 for each event that writes or erases (`scans_are_as_long_as_what_was_written`).
#![tactic(auto)]

mod laws;

pub use laws::{
    items_are_few, items_have_lines, opened_items_have_lines, scans_alone_are_long,
    scans_are_as_long_as_what_was_written,
};
