//! The transcript of every run is well shaped, and a checker that reads it finds its committed transactions serial: over fresh logs by itself, and over
//! sound ones behind the records that they give.
//!
//! Each law is the contract of a function without a body.
//!
//! **What is proved.**
//!
//! - The transcript of every schedule over logs without records is well shaped to its end, tells of every decision, and each transaction whose
//!   decision it tells was answered as when run whole behind the earlier ones (`transcripts_are_serial`); so a checker that reads its text finds it
//!   serial, with the number of decisions and the records of their serial run, where the reply to a scan has no longer line and there are no more
//!   lines than it reads (`transcripts_are_found_serial`).
//! - A schedule of at most 883,010 events has no more lines (`schedules_are_found_serial`), and where at most 4,062 of them write or erase, no scan
//!   has a longer one, so nothing is asked of the transcript at all (`few_writes_are_found_serial`).
//! - So is the transcript of a resumed run, read behind the records that the opened logs give: the serial run begins with them
//!   (`resumed_transcripts_are_found_serial`).
//! - Items stand in their text, each on a line of its own (`items_stand_in_their_text`).
#![tactic(auto)]

mod laws;

pub use laws::{
    few_writes_are_found_serial, fronts_can_be_whole, items_stand_in_their_text,
    resumed_transcripts_are_found_serial, schedules_are_found_serial, transcripts_are_found_serial,
    transcripts_are_serial,
};
