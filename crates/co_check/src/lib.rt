//! A checker of transcripts: whether the committed transactions read what they read when run whole, one by one, in the order of their
//! decisions. It trusts nothing that wrote the transcript.
//!
//! The transcript is read line by line. What is kept is what undecided transactions did, and the records of the serial run so far
//! (Bernstein, Hadzilacos and Goodman, *Concurrency Control and Recovery in Database Systems*, 1987, on serial executions).
//!
//! **What is proved.**
//!
//! - Over a source that tells its bytes, of every text (`checked`): `Serial` comes where each line is an item, their order is that of a transcript,
//!   and each committed transaction was answered, before its decision, as in the serial run in decision order, with the number of these transactions
//!   and the records of that run; `Differs` where the same holds but for a committed transaction, and names the first one, its first operation that
//!   was answered otherwise, and both replies; `Text` names the first line that is no item or stands where it may not, or the line past the end where
//!   the last group is cut; `Long` and `Many` the first line past a limit.
//! - `Read` comes where the source failed, and only there.
//! - A decision is a commit record of the node that decides the transaction; the definitions of the transcript's order, of what counts and of the
//!   serial run stand in the crate, and nothing is taken from what a program or a law says of itself.
//! - A text is checked with one answer, so each comes exactly where its cause is (`texts_are_checked_once`).
//! - `write_check` writes the text of the verdict, or a front of it where the sink failed, and nothing before a fault (`written`).
//! - **So it is of sources and sinks that tell nothing of what is to come**, as standard streams (`heard` of `check_items`, `write_check` and
//!   `judge`): of every text that begins with the bytes that the source gave, and goes on with whatever comes behind them, with nothing where it
//!   ended, provided that it gave none behind an end. What the sink took is the text of that verdict.
//! - `judge` takes no word, or `why`, and any other words are `Usage`, exactly (`usage`), with nothing read or written (`untouched`); with `why` the
//!   text has both replies (`told_in`). Its note is put whole, or the sink of notes failed or had no memory (`noted`).
//! - In the group of the head no message stands before the headers of all nodes, so a fault is told at the first line at which there is one: every
//!   front that is taken can be made whole (`fronts_can_be_whole` in `co_law_check`).
#![tactic(auto)]

mod checker;
mod client;
mod copies;
mod entry;
mod fault;
mod fitting;
mod judging;
mod laws;
mod ledger;
mod lines;
mod note;
mod place;
mod reader;
mod same;
mod serial;
mod shaping;
mod starting;
mod text;
mod verdict;
mod writing;

pub use client::{Answered, Client, Committed};
pub use entry::Entry;
pub use fault::CheckFault;
pub use judging::{Outcome, judge, judge_resumed, note_outcome};
pub use laws::{records_have_their_lines, resumed_texts_are_checked_once, texts_are_checked_once};
pub use lines::{check_items, check_resumed, read_items};
pub use place::Place;
pub use same::{is_same, same_value};
pub use starting::RecordName;
pub use text::{Detail, put_verdict};
pub use verdict::{Ending, Verdict};
pub use writing::{Finding, Input, VerdictFault, write_check, write_resumed_check};
