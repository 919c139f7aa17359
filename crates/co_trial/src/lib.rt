//! Trials: a federation of one member of each kind, driven by the schedule that a maker gives for a number, settled, and summed up in one line.
//!
//! A trial is a function of its number and of how many events it has: its directory is in memory and never fails.
//!
//! **What is proved.**
//!
//! - `trial` runs what its number defines: a member of each kind and two coordinators over logs without records, the first events that the maker
//!   makes, each from the messages that were sent before it, and then the events of settling.
//! - Each field of the summary is what it says of that one run (`IsTrial`): the begun and the decided transactions, the SHA-256 of the text of all
//!   items, and that nothing is open; that the durable records are the serial ones is compared, and by the laws it is so.
//! - The line is compact JSON (`summary_line`).
//! - Its directory never fails and tells its files, and no log gets too long for a file, so no fault comes but want of memory.
#![tactic(auto)]

mod calm;
mod deciding;
mod making;
mod playing;
mod running;
mod summary;
mod tally;

pub use calm::CalmHome;
pub use running::trial;
pub use summary::Summary;
