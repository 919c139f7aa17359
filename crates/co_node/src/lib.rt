//! The log of a node as the plain log of the definitions, for members and coordinators alike.
//!
//! Each call says what it leaves of the plain log that the log stands for, and how it leaves the directory. After a fault the
//! files of the node have the old records, or those of the completed write. Two records that are forced together are spelled out first, so that
//! a change in memory can come between, and no sets are copied.
//!
//! **What is proved.**
//!
//! - A log stands for one plain log of the definitions (`RepresentsLog`).
//! - Forcing one or two records, closing and filling the spare end as the armed stop says, tell what the plain write tells, and leave the log
//!   standing for what it leaves (`written`); each leaves the directory as its answer says: held and clean after it is done or stopped, untouched
//!   where the file would be too long, which is then so of the records that the completed write would leave (`IsOverlong`), and after a failure, or
//!   want of memory, with the old records or those of the completed write (`answered`); the files of other nodes stay (`rest`).
//! - Waiting, arming, crashing and reading again do what the definitions do.
//! - A log that is opened stands for the plain log that is opened, and the two files of a standing log have exactly its records (`opened_logs_stand`,
//!   `standing_logs_are_told`).
#![tactic(auto)]

mod forcing;
mod going;
mod laws;
mod spare;
mod writing;
mod written;

pub use forcing::{force, force_batch, force_prepare, spell_both};
pub use going::{arm, crash, disarm, keep_waiting, reread};
pub use laws::{opened_logs_stand, standing_logs_are_told};
pub use spare::{close, fill, filled_generation, spare_closed};
pub use writing::{Writes, write};
pub use written::Written;
