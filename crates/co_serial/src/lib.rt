//! The serial run: transactions one after another, each whole, on one map of all records.
//!
//! It knows no locks, versions, votes, messages or logs. What the federation answers is compared with
//! it (Bernstein, Hadzilacos and Goodman, *Concurrency Control and Recovery in Database Systems*, 1987,
//! on serial executions). It also has the text in which records of members are told.
//!
//! **What is proved.** `run_whole` gives the replies of the serial run and leaves its map; after want of memory the map has the effect of a prefix. A scan walks the
//! records of its range alone. The line of a record has one text, and one function that writes it (`append_record`).
#![tactic(auto)]

mod changes;
mod member_row;
mod record_map;
mod record_text;
mod serial_map;
mod site;

pub use member_row::{MemberRow, MemberRows};
pub use record_map::RecordMap;
pub use record_text::append_record;
pub use serial_map::{SerialMap, run_whole};
pub use site::{Site, Sites};
