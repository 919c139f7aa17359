//! The forced log of a node over two files.
//!
//! **What is proved.**
//!
//! - A log write adds its records whole or not at all, whatever a crash leaves at each of its device calls: the images at calls 1 and 2 have the old
//!   records, those at 3 and 4 the old ones or with them the new ones, and a stopped write says which.
//! - `make`, `force`, `close_spare`, `fill_spare`, `cut` and `reattach` leave the log, both files and the home as said, and after a fault of the home
//!   the told file has the old records or both.
//! - `attach` chooses the current file; `InUse`, `Full` and `Bad` come in their order, with the place of the first fault.
//! - A log write that would be too long, or that finds no memory, leaves the old records; a refusal for length changes nothing at all.
//! - After every answer of making, forcing, closing or filling it is said which file is current and with exactly which records, both files are within
//!   268,435,456 bytes, and a start finds the current one.
//! - The files of a log are the two of its node, and what one log does leaves every other node's log held.
//! - A log that is not resumed is fresh, of every home.
//! - A fault of the home is never tried again and forgotten.
//! - An armed stop of a call that a log write makes is never passed over; the two files keep their places; no file is too long where one is called
//!   bad; what differs when a file is read again is named by its first place; attaching and reading again leave the rest of the home.
//! - A file is a log with one list of records, or bad at one place, and not both, and so are the two files of a node.
//! - A file of either version is read, all of it in the version that its first record says; what is written is version 2, only a log of version 2 is
//!   appended to, and a filled spare is version 2 (`versions_stay`).
#![tactic(auto)]

mod append;
mod attaching;
mod batch;
mod closing;
mod counting;
mod fault;
mod laws;
mod log;
mod making;
mod marks;
mod rereading;
mod scanning;
mod spare;
mod stop;
mod writing;

pub use batch::SpelledBatch;
pub use fault::{LogFault, NodeFault, StoppedWrite};
pub use laws::{
    attached_logs_stand, faults_are_split, files_are_judged_once, files_stay_in_order,
    gates_end_files, held_files_are_current, images_are_old_or_new, logs_leave_each_other,
    nodes_are_judged_once, records_are_added, starts_find_the_current_file, versions_stay,
};
pub use log::Log;
