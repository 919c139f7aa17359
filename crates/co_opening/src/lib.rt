//! The nodes of a federation, opened over a directory of logs: what was found there is what they stand for.
//!
//! All logs are read before any is judged by its records, and all are judged before any file is written.
//!
//! **What is proved.**
//!
//! - `open_nodes` opens every node of a head over the files that a directory tells: each stands for the plain node that its log tells, the numbers in
//!   the logs are used, and the files hold the logs that are made (`opened`, `kept`, `clean`).
//! - A log that is in use and not resumed, files that are no log or too long, a record that may not stand where it does, a current file of version 1,
//!   and too many numbers are refused for that cause, at the first node in order and each before the next (`refused`), and then no file is changed
//!   (`untouched`); what is opened has nothing of it (`fit`), so a directory that tells its files is opened or has one such cause
//!   (`directories_are_opened_once`); a fault of the directory is never passed over (`device`, `quiet`).
//! - `attach_all` and `tell` are the reading and the judging alone, of logs of either version: what each log tells, or the first cause why not
//!   (`members`, `coords`, `refused`), with no file written.
#![tactic(auto)]

mod attaching;
mod coords;
mod judging;
mod laws;
mod making;
mod members;
mod nodes;
mod numbers;
mod opening;
mod sort;

pub use attaching::{Logs, attach_all};
pub use judging::{Pasts, tell};
pub use laws::directories_are_opened_once;
pub use nodes::Nodes;
pub use numbers::{lay_votes, numbers_in};
pub use opening::open_nodes;
