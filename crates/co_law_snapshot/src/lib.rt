//! What a member has installed is a snapshot: the records of the serial run of exactly the transactions that it has installed.
//!
//! Each law is the contract of a function without a body. They speak of the definitions alone: no engine and no file is in them.
//!
//! **What is proved.** In every state of every run over logs that may be opened, the records that a member has installed in memory
//! are those that the serial run leaves there of the transactions that are committed at this member by then, in decision order: of
//! those of this run, and before them of the opened votes (`installed_are_snapshots`). What is decided later is not among them, so
//! the run may be read over the decisions of any later state (`later_decisions_are_not_installed`). Each event keeps the law, with
//! the invariants beside it, from any state that has them (`each_event_keeps_snapshots`), and a federation over logs that may be
//! opened has them (`opened_logs_have_snapshots`).
//!
//! `InstalledIsSerial` of `co_plain` says that the serial run of *all* decided transactions leaves the installed records with the
//! settled votes laid over. That does not say what is below these votes: a decided transaction may be installed long after one that
//! was decided behind it. One more fact is kept along: who is decided after a vote was settled leaves at the member what that vote
//! writes, so the vote may be installed late.
#![tactic(auto)]

mod snapshot;

pub use snapshot::{
    each_event_keeps_snapshots, installed_are_snapshots, later_decisions_are_not_installed,
    opened_logs_have_snapshots,
};
