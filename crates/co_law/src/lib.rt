//! The laws of the federation: what every run from sound opened logs keeps, and so what is promised of it; what is
//! kept over any opened logs; and what a refused line leaves.
//!
//! Each law is the contract of a function without a body. They speak of the definitions alone: no engine and no
//! file is in them. The argument is told move by move in `docs/PROOF.md`.
//!
//! **What is proved.**
//!
//! - **Of the definitions, for every list of happenings**, with any loss, repeat and delay of messages, crashes at any moment and stopped log writes,
//!   over every federation whose logs may be opened, fresh logs among them: every state has all invariants, which are one list (`all_invariants`): a
//!   federation over such logs has them (`opened_logs_have_all`), and each event keeps them, from any state that has them, reached or not
//!   (`each_event_keeps_all`); committed transactions read what they read when run whole, one by one, in decision order (`serial_reads`); at any
//!   moment the stable records alone give the records of that serial run (`logs_alone`); every transaction that was answered `committed` is decided,
//!   and each is decided once (`acknowledged`); no two members decide a transaction differently (`agreement`); every transcript is commitment
//!   ordered, with local transactions too (`commitment_ordered`, `transcripts_ordered`); the decisions that are read off the items of a run are its
//!   decision list (`decisions_told`); where nothing but timers is enabled, a timer ends an open transaction, and no commit record of it becomes
//!   stable after that (`only_timers`); so it is with every timer that answers `dropped` or `aborted timer`, in every state with all invariants
//!   (`timers_are_final`); who is presumed aborted stays so (`presumed_aborts_stay`); a member that answered operations of a transaction and has lost
//!   it votes no yes on it after that, and commits it neither by a decision nor alone (`lost_transactions_stay_lost`); each message names the
//!   coordinator of its transaction (`messages_name_homes`, and event by event `each_event_keeps_homes`); the logs stay sound (`sound_logs`), and
//!   what a run leaves may be opened again, with every premise that these laws ask of opened logs (`left_logs`; of single premises `readable_logs`,
//!   `allowed_logs_are_own`); so may logs in which nothing was written, whether their spares are closed or not (`fresh_logs`), and logs without
//!   records, whatever the spare files have (`empty_logs`).
//! - Over all of these the invariants hold whole, in one place, and every commit record names who was asked about its transaction
//!   (`whole_invariants`).
//! - Every list of guarded moves keeps the invariants, from any state that has them (`moves`), and from any such state every event is exactly such a
//!   list, each move with its guard (`events_are_moves`).
//! - Where verdicts are handed from member to member, they must be true of the run where they are handed.
//! - **Over any opened logs, sound or not, and whatever verdicts are handed**: votes at a member do not conflict, operations, counts and requests to
//!   end are as the clients were told, each log tells what memory has, and each coordinator's table, records and decisions agree (`kept_by_each`);
//!   all invariants have this among them (`all_have_what_each_keeps`).
//! - **Over any opened logs that their grammars allow**: every state has whole nodes, so every restart finds a log that is allowed, what a run leaves
//!   may be opened again, a node that is down is what its records tell, an operation finds its transaction neither voted nor installed, and no client
//!   is told of more than 1,024 operations of a transaction at a member (`whole_nodes`; from any state with all invariants and whole nodes each event
//!   leaves it so, `each_event_keeps_nodes`); where the opened records are within their bounds and in order, so are those of every state, and what
//!   each node would force or fill next can be written (`writable_nodes`).
//! - **Of every state, reached by a run or not**: a line that is answered `used`, `not begun`, `asked`, `unsent`, `down`, `blocked`, `gone` or `too
//!   many` leaves the state as it was (`refused_lines`); the first five of these come exactly where the session or the wire says so, or else the node
//!   is down, in this order, and then nothing else comes of the line (`refusals_come_first`); runs and transcripts go on at their ends (`runs_go_on`,
//!   `transcripts_go_on`), nothing changes the opened logs (`opened_logs_stay`), and schedule lines hand no verdict (`lines_hand_no_verdict`).
//!
//! Five statements were false as they first stood. The smallest runs that break them:
//!
//! - *An ended commit has only members whose logs have it*, where its members are those with operations in its session. One member, one coordinator:
//!   begin 1, arm the coordinator's stop in call 3 with the new image, commit 1 (it is decided without operations, and its session is not asked),
//!   restart, write 1 at the member. The member has operations of a decided transaction that it never commits. The members are those with operations
//!   *at the decision*, or those that the opened file of the same coordinator names.
//! - The same over sound logs in which one coordinator has the commit ended and another has it without end, with a vote for the second. So the opened
//!   file has to be that of the same coordinator.
//! - *A decided vote's write is the first change of its key in the record*: a record with two changes of one key, where the last counts.
//! - *A true decision message may be sent*: after begin 1 and a crash of its coordinator, an abort of 1 is true, but no client asked for its end. A
//!   decision is sent of a transaction that was asked, or that stands in an opened log, and an abort by its own coordinator.
//! - *An acknowledgement may be sent where the commit was sent*: a handed commit is acknowledged where none was sent. That the transaction is
//!   committed at the member is the guard now, and is all that the laws use.
#![tactic(auto)]

mod events;
mod finality;
mod homes;
mod invariants;
mod laws;
mod nodes;
mod opening;
mod order;
mod own;
mod quiet;
mod refused;
mod runs;

pub use events::{disarming, events_are_moves};
pub use finality::{lost_transactions_stay_lost, presumed_aborts_stay, timers_are_final};
pub use homes::{each_event_keeps_homes, messages_name_homes};
pub use invariants::{
    all_have_what_each_keeps, all_invariants, each_event_keeps_all, moves, opened_logs_have_all,
};
pub use laws::{
    acknowledged, agreement, fresh_logs, logs_alone, readable_logs, serial_reads, sound_logs,
};
pub use nodes::{each_event_keeps_nodes, whole_nodes, writable_nodes};
pub use opening::{allowed_logs_are_own, empty_logs, left_logs, whole_invariants};
pub use order::{commitment_ordered, decisions_told, transcripts_ordered};
pub use own::kept_by_each;
pub use quiet::only_timers;
pub use refused::{refusals_come_first, refused_lines};
pub use runs::{lines_hand_no_verdict, opened_logs_stay, runs_go_on, transcripts_go_on};
