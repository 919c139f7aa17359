//! What an engine knows of transactions at one member, as plain data: its records, which transactions
//! are active and which have voted, what they read and wrote; and the rules that all engines share.
//!
//! The rules are definitions in `specs/`, and no function here computes a whole one. Whatever an engine
//! keeps instead of the state (locks and undo lists, write sets, chains of versions), its contract says
//! its answers by these.
//!
//! **What is proved.** The rules of an engine's state, and what each call leaves of it, are definitions, and no function here computes a whole one. They are compared
//! with what the engines do: the contract of all engines cites them (`co_engine`), as that of the undecided transactions of a member does for votes
//! (`co_undecided`), and `co_plain_engine`, which keeps the state itself, plays the same rows as the others. What engines share is computed as
//! defined: what an operation reads and changes, which reads and writes meet, what is in the way of an operation, the least key that was read and
//! overwritten, the records after so many installs, changes laid over others. A list of records, into which records and changes are laid in any
//! order, is the finite map that they make, and gives its rows in the order of the keys.
#![tactic(auto)]

mod changes;
mod copies;
mod dumps;
mod engine_state;
mod history;
mod locking;
mod meeting;
mod pair;
mod places;
mod records;
mod row_list;
mod sets;
mod stale;
mod table;
mod verdict;

pub use changes::{change_made, range_read};
pub use co_serial::RecordMap;
pub use copies::{copy_ranges, copy_writes};
pub use dumps::join;
pub use engine_state::{EngineState, Install, Operation, Operations, Sets, Vote};
pub use history::History;
pub use locking::{lesser, sets_block, writes_block};
pub use meeting::{reads_key, reads_meet, writes_key, writes_meet, writes_within};
pub use pair::{Pair, PairKind, Pairs};
pub use places::{put_change, put_range};
pub use records::{copy_records, records_at, records_from};
pub use row_list::RowList;
pub use stale::{reads, stale_key};
pub use table::Table;
pub use verdict::Verdict;
