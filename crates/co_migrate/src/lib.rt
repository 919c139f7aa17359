//! Logs of version 1 give way to logs of version 2: the spare file of each such node is filled, as a checkpoint does.
//!
//! **What is proved.**
//!
//! - `migrate` fills exactly the nodes of a directory that tells its files whose current file is of version 1, in their order, and answers how many
//!   they are; each has its old file as it was, and beside it a current file of version 2 and the next generation, in one batch, with the migrated
//!   records; no other file changes (`migrated`, by the case `Ok` of `IsMigrated`).
//! - A record that is not allowed, files that are no log and files that are too long are refused before the first write, and then no file is changed.
//!   With any other fault some of the nodes are filled, in order, the next one has its old records, or after a fault of the directory those or the
//!   migrated ones, and those behind it are as they were; `Full` names a file in which the migrated records have no room (`migrated`).
//! - So at every answer: where the logs that were found are sound, those that are found then are, and give the same durable records
//!   (`migrations_keep_records`). So it is of every image that a crash leaves at a device call of it (`images_keep_records`). Behind a migration that
//!   was done another one fills nothing (`migrations_are_made_once`). Not stated: that nothing but its cause keeps it from being done.
//! - `Device` comes where the directory failed, and only there (`device`, `quiet`); a file that was clean is after `Ok` (`clean`).
#![tactic(auto)]

mod fault;
mod filling;
mod laws;
mod migrating;
mod planning;
mod telling;

pub use fault::MigrateFault;
pub use laws::{images_keep_records, migrations_are_made_once, migrations_keep_records};
pub use migrating::{migrate, migrate_directory};
