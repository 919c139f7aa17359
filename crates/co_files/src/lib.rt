//! The directory of logs over real files.
//!
//! What a file holds is outside every contract: `HomeStd` is proved against the directory of logs without telling any content. It tells the
//! calls of the system that it makes instead: each open file has their history, and `descriptor` is the thin edge where trust in the operating
//! system begins.
//!
//! **What is proved.** `HomeStd` meets the contract of the directory of logs over real files, telling no content: a call fails where the count of faults rose, at the
//! spot that it names, and only there; `set_len`, `sync` and a write inside a file want no memory. Beyond that it is proved by the calls of the
//! system that it makes. Each file, and the directory, has the history of its calls, and each call of the home says what it adds:
//!
//! - a write that is done was one write of exactly this piece at this place; a cut, a sync and a read likewise, and a read gives what that one read
//!   gave
//! - a call that fails made that one call, which failed, or none; once a call on a file has failed, none is made on it again
//! - a file is opened or made at its own path at its first use, and then synced, and its name is made stable by a sync of the directory, before
//!   anything else; only a write at the front makes a file
//! - what is answered without a file was answered behind a look that found none
//! - no call touches the file of another spot
//! - a directory that was entered was opened and locked, or its lock was handed on, and then synced; so was each directory above it, as many as were
//!   missing, and each further one up to where the climb ends, but for such as may not be read.
//!
//! That `descriptor.rt` makes the calls that it notes is trusted, and so is what the queries say that are not noted: whether a directory stands
//! somewhere, and which file stands at a path (`docs/FORMATS.md`, "Real files"). It is tried by tests over real files, and by a run in which each
//! call of the disk fails in turn (`bench/faults.py`).
#![tactic(auto)]

mod call;
mod descriptor;
mod directory;
mod folder;
mod guarded;
mod home_std;
mod keeping;
mod log_file;

pub use home_std::HomeStd;
