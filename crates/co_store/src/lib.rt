//! Records that are written in place, with what leads back.
//!
//! Each unfinished transaction keeps, for each key that it wrote, what the key held before its first write
//! there. To undo a transaction and to keep what it wrote take no memory.
//!
//! **What is proved.** Records in place: a first write keeps what was there; to undo lays back exactly that, to keep forgets it, and both touch the named transaction
//! alone; `clean` has every unfinished write laid back; a range gives its records.
#![tactic(auto)]

mod slots;
mod store;

pub use store::Store;
