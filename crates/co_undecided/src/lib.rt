//! The undecided transactions of one member: its engine, an index of who touched what, and one entry for each transaction.
//!
//! An entry is made with the first operation. After that a mark, a vote and a drop take no memory, so that a member can force its
//! record first and change what it keeps afterwards.
//!
//! **What is proved.** For every engine that meets the contract of all engines, every engine state that it stands for and every table of marks: operations, ballots (the
//! voting rule, by the least transaction in the way that the index finds), marks, votes, installs, drops and the readings (marks, coordinators, votes, sets, dumps, the next one
//! above a number) are those of the state; the voted ones are walked in order, each with what it read and wrote; votes that are opened again stand as
//! they were cast. The pins of the engine stay at every call, and a restore has none; over an engine that pins, a pin, a look and the end of a pin are those of the engine.
#![tactic(auto)]

mod entries;
mod entry;
mod pinning;
mod undecideds;

pub use entry::Entry;
pub use undecideds::Undecideds;
