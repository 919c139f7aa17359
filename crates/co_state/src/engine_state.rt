//! The state of an engine as plain data.
use crate::history::History;
use crate::table::Table;
use co_base::{Kind, Op, Ranges, Txn, Writes};
use co_serial::RecordMap;

/// What a transaction read and wrote at a member: the ranges in ascending order, each once, and the
/// changes by key, each key once.
#[derive(Drop)]
pub struct Sets {
    /// What it read. A read of one record is the range of its key.
    pub reads: Ranges,
    /// What it wrote last at each key.
    pub writes: Writes,
}

/// An operation that was answered.
#[derive(Drop)]
pub struct Operation {
    /// What was done.
    pub op: Op,
    /// How many installs it saw.
    pub stamp: u64,
}

/// The operations of an active transaction, newest first.
pub type Operations = History<Operation>;

/// A committed transaction whose writes are in the records.
#[derive(Drop)]
pub struct Install {
    /// Its number.
    pub txn: Txn,
    /// What it wrote.
    pub writes: Writes,
}

/// A transaction that voted yes and waits for the decision.
#[derive(Drop)]
pub struct Vote {
    /// The coordinator that asked for the vote.
    pub coord: u8,
    /// How many operations were answered here.
    pub count: u16,
    /// What it read and wrote here.
    pub sets: Sets,
}

/// Everything that the answers of an engine depend on.
#[derive(Drop)]
pub struct EngineState {
    /// The kind of the engine.
    pub kind: Kind,
    /// The records before the first install.
    pub base: RecordMap,
    /// The installed transactions, newest first.
    pub installed: History<Install>,
    /// The transactions that have not voted.
    pub active: Table<Operations>,
    /// The transactions that voted.
    pub voted: Table<Vote>,
}
