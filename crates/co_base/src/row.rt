//! Records.
use crate::key::Key;
use crate::value::Value;

/// A record: a key and its value.
#[derive(Drop, PartialEq)]
pub struct Row {
    /// The name of the record.
    pub key: Key,
    /// What it holds.
    pub value: Value,
}
