//! What an engine begins with.
use crate::rows::{cut, record_of, txn_of};
use co_base::{BaseFault, Key, Range, Rows, Written};
use co_pairs::{Prepared, PreparedList, Sets};
use co_state::RecordMap;
use std::alloc::Global;

/// Whether a line is no row that is played: `record KEY VALUE`, or `voted NUMBER READ KEY VALUE` for a transaction that read
/// one key, or none where that is `-`, and wrote a record.
pub(crate) fn is_setup(line: &[u8]) -> bool {
    line.starts_with(b"record ") || line.starts_with(b"voted ")
}

/// Sets the record of two words.
fn set_record(alloc: Global, words: &[u8], records: &mut RecordMap) -> Result<(), BaseFault> {
    let (key, value) = cut(words);
    let (key, value) = record_of(alloc, key, value)?;
    Ok(records.set(key, value)?)
}

/// The records that an engine begins with, as the lines say.
pub(crate) fn rows_of(alloc: Global, lines: &[&[u8]]) -> Result<Rows, BaseFault> {
    let mut records = RecordMap::new(alloc);
    for line in lines {
        if let Some(words) = line.strip_prefix(b"record ") {
            set_record(alloc, words, &mut records)?;
        }
    }
    Ok(records.rows(alloc)?)
}

/// Adds the range of a key that was read; none for `-`.
fn add_read(alloc: Global, key: &[u8], sets: &mut Sets) -> Result<(), BaseFault> {
    if key == b"-".as_slice() {
        return Ok(());
    }
    let key = Key::new(alloc, key)?;
    Ok(sets.reads.push(Range::of_key(&key)?)?)
}

/// Adds a record that was written.
fn add_write(alloc: Global, words: &[u8], sets: &mut Sets) -> Result<(), BaseFault> {
    let (key, value) = cut(words);
    let (key, value) = record_of(alloc, key, value)?;
    let value = Some(value);
    Ok(sets.writes.push(Written { key, value })?)
}

/// A prepared transaction.
fn prepared(alloc: Global, words: &[u8]) -> Result<Prepared, BaseFault> {
    let (t, rest) = cut(words);
    let (read, change) = cut(rest);
    let mut sets = Sets::new(alloc);
    add_read(alloc, read, &mut sets)?;
    add_write(alloc, change, &mut sets)?;
    Ok(Prepared {
        txn: txn_of(t),
        coord: 1,
        count: 1,
        sets,
    })
}

/// The prepared transactions that an engine begins with, as the lines say.
pub(crate) fn voted_of(alloc: Global, lines: &[&[u8]]) -> Result<PreparedList, BaseFault> {
    let mut voted = PreparedList::new(alloc);
    for line in lines {
        if let Some(words) = line.strip_prefix(b"voted ") {
            voted.push(prepared(alloc, words)?)?;
        }
    }
    Ok(voted)
}
