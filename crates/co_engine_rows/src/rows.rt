//! The words of a row.
use co_base::{BaseFault, Key, Kind, Txn, Value};
use std::alloc::{AllocError, AllocFailed, Global};

/// Why rows were not played.
#[derive(Drop)]
pub(crate) enum RowFault {
    /// A row is none, or a word of it is missing or wrong.
    Word,
    /// There was no memory.
    Memory,
}

impl From<AllocError> for RowFault {
    fn from(_fault: AllocError) -> RowFault {
        RowFault::Memory
    }
}

impl<T: Drop> From<AllocFailed<T>> for RowFault {
    fn from(_fault: AllocFailed<T>) -> RowFault {
        RowFault::Memory
    }
}

impl From<BaseFault> for RowFault {
    fn from(_fault: BaseFault) -> RowFault {
        RowFault::Word
    }
}

/// The first word of a row, and what stands behind the space after it.
pub(crate) fn cut(row: &[u8]) -> (&[u8], &[u8]) {
    match row.iter().position(|b| *b == b' ') {
        Some(at) => (&row[..at], &row[at + 1..]),
        None => (row, &[]),
    }
}

/// The number that a word spells.
pub(crate) fn number_of(word: &[u8]) -> u32 {
    let mut number: u32 = 0;
    for digit in word {
        let digit = u32::from(digit.saturating_sub(b'0'));
        number = number.saturating_mul(10).saturating_add(digit);
    }
    number
}

/// The transaction that a word names.
pub(crate) fn txn_of(word: &[u8]) -> Txn {
    Txn(number_of(word))
}

/// The kind that a word names.
pub(crate) fn kind_of(word: &[u8]) -> Result<Kind, RowFault> {
    match word {
        b"locking" => Ok(Kind::Lock),
        b"validating" => Ok(Kind::Occ),
        b"multiversion" => Ok(Kind::Mv),
        _ => Err(RowFault::Word),
    }
}

/// The key and the value of two words.
pub(crate) fn record_of(
    alloc: Global,
    key: &[u8],
    value: &[u8],
) -> Result<(Key, Value), BaseFault> {
    let key = Key::new(alloc, key)?;
    Ok((key, Value::new(alloc, value)?))
}
