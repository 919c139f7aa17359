//! Reads that have one source.
ghost use Rattle.std.specs.Prelude.{◌≡◌, ◌≢◌, ◌<◌, true, ℕ, length, Some};
ghost use Rattle.co_order_check.specs.Order.{operations};
ghost use Rattle.co_order_check.specs.Paths.{ReadsFromOthers, IsReading, IsSource};
ghost use Rattle.co_order_check.specs.Reads.{left};

use crate::reads::{is_left, is_told, leaves};
use crate::record_id::RecordId;
use co_base::Value;
use co_check::Committed;

/// A transaction reads a record from others, and what it is told has one source.
#[derive(Drop)]
pub struct Reading {
    /// The record.
    pub record: RecordId,
    /// The place of the transaction that reads.
    pub reader: usize,
    /// The place of the operation among its own, counted from 0.
    pub place: usize,
    /// What it is told.
    pub value: Option<Value>,
    /// The place of the transaction that left this; none for the start.
    pub source: Option<usize>,
}

/// Whether the transaction at a place is told so of the record before it writes or erases it.
pub(crate) fn is_told_from_others(
    history: &[Committed],
    id: &RecordId,
    reader: usize,
    place: usize,
    value: &Option<Value>,
) -> bool
    ensures { result ≡ true → ReadsFromOthers history.now reader place id.now value.now }
{
    if reader >= history.len() {
        return false;
    }
    let told = history[reader].told.oldest_first();
    if place >= told.len() {
        return false;
    }
    !leaves(id, &told[..place]) && is_told(id, &told[place], value)
}

/// Whether a transaction, which is not the reader, left this in the record.
pub(crate) fn is_left_at(
    history: &[Committed],
    id: &RecordId,
    place: usize,
    reader: usize,
    value: &Option<Value>,
) -> bool
    ensures { result ≡ true → IsSource history.now reader id.now value.now place }
{
    place < history.len()
        && place != reader
        && is_left(id, history[place].told.oldest_first(), value)
}

/// Whether the transaction reads so.
pub(crate) fn reads_from_others(history: &[Committed], reading: &Reading) -> bool
    ensures { result ≡ true → ReadsFromOthers history.now reading.now.reader reading.now.place reading.now.record reading.now.value }
{
    is_told_from_others(
        history,
        &reading.record,
        reading.reader,
        reading.place,
        &reading.value,
    )
}

/// Whether no other transaction than the reader and the source left this.
pub(crate) fn is_left_by_no_other(history: &[Committed], reading: &Reading) -> bool
    ensures { result ≡ true → (u : ℕ) → u < length history.now → u ≢ reading.now.reader → Some u ≢ reading.now.source →
        left reading.now.record (operations history.now u) ≢ Some reading.now.value }
{
    for place in 0..history.len() {
        if place != reading.reader
            && reading.source != Some(place)
            && is_left(
                &reading.record,
                history[place].told.oldest_first(),
                &reading.value,
            )
        {
            return false;
        }
    }
    true
}

/// Whether it is read from others, and has this one source.
pub(crate) fn is_reading(history: &[Committed], reading: &Reading) -> bool
    ensures { result ≡ true → IsReading history.now reading.now }
{
    reading.source.is_some() == reading.value.is_some()
        && reads_from_others(history, reading)
        && is_left_by_no_other(history, reading)
}
