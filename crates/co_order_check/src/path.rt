//! Paths from version to version of a record.
ghost use Rattle.std.specs.Prelude.{◌≡◌, true};
ghost use Rattle.co_order_check.specs.Paths.{IsPath, end, IsNone};

use crate::reading::{Reading, is_reading};
use crate::record_id::RecordId;
use co_check::Committed;

/// Reads of one record, each of the version that the reader before it left.
#[derive(Drop)]
pub struct Path {
    /// The record.
    pub record: RecordId,
    /// The place of the transaction that left the first version; none for the start.
    pub from: Option<usize>,
    /// The reads.
    pub readings: Vec<Reading>,
}

impl Path {
    /// Whether each read has the reader before it as its one source.
    pub(crate) fn holds(&self, history: &[Committed]) -> bool
        ensures { result ≡ true → IsPath history.now self.now.record self.now.from self.now.readings.items }
    {
        let mut at = self.from;
        for reading in self.readings.as_slice() {
            if reading.source != at
                || !reading.record.is_same(&self.record)
                || !is_reading(history, reading)
            {
                return false;
            }
            at = Some(reading.reader);
        }
        true
    }

    /// The place of its last reader, or where it begins.
    pub(crate) fn end(&self) -> Option<usize>
        ensures { result ≡ end self.now.from self.now.readings.items }
    {
        let mut at = self.from;
        for reading in self.readings.as_slice() {
            at = Some(reading.reader);
        }
        at
    }

    /// Whether a transaction is none of its readers.
    pub(crate) fn lacks(&self, place: usize) -> bool
        ensures { result ≡ true → IsNone place self.now.readings.items }
    {
        for reading in self.readings.as_slice() {
            if reading.reader == place {
                return false;
            }
        }
        true
    }
}
