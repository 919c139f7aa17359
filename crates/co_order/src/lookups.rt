//! Looking up what a transaction did in a record.
use crate::digest::{Digest, Left, Passed, Read};
use crate::lists::number_at;
use crate::source::Source;

impl Digest {
    /// The place of what a transaction left in a record.
    pub(crate) fn left_of(&self, txn: usize, record: usize) -> Option<usize> {
        let mut low = number_at(self.left_starts.as_slice(), txn);
        let mut high = number_at(self.left_starts.as_slice(), txn.saturating_add(1));
        for _ in 0..64 {
            if low >= high {
                break;
            }
            let mid = low.saturating_add(high.saturating_sub(low) / 2);
            let found = self.left.get(mid)?.record;
            if found == record {
                return Some(mid);
            }
            if found < record {
                low = mid.saturating_add(1);
            } else {
                high = mid;
            }
        }
        None
    }

    /// What it read there from others, where it did not only pass over it.
    pub(crate) fn read_of(&self, txn: usize, record: usize) -> Option<Read> {
        let mut low = number_at(self.read_starts.as_slice(), txn);
        let mut high = number_at(self.read_starts.as_slice(), txn.saturating_add(1));
        for _ in 0..64 {
            if low >= high {
                break;
            }
            let mid = low.saturating_add(high.saturating_sub(low) / 2);
            let found = *self.reads.get(mid)?;
            if found.record == record {
                return Some(found);
            }
            if found.record < record {
                low = mid.saturating_add(1);
            } else {
                high = mid;
            }
        }
        None
    }

    /// What it read there by a scan that passed over it, where it did nothing else there.
    pub(crate) fn passed_of(&self, txn: usize, record: usize) -> Option<Read> {
        let mut low = number_at(self.passed_starts.as_slice(), txn);
        let mut high = number_at(self.passed_starts.as_slice(), txn.saturating_add(1));
        for _ in 0..64 {
            if low >= high {
                break;
            }
            let mid = low.saturating_add(high.saturating_sub(low) / 2);
            let found = *self.passed.get(mid)?;
            if found.span.past <= record {
                low = mid.saturating_add(1);
            } else if found.span.first > record {
                high = mid;
            } else {
                return Some(self.passing_read(&found, record));
            }
        }
        None
    }

    /// The read of a record that a scan passed over.
    pub(crate) fn passing_read(&self, passed: &Passed, record: usize) -> Read {
        Read {
            txn: passed.txn,
            record,
            content: 0,
            place: passed.span.place,
            line: passed.span.line,
            source: if number_at(self.erased.as_slice(), record) == record {
                Source::Many
            } else {
                Source::Start
            },
        }
    }

    /// What was left, at a place.
    pub(crate) fn left_at(&self, place: usize) -> Option<Left> {
        let left = self.left.get(place)?;
        Some(*left)
    }

    /// What was read, at a place.
    pub(crate) fn read_at(&self, place: usize) -> Option<Read> {
        let read = self.reads.get(place)?;
        Some(*read)
    }

    /// How many transactions there are.
    pub(crate) fn count(&self) -> usize {
        self.places.len()
    }
}
