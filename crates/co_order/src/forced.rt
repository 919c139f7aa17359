//! Why one transaction stands before another, by two of their lines.
use crate::digest::Read;
use crate::lists::number_at;
use crate::source::Source;
use crate::web::{Least, START, Web};

/// Why one transaction stands before another, by two of their lines.
#[derive(Clone, Copy)]
pub(crate) enum Why {
    /// The other reads what the one left.
    From(Read),
    /// Both read one version, and the other wrote the record: both reads.
    Next(Read, Read),
    /// The one has its read or version in the block of the start, and the version of the other stands behind none.
    First {
        /// The record.
        record: usize,
        /// The read of the one, where it is that.
        read: Option<Read>,
    },
}

/// An edge with its lines.
#[derive(Clone, Copy)]
pub(crate) struct Forced {
    /// Why.
    pub(crate) why: Why,
    /// The line of the one.
    pub(crate) first: u32,
    /// The line of the other.
    pub(crate) second: u32,
}

impl Web {
    /// Why one transaction stands before another, by the least two of their lines.
    pub(crate) fn forced(&self, one: usize, other: usize) -> Option<Forced> {
        let mut found: Option<Forced> = None;
        let starts = self.digest.read_starts.as_slice();
        for place in number_at(starts, other)..number_at(starts, other.saturating_add(1)) {
            if let Some(read) = self.digest.read_at(place) {
                if read.source == Source::One(one) {
                    let left = self.digest.left_of(one, read.record);
                    if let Some(left) = self.left_line(left) {
                        found = lesser(found, Why::From(read), left, read.line);
                    }
                }
            }
        }
        for place in number_at(starts, one)..number_at(starts, one.saturating_add(1)) {
            if let Some(read) = self.digest.read_at(place) {
                found = self.forced_by_read(other, &read, self.least_of(place), found);
            }
        }
        let starts = self.digest.left_starts.as_slice();
        for place in number_at(starts, one)..number_at(starts, one.saturating_add(1)) {
            if number_at(self.blocks.as_slice(), place) != START {
                continue;
            }
            if let Some(left) = self.digest.left_at(place) {
                if let Some(line) = self.root_line(other, left.record) {
                    let why = Why::First {
                        record: left.record,
                        read: None,
                    };
                    found = lesser(found, why, left.line, line);
                }
            }
        }
        for place in number_at(starts, other)..number_at(starts, other.saturating_add(1)) {
            if let Some(left) = self.digest.left_at(place) {
                if let Some(read) = self.digest.passed_of(one, left.record) {
                    if read.source == Source::Start {
                        let least = self.least_of_start(left.record);
                        found = self.forced_by_read(other, &read, least, found);
                    }
                }
            }
        }
        found
    }

    /// The line of what was left at a place.
    fn left_line(&self, place: Option<usize>) -> Option<u32> {
        let left = self.digest.left_at(place?)?;
        Some(left.line)
    }

    /// The line of the version of a transaction, where it stands behind none.
    pub(crate) fn root_line(&self, txn: usize, record: usize) -> Option<u32> {
        let place = self.digest.left_of(txn, record)?;
        if self.is_root(place) {
            self.left_line(Some(place))
        } else {
            None
        }
    }

    /// The lesser of an edge to another transaction and those by a read, of whose group these wrote.
    fn forced_by_read(
        &self,
        other: usize,
        read: &Read,
        least: Least,
        found: Option<Forced>,
    ) -> Option<Forced> {
        let mut found = found;
        if read.txn != other && least.has(other) {
            let line = self.left_line(self.digest.left_of(other, read.record));
            let also = self.digest.read_of(other, read.record);
            if let (Some(line), Some(also)) = (line, also) {
                found = lesser(found, Why::Next(*read, also), read.line, line);
            }
        }
        if self.block_of(read) == START {
            if let Some(line) = self.root_line(other, read.record) {
                let why = Why::First {
                    record: read.record,
                    read: Some(*read),
                };
                found = lesser(found, why, read.line, line);
            }
        }
        found
    }
}

/// The one with the lesser lines.
fn lesser(found: Option<Forced>, why: Why, first: u32, second: u32) -> Option<Forced> {
    let new = Forced { why, first, second };
    match found {
        None => Some(new),
        Some(old) => {
            if old.first < first || (old.first == first && old.second <= second) {
                Some(old)
            } else {
                Some(new)
            }
        }
    }
}
