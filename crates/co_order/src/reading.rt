//! What one transaction read, on the way through its operations.
use crate::names::Names;
use crate::odd::first_of;
use crate::passing::{Span, by_first_scan, part_of};
use crate::replies::{before, row_of, value_left, value_told};
use crate::source::{Source, Version, Writers, source_of};
use co_base::{Key, Op, Range, Reply, Row};
use co_check::Answered;
use co_order_check::{Reading, RecordId, Refutation, Torn, TornHow};
use std::alloc::{AllocError, Global};
use std::collections::{BTreeMap, BTreeSet};
use std::ops::Bound;

/// What a transaction read from others in a record first.
#[derive(Clone, Copy)]
pub(crate) struct Seen {
    /// What it was told.
    pub(crate) content: usize,
    /// The place of the operation among its own.
    pub(crate) place: usize,
    /// The event.
    pub(crate) line: u32,
    /// Where that comes from.
    pub(crate) source: Source,
}

/// What a transaction did in a record.
#[derive(Clone, Copy)]
pub(crate) struct Touched {
    /// What it left there last.
    own: Option<usize>,
    /// What it read there from others.
    pub(crate) seen: Option<Seen>,
}

/// What a reply tells of one record: the number of the record, where it is written, and of the value, where it was left.
#[derive(Drop)]
struct Told<'a> {
    record: Option<usize>,
    key: &'a Key,
    content: Option<usize>,
}

/// What is known of one transaction on the way through its operations.
#[derive(Drop)]
pub(crate) struct Walk<'h> {
    names: &'h Names,
    versions: &'h BTreeMap<Version, Writers>,
    told: &'h [Answered],
    /// The place of the transaction in the order of decisions, and its number in the digest.
    place: usize,
    id: usize,
    /// What it did, by records. One that its scans alone passed over is not among them.
    pub(crate) touched: BTreeMap<usize, Touched>,
    /// The records of those in which it now sees a value.
    present: BTreeSet<usize>,
    /// The records of its scans, by the first that has each.
    pub(crate) parts: Vec<Span>,
}

impl<'h> Walk<'h> {
    /// A transaction before its operations.
    pub(crate) fn new(
        alloc: Global,
        names: &'h Names,
        versions: &'h BTreeMap<Version, Writers>,
        told: &'h [Answered],
        place: usize,
        id: usize,
    ) -> Result<Walk<'h>, AllocError> {
        let mut scans = Vec::new(alloc);
        for at in 0..told.len() {
            let operation = &told[at];
            if let (Op::Scan(range), Reply::Rows(_)) = (&operation.site.op, &operation.reply) {
                let (first, past) = names.span(operation.site.member, range);
                scans.push(Span {
                    first,
                    place: at,
                    past,
                    line: operation.number,
                })?;
            }
        }
        Ok(Walk {
            names,
            versions,
            told,
            place,
            id,
            touched: BTreeMap::new(alloc),
            present: BTreeSet::new(alloc),
            parts: by_first_scan(alloc, scans)?,
        })
    }

    /// What the transaction did in a record before an operation. Where scans alone passed over it, it read it as missing.
    fn known(&self, record: usize, at: usize) -> Touched {
        if let Some(touched) = self.touched.get(&record) {
            return *touched;
        }
        let seen = match part_of(self.parts.as_slice(), record) {
            None => None,
            Some(scan) => {
                let source = source_of(self.versions, record, 0, self.id);
                match source {
                    Some(source) if scan.place < at => Some(Seen {
                        content: 0,
                        place: scan.place,
                        line: scan.line,
                        source,
                    }),
                    _ => None,
                }
            }
        };
        Touched { own: None, seen }
    }

    /// Takes in what the transaction did in a record, in which it now sees this.
    fn touch(&mut self, record: usize, touched: Touched, content: usize) -> Result<(), AllocError> {
        self.touched.insert(record, touched)?;
        if content == 0 {
            let _ = self.present.remove(&record);
        } else {
            self.present.insert(record)?;
        }
        Ok(())
    }

    /// Takes in what it left in a record.
    fn leave(
        &mut self,
        at: usize,
        member: u8,
        key: &Key,
        content: usize,
    ) -> Result<(), AllocError> {
        if let Some(record) = self.names.record(member, key) {
            let touched = Touched {
                own: Some(content),
                seen: self.known(record, at).seen,
            };
            self.touch(record, touched, content)?;
        }
        Ok(())
    }

    /// A refutation by a value that no other left.
    fn unwritten(
        &self,
        record: RecordId,
        at: usize,
        operation: &Answered,
    ) -> Result<Option<Refutation>, AllocError> {
        let value = value_told(&record, operation)?;
        Ok(Some(Refutation::Unwritten(Reading {
            record,
            reader: self.place,
            place: at,
            value,
            source: None,
        })))
    }

    /// A refutation by a reply that cannot be.
    fn torn(&self, at: usize, how: TornHow) -> Option<Refutation> {
        Some(Refutation::Torn(Torn {
            reader: self.place,
            place: at,
            how,
        }))
    }

    /// A refutation by a reply that differs from what the transaction itself left before.
    fn differs_from_own(
        &self,
        record: RecordId,
        at: usize,
        operation: &Answered,
    ) -> Result<Option<Refutation>, AllocError> {
        let left = value_left(&record, before(self.told, at))?;
        let told = value_told(&record, operation)?;
        Ok(self.torn(at, TornHow::Own { record, left, told }))
    }

    /// A refutation by a reply that differs from what the transaction read from others before.
    fn differs_from_seen(
        &self,
        record: RecordId,
        at: usize,
        operation: &Answered,
        seen: Seen,
    ) -> Result<Option<Refutation>, AllocError> {
        let first = match self.told.get(seen.place) {
            Some(earlier) => value_told(&record, earlier)?,
            None => None,
        };
        let second = value_told(&record, operation)?;
        let how = TornHow::Twice {
            record,
            earlier: seen.place,
            first,
            second,
        };
        Ok(self.torn(at, how))
    }

    /// Reads what an operation tells of one record. Gives why that cannot be, where it cannot.
    fn read_one(
        &mut self,
        at: usize,
        operation: &Answered,
        it: Told<'_>,
    ) -> Result<Option<Refutation>, AllocError> {
        let id = RecordId {
            member: operation.site.member,
            key: it.key.copy()?,
        };
        let record = match it.record {
            Some(record) => record,
            None => {
                if it.content == Some(0) {
                    return Ok(None);
                }
                return self.unwritten(id, at, operation);
            }
        };
        let known = self.known(record, at);
        if let Some(own) = known.own {
            if it.content == Some(own) {
                return Ok(None);
            }
            return self.differs_from_own(id, at, operation);
        }
        let source = match it.content {
            None => None,
            Some(content) => source_of(self.versions, record, content, self.id),
        };
        let (content, source) = match (it.content, source) {
            (Some(content), Some(source)) => (content, source),
            _ => return self.unwritten(id, at, operation),
        };
        match known.seen {
            Some(seen) => {
                if seen.content == content {
                    return Ok(None);
                }
                self.differs_from_seen(id, at, operation, seen)
            }
            None => {
                let seen = Seen {
                    content,
                    place: at,
                    line: operation.number,
                    source,
                };
                let touched = Touched {
                    own: None,
                    seen: Some(seen),
                };
                self.touch(record, touched, content)?;
                Ok(None)
            }
        }
    }

    /// The first record up to one past the last in which the transaction sees a value, and which rows do not give.
    fn left_out(&self, first: usize, past: usize, rows: &[Row]) -> Option<usize> {
        for record in self
            .present
            .range((Bound::Included(&first), Bound::Unbounded))
        {
            if *record >= past {
                break;
            }
            let id = self.names.records.get(*record)?;
            if row_of(rows, &id.key).is_none() {
                return Some(*record);
            }
        }
        None
    }

    /// Reads the rows of a scan, and what it passes over.
    fn read_rows(
        &mut self,
        at: usize,
        operation: &Answered,
        range: &Range,
        rows: &[Row],
    ) -> Result<Option<Refutation>, AllocError> {
        let names = self.names;
        let member = operation.site.member;
        let mut why = None;
        for number in 0..rows.len() {
            let row = &rows[number];
            if !range.has(&row.key) {
                let outside = self.torn(at, TornHow::Outside { row: number });
                why = first_of(why, outside);
                continue;
            }
            let it = Told {
                record: names.record(member, &row.key),
                key: &row.key,
                content: names.value(&row.value),
            };
            let odd = self.read_one(at, operation, it)?;
            why = first_of(why, odd);
        }
        let (first, past) = names.span(member, range);
        if let Some(record) = self.left_out(first, past, rows) {
            if let Some(id) = names.records.get(record) {
                let it = Told {
                    record: Some(record),
                    key: &id.key,
                    content: Some(0),
                };
                let odd = self.read_one(at, operation, it)?;
                why = first_of(why, odd);
            }
        }
        Ok(why)
    }

    /// Takes one operation. Gives why its reply cannot be, where it cannot.
    pub(crate) fn take(
        &mut self,
        at: usize,
        operation: &Answered,
    ) -> Result<Option<Refutation>, AllocError> {
        let names = self.names;
        let member = operation.site.member;
        match (&operation.site.op, &operation.reply) {
            (Op::Read(key), Reply::Got(value)) => {
                let content = match value {
                    None => Some(0),
                    Some(value) => names.value(value),
                };
                let it = Told {
                    record: names.record(member, key),
                    key,
                    content,
                };
                self.read_one(at, operation, it)
            }
            (Op::Scan(range), Reply::Rows(rows)) => {
                self.read_rows(at, operation, range, rows.as_slice())
            }
            (Op::Write(key, value), Reply::Done) => {
                if let Some(content) = names.value(value) {
                    self.leave(at, member, key, content)?;
                }
                Ok(None)
            }
            (Op::Erase(key), Reply::Done) => {
                self.leave(at, member, key, 0)?;
                Ok(None)
            }
            _ => Ok(self.torn(at, TornHow::Kind)),
        }
    }
}
