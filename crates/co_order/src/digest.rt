//! What the committed transactions left and read, by numbers.
use crate::lists::{number_at, put_at, zeros};
use crate::names::{Names, names_of};
use crate::odd::{Odd, least_odd};
use crate::passing::Span;
use crate::reading::Walk;
use crate::source::{Source, Version, Writers, add_writer};
use co_base::Op;
use co_check::{Answered, Committed};
use co_order_check::RecordId;
use std::alloc::{AllocError, Global};
use std::collections::BTreeMap;
use std::ops::Bound;

/// What a transaction left in a record.
#[derive(Clone, Copy)]
pub(crate) struct Left {
    /// The transaction.
    pub(crate) txn: usize,
    /// The record.
    pub(crate) record: usize,
    /// What it left.
    pub(crate) content: usize,
    /// The event.
    pub(crate) line: u32,
}

/// What a transaction read from others.
#[derive(Clone, Copy)]
pub(crate) struct Read {
    /// The transaction.
    pub(crate) txn: usize,
    /// The record.
    pub(crate) record: usize,
    /// What it was told.
    pub(crate) content: usize,
    /// The place of the operation among its own.
    pub(crate) place: usize,
    /// The event.
    pub(crate) line: u32,
    /// Where that comes from.
    pub(crate) source: Source,
}

/// Records with numbers one behind the other that a transaction read as missing, by a scan that passed over them first. It left nothing in them.
#[derive(Clone, Copy)]
pub(crate) struct Passed {
    /// The transaction.
    pub(crate) txn: usize,
    /// The records, and the scan.
    pub(crate) span: Span,
}

/// What the committed transactions left and read. They are numbered by their numbers, the least first.
#[derive(Drop)]
pub(crate) struct Digest {
    /// The place of each transaction in the order of decisions.
    pub(crate) places: Vec<usize>,
    /// The number of each.
    pub(crate) numbers: Vec<u32>,
    /// The records that are written: the members ascending, and the keys of each.
    pub(crate) records: Vec<RecordId>,
    /// How many records were written before each, in the order of the transactions and their operations.
    pub(crate) turns: Vec<usize>,
    /// For each record the first from it on that a transaction left erased.
    pub(crate) erased: Vec<usize>,
    /// What was left: the transactions ascending, and the records of each.
    pub(crate) left: Vec<Left>,
    /// Where what each transaction left begins.
    pub(crate) left_starts: Vec<usize>,
    /// What was read from others: the transactions ascending, and the records of each.
    pub(crate) reads: Vec<Read>,
    /// Where what each transaction read begins.
    pub(crate) read_starts: Vec<usize>,
    /// What scans passed over, apart from those reads: the transactions ascending, and the records of each.
    pub(crate) passed: Vec<Passed>,
    /// Where what the scans of each transaction passed over begins.
    pub(crate) passed_starts: Vec<usize>,
}

/// What comes of a digest.
#[derive(Drop)]
pub(crate) enum Digested {
    /// It is made.
    Made(Digest),
    /// At this line a transaction was told what it is told in no order.
    Odd(Odd),
}

/// What a transaction left in a record last.
#[derive(Clone, Copy)]
struct Own {
    content: usize,
    line: u32,
}

/// What one transaction left, by records.
fn left_by(
    alloc: Global,
    names: &Names,
    told: &[Answered],
) -> Result<BTreeMap<usize, Own>, AllocError> {
    let mut own = BTreeMap::new(alloc);
    for operation in told {
        let line = operation.number;
        let (key, content) = match &operation.site.op {
            Op::Write(key, value) => (key, names.value(value)),
            Op::Erase(key) => (key, Some(0)),
            _ => continue,
        };
        let record = names.record(operation.site.member, key);
        if let (Some(record), Some(content)) = (record, content) {
            own.insert(record, Own { content, line })?;
        }
    }
    Ok(own)
}

/// For each record the first from it on that a transaction left erased, or else how many there are.
fn erased_of(alloc: Global, records: usize, left: &[Left]) -> Result<Vec<usize>, AllocError> {
    let mut erased = zeros(alloc, records)?;
    for left in left {
        if left.content == 0 {
            put_at(erased.as_mut_slice(), left.record, 1);
        }
    }
    let mut next = records;
    for back in 0..records {
        let record = records.saturating_sub(back).saturating_sub(1);
        if number_at(erased.as_slice(), record) != 0 {
            next = record;
        }
        put_at(erased.as_mut_slice(), record, next);
    }
    Ok(erased)
}

impl Digest {
    /// Nothing is read yet.
    fn new(alloc: Global) -> Digest {
        Digest {
            places: Vec::new(alloc),
            numbers: Vec::new(alloc),
            records: Vec::new(alloc),
            turns: Vec::new(alloc),
            erased: Vec::new(alloc),
            left: Vec::new(alloc),
            left_starts: Vec::new(alloc),
            reads: Vec::new(alloc),
            read_starts: Vec::new(alloc),
            passed: Vec::new(alloc),
            passed_starts: Vec::new(alloc),
        }
    }

    /// Numbers the transactions.
    fn number_all(&mut self, alloc: Global, history: &[Committed]) -> Result<(), AllocError> {
        let mut by_number: BTreeMap<u32, usize> = BTreeMap::new(alloc);
        for place in 0..history.len() {
            let number = history[place].txn;
            by_number.insert(number.0, place)?;
        }
        for (number, place) in by_number.iter() {
            self.numbers.push(*number)?;
            self.places.push(*place)?;
        }
        Ok(())
    }

    /// Takes in what the transactions left. Gives who left each version.
    fn leave_all(
        &mut self,
        alloc: Global,
        history: &[Committed],
        names: &Names,
    ) -> Result<BTreeMap<Version, Writers>, AllocError> {
        let mut versions: BTreeMap<Version, Writers> = BTreeMap::new(alloc);
        for txn in 0..self.places.len() {
            self.left_starts.push(self.left.len())?;
            let place = number_at(self.places.as_slice(), txn);
            if let Some(committed) = history.get(place) {
                let own = left_by(alloc, names, committed.told.oldest_first())?;
                for (record, own) in own.iter() {
                    let record = *record;
                    let content = own.content;
                    self.left.push(Left {
                        txn,
                        record,
                        content,
                        line: own.line,
                    })?;
                    add_writer(&mut versions, Version { record, content }, txn)?;
                }
            }
        }
        self.left_starts.push(self.left.len())?;
        Ok(versions)
    }

    /// Takes in what the transactions read. Gives the least line at which one was told what it is told in no order.
    fn read_all(
        &mut self,
        alloc: Global,
        history: &[Committed],
        names: &Names,
        versions: &BTreeMap<Version, Writers>,
    ) -> Result<Option<Odd>, AllocError> {
        let mut odd: Option<Odd> = None;
        for txn in 0..self.places.len() {
            self.read_starts.push(self.reads.len())?;
            self.passed_starts.push(self.passed.len())?;
            let place = number_at(self.places.as_slice(), txn);
            if let Some(committed) = history.get(place) {
                let told = committed.told.oldest_first();
                let mut walk = Walk::new(alloc, names, versions, told, place, txn)?;
                for at in 0..told.len() {
                    let operation = &told[at];
                    let line = operation.number;
                    if let Some(why) = walk.take(at, operation)? {
                        let txn = place;
                        odd = least_odd(odd, Odd { line, txn, why });
                        break;
                    }
                }
                self.take_reads(txn, &walk)?;
                self.take_passed(txn, &walk)?;
            }
        }
        self.read_starts.push(self.reads.len())?;
        self.passed_starts.push(self.passed.len())?;
        Ok(odd)
    }

    /// Takes in what a transaction read from others.
    fn take_reads(&mut self, txn: usize, walk: &Walk<'_>) -> Result<(), AllocError> {
        for (record, touched) in walk.touched.iter() {
            if let Some(seen) = touched.seen {
                self.reads.push(Read {
                    txn,
                    record: *record,
                    content: seen.content,
                    place: seen.place,
                    line: seen.line,
                    source: seen.source,
                })?;
            }
        }
        Ok(())
    }

    /// Takes in what the scans of a transaction passed over, but for the records in which it did something else.
    fn take_passed(&mut self, txn: usize, walk: &Walk<'_>) -> Result<(), AllocError> {
        for part in walk.parts.as_slice() {
            let mut first = part.first;
            for (record, _) in walk
                .touched
                .range((Bound::Included(&part.first), Bound::Unbounded))
            {
                if *record >= part.past {
                    break;
                }
                self.take_span(txn, part, first, *record)?;
                first = record.saturating_add(1);
            }
            self.take_span(txn, part, first, part.past)?;
        }
        Ok(())
    }

    /// Takes in records that a scan passed over.
    fn take_span(
        &mut self,
        txn: usize,
        part: &Span,
        first: usize,
        past: usize,
    ) -> Result<(), AllocError> {
        if first < past {
            let span = Span {
                first,
                place: part.place,
                past,
                line: part.line,
            };
            self.passed.push(Passed { txn, span })?;
        }
        Ok(())
    }
}

/// Makes the digest of the committed transactions, the first decided one first.
pub(crate) fn digest_of(alloc: Global, history: &[Committed]) -> Result<Digested, AllocError> {
    let mut digest = Digest::new(alloc);
    digest.number_all(alloc, history)?;
    let names = names_of(alloc, history, digest.places.as_slice())?;
    let versions = digest.leave_all(alloc, history, &names)?;
    let odd = digest.read_all(alloc, history, &names, &versions)?;
    if let Some(odd) = odd {
        return Ok(Digested::Odd(odd));
    }
    let erased = erased_of(alloc, names.records.len(), digest.left.as_slice())?;
    digest.erased = erased;
    digest.records = names.records;
    digest.turns = names.turns;
    Ok(Digested::Made(digest))
}
