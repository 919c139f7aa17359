//! Building refutations.
use crate::digest::Read;
use crate::forced::Why;
use crate::lists::number_at;
use crate::replies::value_told;
use crate::source::Source;
use crate::web::Web;
use co_check::Committed;
use co_order_check::{Fact, Path, Reading, RecordId, Step};
use std::alloc::{AllocError, Global};

/// The transaction that left what was read, where that is the one source.
fn source_of_one(read: &Read) -> Option<usize> {
    match read.source {
        Source::One(source) => Some(source),
        _ => None,
    }
}

/// A refutation that is being built, of a web of these transactions.
#[derive(Drop)]
pub(crate) struct Build<'h, 'w> {
    pub(crate) alloc: Global,
    pub(crate) history: &'h [Committed],
    pub(crate) web: &'w Web,
    /// The steps so far.
    pub(crate) steps: Vec<Step>,
    /// How many facts are known in the case that is open.
    pub(crate) known: usize,
    /// How many reads are cited.
    pub(crate) cited: usize,
}

impl Build<'_, '_> {
    /// The place of a transaction in the order of decisions.
    pub(crate) fn place(&self, txn: usize) -> usize {
        number_at(self.web.digest.places.as_slice(), txn)
    }

    /// A record by its number.
    fn record(&self, record: usize) -> Result<Option<RecordId>, AllocError> {
        match self.web.digest.records.get(record) {
            Some(id) => Ok(Some(id.copy()?)),
            None => Ok(None),
        }
    }

    /// A read, with what it was told.
    fn reading(&mut self, read: &Read) -> Result<Option<Reading>, AllocError> {
        self.cited = self.cited.saturating_add(1);
        let id = match self.record(read.record)? {
            Some(id) => id,
            None => return Ok(None),
        };
        let reader = self.place(read.txn);
        let source = match source_of_one(read) {
            Some(source) => Some(self.place(source)),
            None => None,
        };
        let value = match self.history.get(reader) {
            Some(committed) => match committed.told.oldest_first().get(read.place) {
                Some(operation) => value_told(&id, operation)?,
                None => None,
            },
            None => None,
        };
        Ok(Some(Reading {
            record: id,
            reader,
            place: read.place,
            value,
            source,
        }))
    }

    /// A path of these reads, the last one first.
    fn path(
        &mut self,
        record: usize,
        from: Option<usize>,
        reads: &[Read],
    ) -> Result<Option<Path>, AllocError> {
        let mut readings = Vec::new(self.alloc);
        for read in reads.iter().rev() {
            match self.reading(read)? {
                Some(reading) => readings.push(reading)?,
                None => return Ok(None),
            }
        }
        let from = match from {
            Some(txn) => Some(self.place(txn)),
            None => None,
        };
        match self.record(record)? {
            Some(record) => Ok(Some(Path {
                record,
                from,
                readings,
            })),
            None => Ok(None),
        }
    }

    /// The path from the beginning of its block to a read, or to the version of a transaction where there is no read.
    pub(crate) fn path_to(
        &mut self,
        record: usize,
        read: Option<Read>,
        txn: usize,
    ) -> Result<Option<Path>, AllocError> {
        let mut reads = Vec::new(self.alloc);
        let mut at = match read {
            Some(read) => Some(read),
            None => self.web.digest.read_of(txn, record),
        };
        let mut root = Some(txn);
        let most = self.web.digest.reads.len();
        for _ in 0..=most {
            let read = match at {
                Some(read) => read,
                None => break,
            };
            match read.source {
                Source::Many => break,
                Source::Start => {
                    reads.push(read)?;
                    root = None;
                    break;
                }
                Source::One(source) => {
                    reads.push(read)?;
                    root = Some(source);
                    at = self.web.digest.read_of(source, record);
                }
            }
        }
        self.path(record, root, reads.as_slice())
    }

    /// Takes a step that concludes a fact, and gives its number.
    fn conclude(&mut self, step: Step) -> Result<usize, AllocError> {
        self.steps.push(step)?;
        let number = self.known;
        self.known = self.known.saturating_add(1);
        Ok(number)
    }

    /// Concludes an edge by two lines.
    pub(crate) fn two_lines(
        &mut self,
        one: usize,
        other: usize,
        why: Why,
    ) -> Result<Option<usize>, AllocError> {
        match why {
            Why::From(read) => self.along(&read),
            Why::Next(read, also) => {
                let known = match source_of_one(&read) {
                    None => 0,
                    Some(_) => match self.along(&also)? {
                        Some(known) => known,
                        None => return Ok(None),
                    },
                };
                match self.path(read.record, source_of_one(&read), &[read])? {
                    Some(path) => Ok(Some(self.behind(path, other, known)?)),
                    None => Ok(None),
                }
            }
            Why::First { record, read } => match self.path_to(record, read, one)? {
                Some(path) => Ok(Some(self.behind(path, other, 0)?)),
                None => Ok(None),
            },
        }
    }

    /// Concludes that a transaction stands behind the one whose version it read.
    fn along(&mut self, read: &Read) -> Result<Option<usize>, AllocError> {
        match self.path(read.record, source_of_one(read), &[*read])? {
            Some(path) => Ok(Some(self.conclude(Step::Along(path))?)),
            None => Ok(None),
        }
    }

    /// Concludes what follows from two facts, one behind the other.
    pub(crate) fn through(&mut self, first: usize, second: usize) -> Result<usize, AllocError> {
        self.conclude(Step::Through { first, second })
    }

    /// Concludes that who left the first version of one block stands before who left that of another, for a fact says so of two of theirs.
    pub(crate) fn apart(
        &mut self,
        one: Path,
        other: Path,
        known: usize,
    ) -> Result<usize, AllocError> {
        self.conclude(Step::Apart { one, other, known })
    }

    /// Concludes that a transaction stands behind the end of a path.
    pub(crate) fn behind(
        &mut self,
        path: Path,
        other: usize,
        known: usize,
    ) -> Result<usize, AllocError> {
        let place = self.place(other);
        self.conclude(Step::Behind { path, place, known })
    }

    /// Shuts the case by facts that go round.
    pub(crate) fn shut(&mut self, ring: &[usize]) -> Result<(), AllocError> {
        let mut sum: Option<usize> = None;
        for fact in ring {
            sum = match sum {
                None => Some(*fact),
                Some(first) => Some(self.through(first, *fact)?),
            };
        }
        let known = match sum {
            Some(known) => known,
            None => 0,
        };
        self.steps.push(Step::Shut { known })?;
        Ok(())
    }

    /// Opens two cases.
    pub(crate) fn either(&mut self, one: usize, other: usize) -> Result<(), AllocError> {
        let before = self.place(one);
        let behind = self.place(other);
        self.steps.push(Step::Either(Fact { before, behind }))?;
        Ok(())
    }
}
