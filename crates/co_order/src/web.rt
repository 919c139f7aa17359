//! Which versions stand behind which, and who read one version.
use crate::digest::{Digest, Read};
use crate::lists::{number_at, put_at, zeros};
use crate::source::Source;
use std::alloc::{AllocError, Global};
use std::collections::BTreeMap;

/// The block of a version that follows itself.
pub(crate) const RING: usize = 1;

/// The block of the start.
pub(crate) const START: usize = 2;

/// The block of the version of a transaction that stands behind none, with the number of the transaction added.
pub(crate) const VERSION: usize = 3;

/// Reads of one version.
#[derive(Clone, Copy, PartialEq, Eq, PartialOrd, Ord)]
struct Group {
    record: usize,
    source: usize,
}

/// The two least transactions that read a version and wrote the record.
#[derive(Clone, Copy)]
pub(crate) struct Least {
    /// The least.
    pub(crate) first: Option<usize>,
    /// The next one.
    pub(crate) second: Option<usize>,
}

/// None read it and wrote the record.
const NOBODY: Least = Least {
    first: None,
    second: None,
};

impl Least {
    /// Whether a transaction is one of the two.
    pub(crate) fn has(&self, txn: usize) -> bool {
        self.first == Some(txn) || self.second == Some(txn)
    }
}

/// What transactions did, with the versions in blocks.
#[derive(Drop)]
pub(crate) struct Web {
    /// What they did.
    pub(crate) digest: Digest,
    /// The block of each version that was left.
    pub(crate) blocks: Vec<usize>,
    /// The number of the group of each read, from 1 on; 0 where it has two sources.
    groups: Vec<usize>,
    /// The number of the group of the reads of each record that have the start as their source, from 1 on; 0 where none wrote it.
    start_groups: Vec<usize>,
    /// Who wrote, of each group.
    least: Vec<Least>,
}

/// Where the block of a version leads: to another version, or to its block.
#[derive(Drop)]
enum Behind {
    Version(usize),
    Block(usize),
}

/// What the version at a place stands behind.
fn stands_behind(digest: &Digest, place: usize) -> Behind {
    let left = match digest.left_at(place) {
        Some(left) => left,
        None => return Behind::Block(RING),
    };
    let own = Behind::Block(VERSION.saturating_add(left.txn));
    let read = match digest.read_of(left.txn, left.record) {
        Some(read) => read,
        None => return own,
    };
    match read.source {
        Source::Many => own,
        Source::Start => Behind::Block(START),
        Source::One(source) => match digest.left_of(source, left.record) {
            Some(version) => Behind::Version(version),
            None => own,
        },
    }
}

/// The block of each version.
fn blocks_of(alloc: Global, digest: &Digest) -> Result<Vec<usize>, AllocError> {
    let count = digest.left.len();
    let mut blocks = zeros(alloc, count)?;
    let mut trail: Vec<usize> = Vec::new(alloc);
    for start in 0..count {
        let mut at = start;
        let mut block = RING;
        trail.clear();
        for _ in 0..=count {
            let known = number_at(blocks.as_slice(), at);
            if known != 0 {
                block = if known == usize::MAX { RING } else { known };
                break;
            }
            put_at(blocks.as_mut_slice(), at, usize::MAX);
            trail.push(at)?;
            match stands_behind(digest, at) {
                Behind::Version(version) => at = version,
                Behind::Block(found) => {
                    block = found;
                    break;
                }
            }
        }
        for place in trail.as_slice() {
            put_at(blocks.as_mut_slice(), *place, block);
        }
    }
    Ok(blocks)
}

/// The groups of the reads, on the way through them.
#[derive(Drop)]
struct Groups {
    known: BTreeMap<Group, usize>,
    groups: Vec<usize>,
    start_groups: Vec<usize>,
    least: Vec<Least>,
}

impl Groups {
    /// The number of a group, from 1 on.
    fn number(&mut self, group: Group) -> Result<usize, AllocError> {
        if let Some(number) = self.known.get(&group) {
            return Ok(*number);
        }
        self.least.push(NOBODY)?;
        let number = self.least.len();
        self.known.insert(group, number)?;
        Ok(number)
    }

    /// Takes in a read.
    fn add(&mut self, digest: &Digest, read: &Read) -> Result<(), AllocError> {
        let source = match read.source {
            Source::Many => {
                self.groups.push(0)?;
                return Ok(());
            }
            Source::Start => 0,
            Source::One(source) => source.saturating_add(1),
        };
        let number = self.number(Group {
            record: read.record,
            source,
        })?;
        self.groups.push(number)?;
        if digest.left_of(read.txn, read.record).is_none() {
            return Ok(());
        }
        if source == 0 {
            put_at(self.start_groups.as_mut_slice(), read.record, number);
        }
        if let Some(found) = self.least.get_mut(number.saturating_sub(1)) {
            if found.first.is_none() {
                found.first = Some(read.txn);
            } else if found.second.is_none() {
                found.second = Some(read.txn);
            }
        }
        Ok(())
    }
}

/// Makes the web of a digest.
pub(crate) fn web_of(alloc: Global, digest: Digest) -> Result<Web, AllocError> {
    let blocks = blocks_of(alloc, &digest)?;
    let mut groups = Groups {
        known: BTreeMap::new(alloc),
        groups: Vec::new(alloc),
        start_groups: zeros(alloc, digest.records.len())?,
        least: Vec::new(alloc),
    };
    for read in digest.reads.as_slice() {
        groups.add(&digest, read)?;
    }
    Ok(Web {
        digest,
        blocks,
        groups: groups.groups,
        start_groups: groups.start_groups,
        least: groups.least,
    })
}

/// Appends the first writer of a block, where it has one.
fn push_root(into: &mut Vec<usize>, block: usize) -> Result<(), AllocError> {
    if block >= VERSION {
        into.push(block - VERSION)?;
    }
    Ok(())
}

impl Web {
    /// The block that a read stands in; 0 where it has two sources.
    pub(crate) fn block_of(&self, read: &Read) -> usize {
        match read.source {
            Source::Many => 0,
            Source::Start => START,
            Source::One(source) => match self.digest.left_of(source, read.record) {
                Some(version) => number_at(self.blocks.as_slice(), version),
                None => 0,
            },
        }
    }

    /// These transactions with the first writers of the blocks in which they stand, ascending.
    pub(crate) fn with_roots(
        &self,
        alloc: Global,
        ids: &[usize],
    ) -> Result<Vec<usize>, AllocError> {
        let mut found: Vec<usize> = Vec::new(alloc);
        for txn in ids {
            found.push(*txn)?;
            let behind = txn.saturating_add(1);
            for place in number_at(self.digest.left_starts.as_slice(), *txn)..number_at(
                self.digest.left_starts.as_slice(),
                behind,
            ) {
                push_root(&mut found, number_at(self.blocks.as_slice(), place))?;
            }
            for place in number_at(self.digest.read_starts.as_slice(), *txn)..number_at(
                self.digest.read_starts.as_slice(),
                behind,
            ) {
                if let Some(read) = self.digest.read_at(place) {
                    push_root(&mut found, self.block_of(&read))?;
                }
            }
        }
        found.as_mut_slice().sort_unstable();
        let mut distinct: Vec<usize> = Vec::new(alloc);
        let mut next = 0usize;
        for txn in found.as_slice() {
            if *txn >= next {
                distinct.push(*txn)?;
                next = txn.saturating_add(1);
            }
        }
        Ok(distinct)
    }

    /// Who wrote, of a group.
    fn least_in(&self, group: usize) -> Least {
        if group == 0 {
            return NOBODY;
        }
        match self.least.get(group.saturating_sub(1)) {
            Some(least) => *least,
            None => NOBODY,
        }
    }

    /// Who wrote, of the group of the read at a place.
    pub(crate) fn least_of(&self, read: usize) -> Least {
        self.least_in(number_at(self.groups.as_slice(), read))
    }

    /// Who wrote a record, of those who read what the start has there.
    pub(crate) fn least_of_start(&self, record: usize) -> Least {
        self.least_in(number_at(self.start_groups.as_slice(), record))
    }

    /// Whether the version that was left at a place stands behind none.
    pub(crate) fn is_root(&self, place: usize) -> bool {
        match self.digest.left_at(place) {
            Some(left) => number_at(self.blocks.as_slice(), place)
                == VERSION.saturating_add(left.txn),
            None => false,
        }
    }
}
