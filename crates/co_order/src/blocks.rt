//! The blocks of a knot, and their order.
use crate::digest::{Digest, Read};
use crate::facts::{Ground, Known};
use crate::knot::{MOST_STEPS, Search};
use crate::lists::number_at;
use crate::web::{RING, START, VERSION};
use std::alloc::{AllocError, Global};
use std::collections::BTreeMap;

/// What a transaction has in a block.
#[derive(Clone, Copy)]
pub(crate) struct Member {
    pub(crate) txn: usize,
    pub(crate) line: u32,
    pub(crate) read: Option<Read>,
}

/// A block of a record whose first version is of the knot.
#[derive(Drop)]
pub(crate) struct Block {
    pub(crate) record: usize,
    pub(crate) root: usize,
    pub(crate) members: Vec<Member>,
}

/// A block by record and first version. The record that was written first stands in front.
#[derive(Clone, Copy, PartialEq, Eq, PartialOrd, Ord)]
struct Name {
    turn: usize,
    record: usize,
    root: usize,
}

impl Search<'_, '_, '_> {
    /// The first pair of members of two blocks of which the one reaches the other.
    fn meeting(&mut self, one: usize, other: usize) -> Option<(usize, usize)> {
        let first = self.blocks.get(one)?;
        let second = self.blocks.get(other)?;
        let work = first.members.len().saturating_mul(second.members.len());
        for from in first.members.as_slice() {
            for to in second.members.as_slice() {
                if from.txn != to.txn && self.reaches(from.txn, to.txn) {
                    let pair = (from.txn, to.txn);
                    self.spent = self.spent.saturating_add(work);
                    return Some(pair);
                }
            }
        }
        self.spent = self.spent.saturating_add(work);
        None
    }

    /// Whether a block stands before another.
    fn stands(&self, one: usize, other: usize) -> bool {
        match (self.blocks.get(one), self.blocks.get(other)) {
            (Some(one), Some(other)) => self.reaches(one.root, other.root),
            _ => false,
        }
    }

    /// Puts a block before another one. Gives whether anything is new.
    fn put_before(
        &mut self,
        one: usize,
        other: usize,
        first: usize,
        second: usize,
    ) -> Result<bool, AllocError> {
        let ground = Ground::Blocks {
            one,
            other,
            first,
            second,
        };
        let mut more: Vec<Known> = Vec::new(self.alloc);
        if let (Some(block), Some(then)) = (self.blocks.get(one), self.blocks.get(other)) {
            for member in block.members.as_slice() {
                if member.txn != then.root && !self.reaches(member.txn, then.root) {
                    more.push(Known {
                        from: member.txn,
                        to: then.root,
                        ground,
                    })?;
                }
            }
        }
        let any = !more.is_empty();
        for known in more.as_slice() {
            self.facts.push(*known)?;
        }
        Ok(any)
    }

    /// Puts in order the blocks of which members already are. Gives whether anything is new.
    pub(crate) fn settle(&mut self) -> Result<bool, AllocError> {
        let mut any = false;
        for one in 0..self.blocks.len() {
            let record = match self.blocks.get(one) {
                Some(block) => block.record,
                None => break,
            };
            // Blocks of one record stand together.
            for other in one.saturating_add(1)..self.blocks.len() {
                match self.blocks.get(other) {
                    Some(block) if block.record == record => {}
                    _ => break,
                }
                if self.spent > MOST_STEPS {
                    return Ok(false);
                }
                if let Some((first, second)) = self.meeting(one, other) {
                    if self.put_before(one, other, first, second)? {
                        any = true;
                    }
                }
                if let Some((first, second)) = self.meeting(other, one) {
                    if self.put_before(other, one, first, second)? {
                        any = true;
                    }
                }
            }
        }
        Ok(any)
    }

    /// The first two blocks of a record that are not in order, the one with the lesser rank first.
    pub(crate) fn undecided(&self) -> Option<(usize, usize)> {
        for one in 0..self.blocks.len() {
            let block = self.blocks.get(one)?;
            for other in one.saturating_add(1)..self.blocks.len() {
                let then = self.blocks.get(other)?;
                if then.record != block.record {
                    break;
                }
                if !self.stands(one, other) && !self.stands(other, one) {
                    let rank = number_at(self.ranks, self.id(block.root));
                    let next = number_at(self.ranks, self.id(then.root));
                    if rank <= next {
                        return Some((block.root, then.root));
                    }
                    return Some((then.root, block.root));
                }
            }
        }
        None
    }
}

/// The blocks of the records whose first versions are of the knot, and their members in it.
pub(crate) fn blocks_in(search: &mut Search<'_, '_, '_>) -> Result<(), AllocError> {
    let web = search.web;
    let digest = &web.digest;
    let mut found: BTreeMap<Name, Vec<Member>> = BTreeMap::new(search.alloc);
    for place in 0..search.ids.len() {
        let txn = search.id(place);
        let starts = digest.left_starts.as_slice();
        for at in number_at(starts, txn)..number_at(starts, txn.saturating_add(1)) {
            if let Some(left) = digest.left_at(at) {
                let block = number_at(web.blocks.as_slice(), at);
                let member = Member {
                    txn: place,
                    line: left.line,
                    read: None,
                };
                add_to(
                    search.alloc,
                    &mut found,
                    name_of(digest, left.record, block),
                    member,
                )?;
            }
        }
        let starts = digest.read_starts.as_slice();
        for at in number_at(starts, txn)..number_at(starts, txn.saturating_add(1)) {
            if let Some(read) = digest.read_at(at) {
                let block = web.block_of(&read);
                let member = Member {
                    txn: place,
                    line: read.line,
                    read: Some(read),
                };
                add_to(
                    search.alloc,
                    &mut found,
                    name_of(digest, read.record, block),
                    member,
                )?;
            }
        }
    }
    for (name, members) in found.iter() {
        if let Some(root) = search.place_of(name.root) {
            let mut copy = Vec::new(search.alloc);
            for member in members.as_slice() {
                copy.push(*member)?;
            }
            search.blocks.push(Block {
                record: name.record,
                root,
                members: copy,
            })?;
        }
    }
    Ok(())
}

/// The name of a block that begins with a version.
fn name_of(digest: &Digest, record: usize, block: usize) -> Option<Name> {
    if block < VERSION || block == RING || block == START {
        return None;
    }
    Some(Name {
        turn: number_at(digest.turns.as_slice(), record),
        record,
        root: block.saturating_sub(VERSION),
    })
}

/// Adds a member to a block. One that has both a version and a read there counts by the lesser line.
fn add_to(
    alloc: Global,
    found: &mut BTreeMap<Name, Vec<Member>>,
    name: Option<Name>,
    member: Member,
) -> Result<(), AllocError> {
    let name = match name {
        Some(name) => name,
        None => return Ok(()),
    };
    match found.get_mut(&name) {
        Some(members) => {
            let mut met = false;
            if let Some(last) = members.as_mut_slice().last_mut() {
                if last.txn == member.txn {
                    met = true;
                    if member.line < last.line {
                        *last = member;
                    }
                }
            }
            if !met {
                members.push(member)?;
            }
        }
        None => {
            let mut members = Vec::new(alloc);
            members.push(member)?;
            found.insert(name, members)?;
        }
    }
    Ok(())
}
