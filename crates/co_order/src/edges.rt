//! The edges by two lines.
//!
//! Behind the start's block of a record stands a node that gathers its edges. Over the records stands a tree of such nodes for what scans passed over:
//! the node at a place leads to those at its double and at the one behind that, and the leaf of a record leads on as a read of it does that has
//! the start as its source. So a scan has a few edges for each range of records that it passed over.
use crate::digest::Passed;
use crate::graph::Edge;
use crate::lists::number_at;
use crate::source::Source;
use crate::web::{START, Web};
use std::alloc::{AllocError, Global};

/// Appends an edge to another transaction.
fn push_to(edges: &mut Vec<Edge>, from: usize, to: Option<usize>) -> Result<(), AllocError> {
    if let Some(to) = to {
        if to != from {
            edges.push(Edge { from, to })?;
        }
    }
    Ok(())
}

impl Web {
    /// How many nodes the graph of the edges by two lines has: the transactions, the tree over the records, and one behind the start's block
    /// of each record. An edge between two that are no transactions leads to the greater one.
    pub(crate) fn nodes(&self) -> usize {
        self.behind_start(self.digest.records.len())
    }

    /// The node at a place of the tree.
    fn in_tree(&self, place: usize) -> usize {
        self.digest.count().saturating_add(place)
    }

    /// How many nodes the tree has.
    fn tree(&self) -> usize {
        if self.digest.passed.is_empty() {
            0
        } else {
            self.digest.records.len().saturating_mul(2)
        }
    }

    /// The node behind the start's block of a record.
    fn behind_start(&self, record: usize) -> usize {
        self.in_tree(self.tree()).saturating_add(record)
    }

    /// The edges by two lines.
    pub(crate) fn edges(&self, alloc: Global) -> Result<Vec<Edge>, AllocError> {
        let mut edges = Vec::new(alloc);
        self.push_reads(&mut edges)?;
        self.push_left(&mut edges)?;
        if !self.digest.passed.is_empty() {
            self.push_tree(&mut edges)?;
            self.push_all_passed(&mut edges)?;
        }
        Ok(edges)
    }

    /// Appends the edges of reads.
    fn push_reads(&self, edges: &mut Vec<Edge>) -> Result<(), AllocError> {
        for place in 0..self.digest.reads.len() {
            let read = match self.digest.read_at(place) {
                Some(read) => read,
                None => break,
            };
            if let Source::One(source) = read.source {
                edges.push(Edge {
                    from: source,
                    to: read.txn,
                })?;
            }
            let least = self.least_of(place);
            push_to(edges, read.txn, least.first)?;
            push_to(edges, read.txn, least.second)?;
            if self.block_of(&read) == START {
                edges.push(Edge {
                    from: read.txn,
                    to: self.behind_start(read.record),
                })?;
            }
        }
        Ok(())
    }

    /// Appends the edges of what was left.
    fn push_left(&self, edges: &mut Vec<Edge>) -> Result<(), AllocError> {
        for place in 0..self.digest.left.len() {
            let left = match self.digest.left_at(place) {
                Some(left) => left,
                None => break,
            };
            let behind = self.behind_start(left.record);
            if number_at(self.blocks.as_slice(), place) == START {
                edges.push(Edge {
                    from: left.txn,
                    to: behind,
                })?;
            } else if self.is_root(place) {
                edges.push(Edge {
                    from: behind,
                    to: left.txn,
                })?;
            }
        }
        Ok(())
    }

    /// Appends the edges of the tree. A record that was left erased has none: who passed over it may have read that.
    fn push_tree(&self, edges: &mut Vec<Edge>) -> Result<(), AllocError> {
        let records = self.digest.records.len();
        for place in 1..records {
            let from = self.in_tree(place);
            let double = place.saturating_mul(2);
            edges.push(Edge {
                from,
                to: self.in_tree(double),
            })?;
            edges.push(Edge {
                from,
                to: self.in_tree(double.saturating_add(1)),
            })?;
        }
        for record in 0..records {
            if number_at(self.digest.erased.as_slice(), record) == record {
                continue;
            }
            let leaf = self.in_tree(records.saturating_add(record));
            let least = self.least_of_start(record);
            push_to(edges, leaf, least.first)?;
            push_to(edges, leaf, least.second)?;
            edges.push(Edge {
                from: leaf,
                to: self.behind_start(record),
            })?;
        }
        Ok(())
    }

    /// Appends the edges of what scans passed over.
    fn push_all_passed(&self, edges: &mut Vec<Edge>) -> Result<(), AllocError> {
        for passed in self.digest.passed.as_slice() {
            self.push_passed(edges, passed)?;
        }
        Ok(())
    }

    /// Appends the edges of one range of records: to the greatest parts of the tree that lie in it.
    fn push_passed(&self, edges: &mut Vec<Edge>, passed: &Passed) -> Result<(), AllocError> {
        let records = self.digest.records.len();
        let from = passed.txn;
        let mut low = passed.span.first.saturating_add(records);
        let mut high = passed.span.past.saturating_add(records);
        for _ in 0..64 {
            if low >= high {
                break;
            }
            if low % 2 == 1 {
                edges.push(Edge {
                    from,
                    to: self.in_tree(low),
                })?;
                low = low.saturating_add(1);
            }
            if high % 2 == 1 {
                high = high.saturating_sub(1);
                edges.push(Edge {
                    from,
                    to: self.in_tree(high),
                })?;
            }
            low /= 2;
            high /= 2;
        }
        Ok(())
    }
}
