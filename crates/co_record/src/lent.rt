//! A prepare record over lent sets.
ghost use Rattle.std.specs.Prelude.{◌≡◌};
ghost use Rattle.co_record.specs.Marks.{mark_of};
ghost use Rattle.co_record.specs.declared.record.Record.TheVariants as log;

use co_base::{Mark, MarkKind, Node, Range, Txn, Written};
use std::marker::Model;

/// A prepare record whose sets are lent, so that none of them is copied to write it. Clauses see it as the record that
/// it stands for.
#[derive(Drop)]
pub struct LentPrepare<'a> {
    pub(crate) txn: Txn,
    pub(crate) coord: u8,
    pub(crate) count: u16,
    pub(crate) reads: &'a [Range],
    pub(crate) writes: &'a [Written],
}

impl<'a> Model for LentPrepare<'a> {
    ghost use Rattle.co_record.specs.declared.record.Record.{Record};
    ghost use Rattle.co_record.specs.declared.record.Record.TheVariants as log;

    ghost Value = { Record };

    ghost view = { λ p. log.Prepare p.txn p.coord p.count p.reads.now p.writes.now };
}

impl<'a> LentPrepare<'a> {
    /// The vote on a transaction that this coordinator asked for, over so many operations, with the ranges that it read
    /// in ascending order and what it wrote by key. What the numbers are bound by stands at `put_record`.
    pub fn new(
        txn: Txn,
        coord: u8,
        count: u16,
        reads: &'a [Range],
        writes: &'a [Written],
    ) -> LentPrepare<'a>
        ensures { result ≡ log.Prepare txn coord count reads.now writes.now }
    {
        LentPrepare {
            txn,
            coord,
            count,
            reads,
            writes,
        }
    }

    /// What a transcript tells of it in the log of this node.
    pub fn mark(&self, node: Node) -> Mark
        ensures { result ≡ mark_of node self.now }
    {
        Mark {
            node,
            kind: MarkKind::Prepare,
            number: self.txn.0,
        }
    }
}
