//! What a transcript tells of log records.
ghost use Rattle.std.specs.Prelude.{◌≡◌};
ghost use Rattle.co_record.specs.Marks.{mark_of};

use crate::record::Record;
use co_base::{Mark, MarkKind, Node};

/// What a transcript tells of a record in the log of this node.
pub fn mark_of(node: Node, entry: &Record) -> Mark
    ensures { result ≡ mark_of node entry.now }
{
    let (kind, number) = match entry {
        Record::Header { generation, .. } => (MarkKind::Header, *generation),
        Record::Prepare { txn, .. } => (MarkKind::Prepare, txn.0),
        Record::Commit { txn, .. } => (MarkKind::Commit, txn.0),
        Record::Abort { txn } => (MarkKind::Abort, txn.0),
        Record::End { txn } => (MarkKind::End, txn.0),
        Record::Checkpoint { .. } => (MarkKind::Checkpoint, 0),
    };
    Mark { node, kind, number }
}
