//! What a transcript tells of a log record.
use crate::node::Node;
use crate::sequence::Sequence;

/// The kinds of log records.
#[derive(Clone, Copy, Debug)]
pub enum MarkKind {
    /// The first record of a file.
    Header,
    /// A member voted.
    Prepare,
    /// A decision to commit.
    Commit,
    /// A decision to abort, at a member that voted.
    Abort,
    /// Every participant acknowledged.
    End,
    /// The state of a node at one moment.
    Checkpoint,
}

/// A record that became stable in the log of a node.
#[derive(Clone, Copy, Debug)]
pub struct Mark {
    /// Whose log it is.
    pub node: Node,
    /// The kind of the record.
    pub kind: MarkKind,
    /// The transaction, or the generation of a header or a checkpoint.
    pub number: u32,
}

/// A list of marks.
pub type Marks = Sequence<Mark>;
