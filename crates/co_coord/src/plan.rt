//! The plan of an event.
ghost use Rattle.std.specs.Prelude.{◌≡◌, []};
ghost use Rattle.co_coord.specs.Plans.{says, sends, turns};

use co_base::Sequence;
use co_message::{Answer, Messages};
use co_node::Writes;
use co_plain::Entry;
use std::alloc::Global;

/// What becomes of the entry of a transaction in the table.
#[derive(Drop)]
pub enum Change {
    /// It stays, where there is one.
    Stays,
    /// It is this one.
    Becomes(Entry),
    /// There is none.
    Leaves,
}

/// What an event does.
#[derive(Drop)]
pub struct Plan {
    /// What the log is to get first. Where its write is stopped, nothing else of the plan is done.
    pub writes: Writes,
    /// What becomes of the entry of the transaction.
    pub change: Change,
    /// What is answered.
    pub answer: Answer,
    /// What is sent, ascending by member.
    pub sent: Messages,
}

/// An answer alone.
pub(crate) fn says(alloc: Global, answer: Answer) -> Plan
    ensures { result ≡ says answer }
{
    Plan {
        writes: Writes::Nothing,
        change: Change::Stays,
        answer,
        sent: Messages::new(alloc),
    }
}

/// A change of the table, an answer and messages.
pub(crate) fn turns(change: Change, answer: Answer, sent: Messages) -> Plan
    ensures { result ≡ turns change answer sent }
{
    Plan {
        writes: Writes::Nothing,
        change,
        answer,
        sent,
    }
}

/// An answer and messages.
pub(crate) fn sends(answer: Answer, sent: Messages) -> Plan
    ensures { result ≡ sends answer sent }
{
    turns(Change::Stays, answer, sent)
}
