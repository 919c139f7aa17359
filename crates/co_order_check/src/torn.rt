//! What a transaction is told in no order, whatever the others did.
ghost use Rattle.std.specs.Prelude.{◌≡◌, ◌<◌, true, length, slice_get, Some, None};
ghost use Rattle.co_order_check.specs.Torn.{IsTorn, IsOddTo, IsOutsideOf, DiffersFromOwn, DiffersFromOthers, IsToldOfOthers};
ghost use Rattle.co_order_check.specs.Order.{operations};

use crate::reads::{is_left, is_told, leaves};
use crate::record_id::RecordId;
use co_base::{Op, Reply, Value};
use co_check::{Answered, Committed, same_value};

/// How a reply cannot be.
#[derive(Drop)]
pub enum TornHow {
    /// It is none of such an operation.
    Kind,
    /// A row is outside the range.
    Outside {
        /// The place of the row, counted from 0.
        row: usize,
    },
    /// It differs from what the transaction itself left before.
    Own {
        /// The record.
        record: RecordId,
        /// What was left.
        left: Option<Value>,
        /// What was told.
        told: Option<Value>,
    },
    /// It differs from what the transaction read from others before.
    Twice {
        /// The record.
        record: RecordId,
        /// The place of the earlier operation.
        earlier: usize,
        /// What was told first.
        first: Option<Value>,
        /// What was told then.
        second: Option<Value>,
    },
}

/// A transaction was told what it is told in no order.
#[derive(Drop)]
pub struct Torn {
    /// The place of the transaction.
    pub reader: usize,
    /// The place of the operation among its own, counted from 0.
    pub place: usize,
    /// How.
    pub how: TornHow,
}

/// Whether the reply is none of such an operation.
fn is_odd(operation: &Answered) -> bool
    ensures { result ≡ true → IsOddTo operation.now.site.op operation.now.reply }
{
    match &operation.site.op {
        Op::Read(_) => !matches!(&operation.reply, Reply::Got(_)),
        Op::Scan(_) => !matches!(&operation.reply, Reply::Rows(_)),
        Op::Write(_, _) => !matches!(&operation.reply, Reply::Done),
        Op::Erase(_) => !matches!(&operation.reply, Reply::Done),
    }
}

/// Whether this row of the reply to a scan is outside the range.
fn is_outside(operation: &Answered, row: usize) -> bool
    ensures { result ≡ true → IsOutsideOf operation.now.site.op operation.now.reply }
{
    match &operation.site.op {
        Op::Scan(range) => match &operation.reply {
            Reply::Rows(rows) => {
                let rows = rows.as_slice();
                row < rows.len() && !range.has(&rows[row].key)
            }
            _ => false,
        },
        _ => false,
    }
}

/// Whether what the transaction left before differs from what it is told.
fn is_not_own(
    told: &[Answered],
    place: usize,
    id: &RecordId,
    left: &Option<Value>,
    tells: &Option<Value>,
) -> bool
    ensures { result ≡ true → DiffersFromOwn told.now place id.now }
{
    place < told.len()
        && !same_value(left, tells)
        && is_told(id, &told[place], tells)
        && is_left(id, &told[..place], left)
}

/// Whether the transaction is told so of the record before it writes or erases it.
fn is_told_of_others(
    told: &[Answered],
    place: usize,
    id: &RecordId,
    content: &Option<Value>,
) -> bool
    ensures { result ≡ true → IsToldOfOthers told.now place id.now content.now }
{
    place < told.len() && is_told(id, &told[place], content) && !leaves(id, &told[..place])
}

/// Whether two operations are told otherwise of the record before the transaction writes or erases it.
fn is_told_twice(
    told: &[Answered],
    one: usize,
    other: usize,
    id: &RecordId,
    first: &Option<Value>,
    second: &Option<Value>,
) -> bool
    ensures { result ≡ true → DiffersFromOthers told.now one other id.now }
{
    if same_value(first, second) {
        return false;
    }
    if !is_told_of_others(told, one, id, first) {
        return false;
    }
    is_told_of_others(told, other, id, second)
}

/// Whether the reply cannot be.
pub(crate) fn is_torn(history: &[Committed], torn: &Torn) -> bool
    ensures { result ≡ true → (torn.now.reader < length history.now) × IsTorn (operations history.now torn.now.reader) }
{
    if torn.reader >= history.len() {
        return false;
    }
    let told = history[torn.reader].told.oldest_first();
    if torn.place >= told.len() {
        return false;
    }
    match &torn.how {
        TornHow::Kind => is_odd(&told[torn.place]),
        TornHow::Outside { row } => is_outside(&told[torn.place], *row),
        TornHow::Own {
            record,
            left,
            told: tells,
        } => is_not_own(told, torn.place, record, left, tells),
        TornHow::Twice {
            record,
            earlier,
            first,
            second,
        } => is_told_twice(told, *earlier, torn.place, record, first, second),
    }
}
