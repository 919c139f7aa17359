//! What is answered.
ghost use Rattle.std.specs.Prelude.{IfOk, IfSome};
ghost use Rattle.co_order.specs.Answer.{IsAnswer};

use co_check::Committed;
use co_order_check::{Refutation, Repeat, order_holds, refutation_holds, repeat_holds};
use std::alloc::{AllocError, Global};

/// What is told of a refutation.
#[derive(Drop)]
pub enum Told {
    /// The transaction was told at the line a value that no other left.
    Unwritten {
        /// Its number.
        txn: u32,
        /// The number of the event.
        line: u32,
    },
    /// The transaction was told at the line what it is told in no order, whatever the others did.
    Torn {
        /// Its number.
        txn: u32,
        /// The number of the event.
        line: u32,
    },
    /// These lines, each with a newline.
    Lines(Vec<u8>),
}

/// Whether the committed transactions run serially in some order.
#[derive(Drop)]
pub enum Answer {
    /// They do in this one, by their places in the order of decisions.
    Order(Vec<usize>),
    /// They do in none.
    Refuted(Told),
    /// A read has two sources, and neither an order nor a refutation was found.
    Repeat {
        /// The number of the transaction.
        txn: u32,
        /// The number of the event.
        line: u32,
    },
    /// Neither was found.
    Undecided,
}

/// Answers with an order that the checker takes.
pub(crate) fn by_order(
    alloc: Global,
    history: &[Committed],
    order: Vec<usize>,
) -> Result<Option<Answer>, AllocError>
    ensures { IfOk result (λ found. IfSome found (IsAnswer history.now)) }
{
    if order_holds(alloc, history, order.as_slice())? {
        return Ok(Some(Answer::Order(order)));
    }
    Ok(None)
}

/// Answers with a refutation that the checker takes, else that it is undecided.
pub(crate) fn by_refutation(
    alloc: Global,
    history: &[Committed],
    why: &Refutation,
    told: Told,
) -> Result<Answer, AllocError>
    ensures { IfOk result (IsAnswer history.now) }
{
    if refutation_holds(alloc, history, why)? {
        return Ok(Answer::Refuted(told));
    }
    Ok(Answer::Undecided)
}

/// Answers with a read that has two sources, where the checker takes it.
pub(crate) fn by_repeat(history: &[Committed], repeat: &Repeat, txn: u32, line: u32) -> Answer
    ensures { IsAnswer history.now result }
{
    if repeat_holds(history, repeat, txn, line) {
        return Answer::Repeat { txn, line };
    }
    Answer::Undecided
}
