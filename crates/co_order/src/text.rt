//! The text of an answer.
use crate::answer::{Answer, Told};
use crate::line::Line;
use co_check::Committed;
use itoa::Buffer;
use std::alloc::{AllocError, Global};

/// Appends a word and numbers behind it, with a newline.
fn put(into: &mut Vec<u8>, word: &[u8], numbers: &[u32]) -> Result<(), AllocError> {
    into.extend_from_slice(word)?;
    for number in numbers {
        into.push(b' ')?;
        into.extend_from_slice(Buffer::new().format(*number).as_bytes())?;
    }
    into.push(b'\n')?;
    Ok(())
}

/// The lines of a refutation, whose transactions have these numbers.
pub(crate) fn lines_text(
    alloc: Global,
    lines: &[Line],
    numbers: &[u32],
) -> Result<Vec<u8>, AllocError> {
    let mut text = Vec::new(alloc);
    for line in lines {
        match line {
            Line::Cycle(ring) => {
                let mut ids = Vec::new(alloc);
                for txn in ring.as_slice() {
                    ids.push(number_of(numbers, *txn))?;
                }
                put(&mut text, b"cycle", ids.as_slice())?;
            }
            Line::Before(one, other, first, second) => put(
                &mut text,
                b"before",
                &[
                    number_of(numbers, *one),
                    number_of(numbers, *other),
                    *first,
                    *second,
                ],
            )?,
            Line::Cases => put(&mut text, b"none", &[])?,
            Line::Either(one, other) => put(
                &mut text,
                b"either",
                &[number_of(numbers, *one), number_of(numbers, *other)],
            )?,
            Line::Or(one, other) => put(
                &mut text,
                b"or",
                &[number_of(numbers, *one), number_of(numbers, *other)],
            )?,
        }
    }
    Ok(text)
}

/// The number of a transaction.
fn number_of(numbers: &[u32], txn: usize) -> u32 {
    match numbers.get(txn) {
        Some(number) => *number,
        None => 0,
    }
}

/// The text of an answer about these transactions, the first decided one first.
pub(crate) fn answer_text(
    alloc: Global,
    history: &[Committed],
    answer: &Answer,
) -> Result<Vec<u8>, AllocError> {
    let mut text = Vec::new(alloc);
    match answer {
        Answer::Order(order) => {
            let mut ids = Vec::new(alloc);
            for place in order.as_slice() {
                if let Some(committed) = history.get(*place) {
                    ids.push(committed.txn.0)?;
                }
            }
            put(&mut text, b"order", ids.as_slice())?;
        }
        Answer::Refuted(Told::Unwritten { txn, line }) => {
            put(&mut text, b"unwritten", &[*txn, *line])?
        }
        Answer::Refuted(Told::Torn { txn, line }) => put(&mut text, b"torn", &[*txn, *line])?,
        Answer::Refuted(Told::Lines(lines)) => text.extend_from_slice(lines.as_slice())?,
        Answer::Repeat { txn, line } => put(&mut text, b"values repeat", &[*txn, *line])?,
        Answer::Undecided => put(&mut text, b"undecided", &[])?,
    }
    Ok(text)
}
