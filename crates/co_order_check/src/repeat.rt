//! Reads that have two sources.
ghost use Rattle.std.specs.Prelude.{◌≡◌, true};
ghost use Rattle.co_order_check.specs.Paths.{HasTwoSources, MayComeFrom, StandsAt, RepeatsAt};

use crate::reading::{is_left_at, is_told_from_others};
use crate::record_id::RecordId;
use co_base::Value;
use co_check::Committed;

/// A transaction reads a record from others, and what it is told may come from two.
#[derive(Drop)]
pub struct Repeat {
    /// The record.
    pub record: RecordId,
    /// The place of the transaction that reads.
    pub reader: usize,
    /// The place of the operation among its own, counted from 0.
    pub place: usize,
    /// What it is told.
    pub value: Option<Value>,
    /// The place of a transaction that left this; none for the start.
    pub one: Option<usize>,
    /// The place of another one that did.
    pub other: usize,
}

/// Whether what is read may come from the one source, which is not the other.
fn may_be_another(history: &[Committed], repeat: &Repeat) -> bool
    ensures { result ≡ true → MayComeFrom history.now repeat.now.reader repeat.now.record repeat.now.value repeat.now.one repeat.now.other }
{
    match repeat.one {
        None => repeat.value.is_none(),
        Some(one) => {
            one != repeat.other
                && is_left_at(history, &repeat.record, one, repeat.reader, &repeat.value)
        }
    }
}

/// Whether the operation stands there: of the transaction of this number, at this line.
fn is_at(history: &[Committed], reader: usize, place: usize, txn: u32, line: u32) -> bool
    ensures { result ≡ true → StandsAt history.now reader place txn line }
{
    if reader >= history.len() {
        return false;
    }
    let told = history[reader].told.oldest_first();
    if place >= told.len() {
        return false;
    }
    let number = history[reader].txn;
    number.0 == txn && told[place].number == line
}

/// Whether the read, of the transaction of this number at this line, has these two sources.
pub fn repeat_holds(history: &[Committed], repeat: &Repeat, txn: u32, line: u32) -> bool
    ensures { result ≡ true → RepeatsAt history.now txn line }
{
    if !is_at(history, repeat.reader, repeat.place, txn, line) {
        return false;
    }
    has_two_sources(history, repeat)
}

/// Whether the read has these two sources.
fn has_two_sources(history: &[Committed], repeat: &Repeat) -> bool
    ensures { result ≡ true → HasTwoSources history.now repeat.now.reader repeat.now.place }
{
    if !may_be_another(history, repeat) {
        return false;
    }
    if !is_left_at(
        history,
        &repeat.record,
        repeat.other,
        repeat.reader,
        &repeat.value,
    ) {
        return false;
    }
    is_told_from_others(
        history,
        &repeat.record,
        repeat.reader,
        repeat.place,
        &repeat.value,
    )
}
