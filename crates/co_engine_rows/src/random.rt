//! Rows that look random.
use crate::picks::Picks;
use crate::rows::number_of;
use crate::texts::put_digits;
use co_base::Kind;
use std::alloc::{AllocError, Global};

/// Rows of a transaction `#` and of keys `?` for an engine that validates.
const VALIDATING: [&[u8]; 12] = [
    b"scan # a c",
    b"scan # b e",
    b"erase # ?",
    b"write # ? 1",
    b"write # ? 2",
    b"write # ? 3",
    b"cast #",
    b"cast #",
    b"install #",
    b"drop #",
    b"read # ?",
    b"read # ?",
];

/// The same for an engine that locks.
const LOCKING: [&[u8]; 14] = [
    b"scan # a c",
    b"scan # f h",
    b"erase # ?",
    b"write # ? 1",
    b"write # ? 2",
    b"write # ? 3",
    b"cast #",
    b"install #",
    b"install #",
    b"drop #",
    b"read # ?",
    b"read # ?",
    b"read # ?",
    b"read # ?",
];

/// The same for an engine that keeps versions.
const MULTIVERSION: [&[u8]; 12] = [
    b"read # ?",
    b"read # ?",
    b"scan # b d",
    b"write # ? 1",
    b"write # ? 2",
    b"erase # ?",
    b"drop #",
    b"cast #",
    b"cast #",
    b"install #",
    b"install #",
    b"install #",
];

/// How rows are made.
#[derive(Clone, Copy)]
struct Shape {
    /// What they are made of.
    rows: &'static [&'static [u8]],
    /// The keys.
    keys: &'static [u8],
    /// How many rounds there are. Each has one more transaction, which is the last then.
    rounds: u64,
    /// How many rows a round has.
    each: u64,
    /// How many transactions there are at a time.
    together: u64,
    /// After how many of the rounds the oldest transaction is dropped.
    drops: u64,
}

/// How rows for engines of a kind are made.
fn shape_of(kind: Kind) -> Shape {
    match kind {
        Kind::Lock => Shape {
            rows: &LOCKING,
            keys: b"abcdefgh",
            rounds: 25,
            each: 16,
            together: 5,
            drops: 20,
        },
        Kind::Occ => Shape {
            rows: &VALIDATING,
            keys: b"abcde",
            rounds: 20,
            each: 20,
            together: 6,
            drops: 0,
        },
        Kind::Mv => Shape {
            rows: &MULTIVERSION,
            keys: b"abcde",
            rounds: 30,
            each: 10,
            together: 6,
            drops: 0,
        },
    }
}

/// Appends a row of a transaction and of keys that are picked.
fn put_row(
    picks: &mut Picks,
    row: &[u8],
    t: u64,
    keys: &[u8],
    into: &mut Vec<u8>,
) -> Result<(), AllocError> {
    for byte in row {
        match *byte {
            b'#' => put_digits(t, into)?,
            b'?' => into.push(picks.byte_of(keys))?,
            byte => into.push(byte)?,
        }
    }
    Ok(into.push(b'\n')?)
}

/// Appends the rows of a round.
fn put_round(
    picks: &mut Picks,
    shape: &Shape,
    round: u64,
    into: &mut Vec<u8>,
) -> Result<(), AllocError> {
    for _ in 0..shape.each {
        let t = round.saturating_add(picks.below(shape.together));
        let row = picks.row_of(shape.rows);
        put_row(picks, row, t, shape.keys, into)?;
    }
    if round < shape.drops {
        put_row(picks, b"drop #", round, b"", into)?;
    }
    Ok(())
}

/// Appends rows for engines of a kind, and at last a scan of every key.
pub(crate) fn put_random_rows(
    kind: Kind,
    seed: &[u8],
    into: &mut Vec<u8>,
) -> Result<(), AllocError> {
    let shape = shape_of(kind);
    let mut picks = Picks::new(u64::from(number_of(seed)));
    for round in 0..shape.rounds {
        put_round(&mut picks, &shape, round, into)?;
    }
    into.extend_from_slice(b"scan 99 a h")
}
