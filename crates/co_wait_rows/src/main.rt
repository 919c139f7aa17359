//! Untangles loads of waits, and writes what they come to: `co_wait_rows < rows`.
//!
//! A row is `ring N`, for N transactions of which each waits for the next one and the last one for the first one, `line N`, where the last one
//! waits for none, or `star N`, where all wait for the first one. Each is written as it stands, with `cycle` and how many legs it has, or `order`, how many
//! ranks, and the greatest of them.
#![tactic(auto)]

use co_base::Txn;
use co_outside::{SinkStd, SourceStd, put_all, read_all};
use co_wait::{Knot, Ranks, Wait, Waits, are_ascending, untangle};
use std::alloc::{AllocError, Global};
use std::io;
use std::process::ExitCode;

/// The most bytes of the rows.
const MOST_BYTES: u32 = 0x10_0000;

/// The most transactions of a row.
const MOST_TRANSACTIONS: u32 = 0x1_0000;

/// How transactions wait.
#[derive(Clone, Copy)]
enum Shape {
    Ring,
    Line,
    Star,
}

/// Which transaction one of so many waits for, if any.
fn way_of(shape: Shape, number: u32, count: u32) -> Option<u32> {
    let is_last = count.saturating_sub(number) <= 1;
    match shape {
        Shape::Ring if is_last => Some(0),
        Shape::Line if is_last => None,
        Shape::Star if number == 0 => None,
        Shape::Star => Some(0),
        Shape::Ring | Shape::Line => Some(number.saturating_add(1)),
    }
}

/// The waits of so many transactions at one member.
fn waits_of(alloc: Global, shape: Shape, count: u32) -> Result<Waits, AllocError> {
    let mut waits = Waits::new(alloc);
    for number in 0..count {
        if let Some(by) = way_of(shape, number, count) {
            waits.push(Wait {
                member: 1,
                held: Txn(number),
                by: Txn(by),
            })?;
        }
    }
    Ok(waits)
}

/// The greatest rank.
fn greatest(ranks: &Ranks) -> u32 {
    ranks
        .as_slice()
        .iter()
        .map(|rank| rank.rank)
        .max()
        .unwrap_or(0)
}

/// What waits come to.
fn text_of(alloc: Global, knot: &Knot) -> Result<String, AllocError> {
    match knot {
        Knot::Cycle(legs) => format!(in alloc; "cycle {}", legs.len()),
        Knot::Order(ranks) => { format!(in alloc; "order {} {}", ranks.len(), greatest(ranks)) }
    }
}

/// The shape and the number of transactions that a row names.
fn load_of(row: &str) -> Option<(Shape, u32)> {
    let (word, count) = row.split_once(' ')?;
    let shape = match word {
        "ring" => Shape::Ring,
        "line" => Shape::Line,
        "star" => Shape::Star,
        _ => return None,
    };
    let count = count.parse::<u32>().ok()?;
    if count <= MOST_TRANSACTIONS {
        Some((shape, count))
    } else {
        None
    }
}

/// Appends what a row comes to.
fn put_row(alloc: Global, row: &str, out: &mut Vec<u8>) -> Result<(), AllocError> {
    out.extend_from_slice(row.as_bytes())?;
    out.extend_from_slice(b" => ")?;
    match load_of(row) {
        Some((shape, count)) => {
            let waits = waits_of(alloc, shape, count)?;
            if are_ascending(&waits) {
                let knot = untangle(alloc, &waits)?;
                out.extend_from_slice(text_of(alloc, &knot)?.as_bytes())?;
            }
        }
        None => out.extend_from_slice(b"no load")?,
    }
    out.extend_from_slice(b"\n")
}

/// What the rows of a text come to.
fn untangled(alloc: Global, rows: &str) -> Result<Vec<u8>, AllocError> {
    let mut out = Vec::new(alloc);
    for row in rows.lines() {
        put_row(alloc, row, &mut out)?;
    }
    Ok(out)
}

fn main(rt: HostRuntime) -> io::Result<ExitCode> {
    let alloc = rt.alloc();
    let mut source = SourceStd::new(rt.stdin());
    let Ok(rows) = read_all(alloc, &mut source, MOST_BYTES) else {
        return Ok(ExitCode::FAILURE);
    };
    let Ok(rows) = std::str::from_utf8(&rows) else {
        return Ok(ExitCode::FAILURE);
    };
    let Ok(text) = untangled(alloc, rows) else {
        return Ok(ExitCode::FAILURE);
    };
    let mut out = SinkStd::new(rt.stdout());
    match put_all(alloc, &mut out, &text) {
        Ok(()) => Ok(ExitCode::SUCCESS),
        Err(_) => Ok(ExitCode::FAILURE),
    }
}
