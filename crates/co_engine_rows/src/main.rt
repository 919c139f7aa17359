//! Plays rows of commands on the engines and writes what each comes to: `co_engine_rows < rows`.
//!
//! A line that begins with `#` is a title, and a block begins behind it. The next line of a block says how its rows are played
//! and on engines of which kind: `play locking` gives them to the player as one list, `ask validating` makes the calls one by one,
//! with questions between them, and `random multiversion 1 2` makes lists that look random from these seeds. Then come the records and
//! the prepared transactions that the engine begins with, and then the rows. Where prepared transactions are in conflict no row is
//! played, and the first one comes to `not free`.
//!
//! `load locking SHAPE OPERATIONS TRANSACTIONS KEYS SPAN TOGETHER` has no rows: it makes so many calls over so many records, as its
//! shape says (`turns`, `ballots`, `dumps`, `staggered`, `held` or `pinned`), and what it comes to is told by numbers and a digest. Loads of any size are
//! measured outside the gate.
//!
//! Each row is written as it stands, with what it comes to at the engine of the kind. The plain engine and the engine of
//! any kind are played the same rows, and a line is written for each that answers otherwise.
//!
//! The stored input has the worked rows, and the stored output what is to come of them.
#![tactic(auto)]

mod asks;
mod blocks;
mod commands;
mod kept;
mod loads;
mod picks;
mod played;
mod plays;
mod random;
mod rows;
mod setups;
mod stays;
mod texts;

use crate::blocks::put_block;
use crate::rows::RowFault;
use co_outside::{SinkStd, SourceStd, put_all, read_all};
use std::alloc::Global;
use std::io;
use std::process::ExitCode;

/// The most bytes of the rows.
const MOST_BYTES: u32 = 0x10_0000;

/// Appends what the rows of a text come to.
fn put_told(alloc: Global, text: &[u8], out: &mut Vec<u8>) -> Result<(), RowFault> {
    let mut block = Vec::new(alloc);
    for line in text.split(|b| *b == b'\n') {
        if line.starts_with(b"#") {
            put_block(alloc, &block, out)?;
            block.clear();
        }
        if !line.is_empty() {
            block.push(line)?;
        }
    }
    put_block(alloc, &block, out)
}

/// What the rows of a text come to.
fn told(alloc: Global, text: &[u8]) -> Result<Vec<u8>, RowFault> {
    let mut out = Vec::new(alloc);
    put_told(alloc, text, &mut out)?;
    Ok(out)
}

fn main(rt: HostRuntime) -> io::Result<ExitCode> {
    let alloc = rt.alloc();
    let mut source = SourceStd::new(rt.stdin());
    let Ok(text) = read_all(alloc, &mut source, MOST_BYTES) else {
        return Ok(ExitCode::FAILURE);
    };
    let Ok(told) = told(alloc, &text) else {
        return Ok(ExitCode::FAILURE);
    };
    let mut out = SinkStd::new(rt.stdout());
    match put_all(alloc, &mut out, &told) {
        Ok(()) => Ok(ExitCode::SUCCESS),
        Err(_) => Ok(ExitCode::FAILURE),
    }
}
