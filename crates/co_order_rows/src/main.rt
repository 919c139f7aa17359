//! Replays histories and writes whether each runs serially in some order: `co_order_rows < names`.
//!
//! Standard input names the files of transcripts, a line each. Of each it writes the name behind `#`, then what `co_judge order` writes of it, and its
//! exit code. The stored output is what a program that shares nothing with this one says of them (`bench/orders.py`).
#![tactic(auto)]

use co_check::{Outcome, VerdictFault};
use co_order::{Answer, judge_order};
use co_outside::{SinkStd, SourceMemory, SourceStd, read_all};
use std::process::ExitCode;
use std::{fs, io};

/// The most bytes of the names.
const MOST_BYTES: u32 = 0x1_0000;

/// The exit code of an answer, or of a fault.
fn code_of(answered: Result<Answer, VerdictFault>) -> u8 {
    match answered {
        Ok(answer) => answer.code(),
        Err(fault) => Outcome::Ended(Err(fault)).code(),
    }
}

/// Replays the transcript of this name.
fn replay(rt: &HostRuntime, name: &str) -> io::Result<()> {
    let alloc = rt.alloc();
    println!(rt; "# {name}")?;
    let text = fs::read(rt, name)?;
    let mut source = SourceMemory::new(text, Vec::new(alloc));
    let mut sink = SinkStd::new(rt.stdout());
    let code = code_of(judge_order(alloc, &mut source, &mut sink));
    println!(rt; "{code}")?;
    Ok(())
}

fn main(rt: HostRuntime) -> io::Result<ExitCode> {
    let mut source = SourceStd::new(rt.stdin());
    let Ok(names) = read_all(rt.alloc(), &mut source, MOST_BYTES) else {
        return Ok(ExitCode::FAILURE);
    };
    let Ok(names) = String::from_utf8(names) else {
        return Ok(ExitCode::FAILURE);
    };
    for name in names.as_str().lines() {
        replay(&rt, name)?;
    }
    Ok(ExitCode::SUCCESS)
}
