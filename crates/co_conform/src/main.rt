//! Replays cases through the top call and tells which of them come to what they say: `co_conform < names`.
//!
//! Standard input names the files of cases, a line each. A case has blocks of lines, with a line `===` between them. The first block begins with
//! a title, a line with `#`; behind it stand its settings: `file m1.a HEX` for a log file that is there, and `fail sync m1.a 4`, `take 1` or
//! `put 1` for a call that fails: of this kind at this file, of the source, of the sink; and `twist m1.a 4 6 2` for a file whose byte at place 4 is read as 6 from its
//! second read on. Each other block is a command over one directory in memory:
//! `$` and its words, the lines of its input, `---`, and what it comes to: what it puts, its status with its note, and then, where files changed, each
//! of them in hex.
//!
//! Three sorts of blocks are tables. `% faults` and the words of a command: each call that it makes of its directory, its source and its sink fails, in one run each; a line tells
//! the call, the status, the last line that was told, and the records that the files then give. `% cuts m1.a` and the words: the file is cut to each length.
//! `% stops` and the words: the input has a line `arm NODE K LEAVES`, and the table has each call and five images, with what came behind it.
//!
//! A case that comes to what it says is told as `NAME agrees`; of another one, what it comes to is written whole.
#![tactic(auto)]

mod case;
mod command;
mod fault;
mod files;
mod outside;
mod tables;
mod words;

use crate::case::played;
use crate::fault::CaseFault;
use co_outside::{SinkStd, SourceStd, put_all, read_all};
use std::alloc::Global;
use std::process::ExitCode;
use std::{fs, io};

/// The most bytes of the names.
const MOST_BYTES: u32 = 0x1_0000;

/// Appends whether the case of this name comes to what it says, and whether it does.
fn judge(alloc: Global, name: &[u8], text: &[u8], out: &mut Vec<u8>) -> Result<bool, CaseFault> {
    let told = played(alloc, text)?;
    let agrees = told.as_slice() == text;
    out.extend_from_slice(name)?;
    if agrees {
        out.extend_from_slice(b" agrees\n")?;
    } else {
        out.extend_from_slice(b" comes to\n")?;
        out.extend_from_slice(&told)?;
    }
    Ok(agrees)
}

/// Appends what became of the case of this name, and whether it agrees.
fn judge_file(rt: &HostRuntime, name: &str, out: &mut Vec<u8>) -> io::Result<bool> {
    let text = fs::read(rt, name)?;
    match judge(rt.alloc(), name.as_bytes(), &text, out) {
        Ok(agrees) => Ok(agrees),
        Err(_) => Err(io::ErrorKind::InvalidData.into()),
    }
}

/// Appends what became of each case, and whether all agree.
fn judge_all(rt: &HostRuntime, names: &str, out: &mut Vec<u8>) -> io::Result<bool> {
    let mut all = true;
    for name in names.lines() {
        all = judge_file(rt, name, out)? && all;
    }
    Ok(all)
}

fn main(rt: HostRuntime) -> io::Result<ExitCode> {
    let alloc = rt.alloc();
    let mut source = SourceStd::new(rt.stdin());
    let Ok(names) = read_all(alloc, &mut source, MOST_BYTES) else {
        return Ok(ExitCode::FAILURE);
    };
    let Ok(names) = String::from_utf8(names) else {
        return Ok(ExitCode::FAILURE);
    };
    let mut out = Vec::new(alloc);
    let agree = judge_all(&rt, names.as_str(), &mut out)?;
    let mut sink = SinkStd::new(rt.stdout());
    match put_all(alloc, &mut sink, &out) {
        Ok(()) if agree => Ok(ExitCode::SUCCESS),
        _ => Ok(ExitCode::FAILURE),
    }
}
