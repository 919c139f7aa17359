//! Replays resumed runs and writes how each is judged: `co_resumed_rows < names`.
//!
//! Standard input names files, a line each, that have the records from which a run started and its transcript behind them. Of each it writes the name
//! behind `#`, then what `co_judge resumed` writes of it, with its note, and its exit code. The stored output of a run has the records that its logs
//! gave behind it, as they are stored beside it in the cases of `co_conform`.
#![tactic(auto)]

use co_check::judge_resumed;
use co_outside::{SinkStd, SourceMemory, SourceStd, read_all};
use std::process::ExitCode;
use std::{fs, io};

/// The most bytes of the names.
const MOST_BYTES: u32 = 0x1_0000;

/// Judges the run of this name.
fn replay(rt: &HostRuntime, name: &str) -> io::Result<()> {
    let alloc = rt.alloc();
    println!(rt; "# {name}")?;
    let text = fs::read(rt, name)?;
    let mut source = SourceMemory::new(text, Vec::new(alloc));
    let mut out = SinkStd::new(rt.stdout());
    let mut notes = SinkStd::new(rt.stdout());
    let code = judge_resumed(alloc, &mut source, &mut out, &mut notes).code();
    println!(rt; "{code}")?;
    Ok(())
}

fn main(rt: HostRuntime) -> io::Result<ExitCode> {
    let mut source = SourceStd::new(rt.stdin());
    let Ok(names) = read_all(rt.alloc(), &mut source, MOST_BYTES) else {
        return Ok(ExitCode::FAILURE);
    };
    let Ok(names) = String::from_utf8(names) else {
        return Ok(ExitCode::FAILURE);
    };
    for name in names.as_str().lines() {
        replay(&rt, name)?;
    }
    Ok(ExitCode::SUCCESS)
}
