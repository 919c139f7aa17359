//! The program: a federation whose schedule is replayed over logs in a directory, and what can be asked of it.
//!
//! `co_cli run DIR` reads a schedule from standard input and writes its transcript to standard output, `co_cli run --resume DIR`
//! over logs that a run left; `co_cli records DIR` writes the records that the logs in the directory give; `co_cli resolve DIR` does
//! what `run DIR` does, and then members in doubt ask each other; `co_cli migrate DIR` fills logs of version 1 in version 2;
//! `co_cli waits` writes the held votes at the end of a schedule, in their order or with their cycle; `co_cli check` reads a
//! transcript from standard input and tells whether its committed transactions read serially; and `co_cli trial NUMBER EVENTS`
//! runs a made schedule over a directory in memory and writes what it came to. A note of how it ended goes to standard error.
#![tactic(auto)]

use co_files::HomeStd;
use co_outside::{SinkStd, SourceStd, put_all};
use co_top::{Status, run};
use std::env;
use std::io::{self, ErrorKind};
use std::process::ExitCode;

/// The words of the command line behind the name of the program.
fn words_of(rt: &HostRuntime) -> io::Result<Vec<String>> {
    let mut words = Vec::new(rt.alloc());
    for word in env::args(rt)?.skip(1) {
        words.push(word)?;
    }
    Ok(words)
}

/// Runs the command of these words over the standard streams and real files.
fn run_here(rt: HostRuntime, words: &[String]) -> Status {
    let mut source = SourceStd::new(rt.stdin());
    let mut out = SinkStd::new(rt.stdout());
    let mut notes = SinkStd::new(rt.stderr());
    let alloc = rt.alloc();
    let mut home = HomeStd::new(rt);
    run(alloc, words, &mut source, &mut out, &mut notes, &mut home)
}

/// Notes that there was no memory for the words.
fn want_of_memory(rt: &HostRuntime) -> Status {
    let mut notes = SinkStd::new(rt.stderr());
    let _ = put_all(rt.alloc(), &mut notes, b"want of memory\n");
    Status::Memory
}

fn main(rt: HostRuntime) -> ExitCode {
    let status = match words_of(&rt) {
        Ok(words) => run_here(rt, &words),
        Err(e) if e.kind() == ErrorKind::OutOfMemory => want_of_memory(&rt),
        // A word that is no UTF-8 is one of no command.
        Err(_) => run_here(rt, &[]),
    };
    ExitCode::from(status.code())
}
