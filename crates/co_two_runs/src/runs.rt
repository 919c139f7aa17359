//! The two runs.
ghost use Rattle.std.specs.Prelude.{◌≡◌, Bool, true, false, codes, IfOk};
ghost use Rattle.co_top.specs.Command.{AsksRun, asked_by};
ghost use Rattle.co_two_runs.specs.TwoRuns.{HasEnded, HaveEnded};

use co_outside::{HomeMemory, SinkMemory, SourceMemory};
use co_top::{Status, run};
use std::alloc::{AllocError, Global};

/// How two runs in a row ended.
#[derive(Drop)]
pub struct TwoRuns {
    /// How the one over fresh logs ended.
    pub first: Status,
    /// How the one that went on over them ended.
    pub second: Status,
}

/// The words `run logs`.
fn words_afresh(alloc: Global) -> Result<Vec<String>, AllocError>
    ensures { IfOk result (λ words. asked_by words.items ≡ AsksRun (codes "logs") false) }
{
    let mut words = Vec::new(alloc);
    words.push(String::from_str(alloc, "run")?)?;
    words.push(String::from_str(alloc, "logs")?)?;
    Ok(words)
}

/// The words `run --resume logs`.
fn words_resumed(alloc: Global) -> Result<Vec<String>, AllocError>
    ensures { IfOk result (λ words. asked_by words.items ≡ AsksRun (codes "logs") true) }
{
    let mut words = Vec::new(alloc);
    words.push(String::from_str(alloc, "run")?)?;
    words.push(String::from_str(alloc, "--resume")?)?;
    words.push(String::from_str(alloc, "logs")?)?;
    Ok(words)
}

/// Runs a command of these words over a schedule and a directory in memory, with a sink and a sink of notes of its own.
fn run_over(alloc: Global, words: &[String], schedule: Vec<u8>, home: &mut HomeMemory) -> Status
    ensures { (resume : Bool) → asked_by words.now ≡ AsksRun (codes "logs") resume → HasEnded resume schedule.items home.old home.new result }
{
    let mut source = SourceMemory::new(schedule, Vec::new(alloc));
    let mut out = SinkMemory::new(alloc, Vec::new(alloc));
    let mut notes = SinkMemory::new(alloc, Vec::new(alloc));
    run(alloc, words, &mut source, &mut out, &mut notes, home)
}

/// Runs a schedule over fresh logs in a directory in memory, and another one over what it left there. Each status is that of the command `run`; the
/// error is want of memory, before either.
pub fn run_twice(
    alloc: Global,
    first: Vec<u8>,
    second: Vec<u8>,
    home: &mut HomeMemory,
) -> Result<TwoRuns, AllocError>
    ensures { IfOk result (HaveEnded first.items second.items home.old home.new) }
{
    let afresh = words_afresh(alloc)?;
    let resumed = words_resumed(alloc)?;
    let first = run_over(alloc, &afresh, first, home);
    let second = run_over(alloc, &resumed, second, home);
    Ok(TwoRuns { first, second })
}
