//! Judges a history of any database or databases: whether the committed transactions were answered as when run whole, one by one, in the
//! order of their decisions.
//!
//! `co_judge` reads a transcript from standard input, and writes `serial N` and the records that the serial run leaves, or `not serial T LINE`.
//! `co_judge why` writes also what was answered there, and what the serial run answers. `co_judge order` writes an order of the committed
//! transactions in which they are serial, or why there is none. A note of how it ended goes to standard error.
#![tactic(auto)]

ghost use Rattle.std.specs.Prelude.{◌≡◌, ◌↔◌, ℕ, List, Some, None};
ghost use Rattle.co_outside.specs.Onward.{past, LiesAhead};
ghost use Rattle.co_check.specs.Judge.{detail_of, IsOutcome, IsResumedOutcome};
ghost use Rattle.co_check.specs.declared.text.Detail.{Detail};
ghost use Rattle.co_order.specs.Answer.{IsOrdered};

use co_check::{Outcome, VerdictFault, judge, judge_resumed, note_outcome};
use co_order::{Answer, judge_order};
use co_outside::{Sink, SinkStd, Source, SourceStd};
use std::alloc::Global;
use std::env;
use std::io::{self, ErrorKind, Read, Write};
use std::process::ExitCode;

/// The words of the command line behind the name of the program.
fn words_of(rt: &HostRuntime) -> io::Result<Vec<String>> {
    let mut words = Vec::new(rt.alloc());
    for word in env::args(rt)?.skip(1) {
        words.push(word)?;
    }
    Ok(words)
}

/// Judges what a stream gives, and writes to streams. Of each text that begins with the bytes that were given, and goes on with whatever comes behind
/// them, with nothing where the stream ended: the bytes that were taken are the verdict on it, whole or, with a fault, a front of that.
fn judge_streams<R: Read + Drop, W: Write + Drop, N: Write + Drop>(
    alloc: Global,
    words: &[String],
    source: &mut SourceStd<R>,
    out: &mut SinkStd<W>,
    notes: &mut SinkStd<N>,
) -> Outcome
    ensures usage { (result ≡ Outcome.Usage) ↔ (detail_of words.now ≡ None) }
    ensures untouched { result ≡ Outcome.Usage → (source.new ≡ source.old) × (out.new ≡ out.old) }
    ensures heard { (how : Detail) (text more : List ℕ) → detail_of words.now ≡ Some how →
        let now = past ⟦<SourceStd<R> as Source>⟧.gave ⟦<SourceStd<R> as Source>⟧.ended ⟦<SourceStd<R> as Source>⟧.went_on in
        LiesAhead (now source.old) (now source.new) text more →
        IsOutcome how text (⟦<SinkStd<W> as Sink>⟧.took out.old) (Some (⟦<SinkStd<W> as Sink>⟧.took out.new)) result }
{
    judge(alloc, words, source, out, notes)
}

/// Judges a resumed run that a stream gives, the records from which it started in front, and writes to streams. Of each text that begins with the bytes
/// that were given, and goes on with whatever comes behind them, with nothing where the stream ended: the bytes that were taken are the verdict on it,
/// whole or, with a fault, a front of that.
fn resumed_streams<R: Read + Drop, W: Write + Drop, N: Write + Drop>(
    alloc: Global,
    source: &mut SourceStd<R>,
    out: &mut SinkStd<W>,
    notes: &mut SinkStd<N>,
) -> Outcome
    ensures heard { (text more : List ℕ) →
        let now = past ⟦<SourceStd<R> as Source>⟧.gave ⟦<SourceStd<R> as Source>⟧.ended ⟦<SourceStd<R> as Source>⟧.went_on in
        LiesAhead (now source.old) (now source.new) text more →
        IsResumedOutcome text (⟦<SinkStd<W> as Sink>⟧.took out.old) (Some (⟦<SinkStd<W> as Sink>⟧.took out.new)) result }
{
    judge_resumed(alloc, source, out, notes)
}

/// Whether the words are this one.
fn is_word(words: &[String], known: &str) -> bool {
    match words {
        [word] => word.as_str() == known,
        _ => false,
    }
}

/// Looks for an order of what a stream gives, and writes the answer to a stream. It is one to each text that begins with the bytes that were given, and goes
/// on with whatever comes behind them, with nothing where the stream ended.
fn order_streams<R: Read + Drop, W: Write + Drop>(
    alloc: Global,
    source: &mut SourceStd<R>,
    out: &mut SinkStd<W>,
) -> Result<Answer, VerdictFault>
    ensures heard { (text more : List ℕ) →
        let now = past ⟦<SourceStd<R> as Source>⟧.gave ⟦<SourceStd<R> as Source>⟧.ended ⟦<SourceStd<R> as Source>⟧.went_on in
        LiesAhead (now source.old) (now source.new) text more → IsOrdered text result }
{
    judge_order(alloc, source, out)
}

/// Looks for an order over the standard streams.
fn order_here(rt: &HostRuntime) -> u8 {
    let mut source = SourceStd::new(rt.stdin());
    let mut out = SinkStd::new(rt.stdout());
    match order_streams(rt.alloc(), &mut source, &mut out) {
        Ok(answer) => answer.code(),
        Err(fault) => refused(rt, Outcome::Ended(Err(fault))).code(),
    }
}

/// Judges over the standard streams.
fn judge_here(rt: &HostRuntime, words: &[String]) -> Outcome {
    let mut source = SourceStd::new(rt.stdin());
    let mut out = SinkStd::new(rt.stdout());
    let mut notes = SinkStd::new(rt.stderr());
    judge_streams(rt.alloc(), words, &mut source, &mut out, &mut notes)
}

/// Judges a resumed run over the standard streams.
fn resumed_here(rt: &HostRuntime) -> Outcome {
    let mut source = SourceStd::new(rt.stdin());
    let mut out = SinkStd::new(rt.stdout());
    let mut notes = SinkStd::new(rt.stderr());
    resumed_streams(rt.alloc(), &mut source, &mut out, &mut notes)
}

/// Notes an outcome that came before any judging.
fn refused(rt: &HostRuntime, outcome: Outcome) -> Outcome {
    let mut notes = SinkStd::new(rt.stderr());
    note_outcome(rt.alloc(), &mut notes, &outcome);
    outcome
}

fn main(rt: HostRuntime) -> ExitCode {
    let outcome = match words_of(&rt) {
        Ok(words) => {
            if is_word(&words, "order") {
                return ExitCode::from(order_here(&rt));
            }
            if is_word(&words, "resumed") {
                resumed_here(&rt)
            } else {
                judge_here(&rt, &words)
            }
        }
        Err(e) if e.kind() == ErrorKind::OutOfMemory => {
            refused(&rt, Outcome::Ended(Err(VerdictFault::Memory)))
        }
        // A word that is no UTF-8 is none that the judge knows.
        Err(_) => refused(&rt, Outcome::Usage),
    };
    ExitCode::from(outcome.code())
}
