//! Draws the transcript of a federation, or tells it as a table.
//!
//! `co_draw` reads a transcript from standard input, and writes its picture to standard output, a text in Scalable Vector Graphics: a lane for each
//! client and each node, and a row for each line. `co_draw table` writes its table, a text in Markdown: a row for each event, and a column for each node. A
//! note of how it ended goes to standard error.
#![tactic(auto)]

ghost use Rattle.std.specs.Prelude.{◌≡◌, ◌↔◌, ℕ, List, Some, None};
ghost use Rattle.co_outside.specs.Onward.{past, LiesAhead};
ghost use Rattle.co_table.specs.Asked.{form_of, IsOutcome};
ghost use Rattle.co_table.specs.declared.asked.Form.{Form};

use co_outside::{Sink, SinkStd, Source, SourceStd};
use co_picture::{DrawFault, Outcome, note_outcome};
use co_table::show;
use std::alloc::Global;
use std::env;
use std::io::{self, ErrorKind, Read, Write};
use std::process::ExitCode;

/// The words of the command line behind the name of the program.
fn words_of(rt: &HostRuntime) -> io::Result<Vec<String>> {
    let mut words = Vec::new(rt.alloc());
    for word in env::args(rt)?.skip(1) {
        words.push(word)?;
    }
    Ok(words)
}

/// Shows what a stream gives, and writes to streams. Of each text that begins with the bytes that were given, and goes on with whatever comes behind
/// them, with nothing where the stream ended: the bytes that were taken are the picture or the table of its items, whole or, with a fault, a front of that.
fn show_streams<R: Read + Drop, W: Write + Drop, N: Write + Drop>(
    alloc: Global,
    words: &[String],
    source: &mut SourceStd<R>,
    out: &mut SinkStd<W>,
    notes: &mut SinkStd<N>,
) -> Outcome
    ensures usage { (result ≡ Outcome.Usage) ↔ (form_of words.now ≡ None) }
    ensures untouched { result ≡ Outcome.Usage → (source.new ≡ source.old) × (out.new ≡ out.old) }
    ensures heard { (how : Form) (text more : List ℕ) → form_of words.now ≡ Some how →
        let now = past ⟦<SourceStd<R> as Source>⟧.gave ⟦<SourceStd<R> as Source>⟧.ended ⟦<SourceStd<R> as Source>⟧.went_on in
        LiesAhead (now source.old) (now source.new) text more →
        IsOutcome how text (⟦<SinkStd<W> as Sink>⟧.took out.old) (Some (⟦<SinkStd<W> as Sink>⟧.took out.new)) result }
{
    show(alloc, words, source, out, notes)
}

/// Shows over the standard streams.
fn show_here(rt: &HostRuntime, words: &[String]) -> Outcome {
    let mut source = SourceStd::new(rt.stdin());
    let mut out = SinkStd::new(rt.stdout());
    let mut notes = SinkStd::new(rt.stderr());
    show_streams(rt.alloc(), words, &mut source, &mut out, &mut notes)
}

/// Notes an outcome that came before anything was shown.
fn refused(rt: &HostRuntime, outcome: Outcome) -> Outcome {
    let mut notes = SinkStd::new(rt.stderr());
    note_outcome(rt.alloc(), &mut notes, &outcome);
    outcome
}

fn main(rt: HostRuntime) -> ExitCode {
    let outcome = match words_of(&rt) {
        Ok(words) => show_here(&rt, &words),
        Err(e) if e.kind() == ErrorKind::OutOfMemory => {
            refused(&rt, Outcome::Ended(Err(DrawFault::Memory)))
        }
        // A word that is no UTF-8 is one that it does not know.
        Err(_) => refused(&rt, Outcome::Usage),
    };
    ExitCode::from(outcome.code())
}
