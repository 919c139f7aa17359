//! Drawing from a source to a sink, with a note of how it ended.
ghost use Rattle.std.specs.Prelude.{◌≡◌, ◌≢◌, ◌≤◌, ◌↔◌, ℕ, List, [], Some, None, Ok, Err, IsErrOf, codes, length};
ghost use Rattle.co_outside.specs.Faults.{HasRisen};
ghost use Rattle.co_outside.specs.Onward.{past, LiesAhead};
ghost use Rattle.co_outside.specs.Sink.{HasNoted};
ghost use Rattle.co_picture.specs.Drawn.{IsPutAs, IsDrawnAs, IsOutcome, drawn_text, exit_code, note_of, text_of_note};
ghost use Rattle.co_picture.specs.Read.{most_lines_drawn};

use crate::drawing::drawing_of;
use crate::fault::DrawFault;
use crate::note::{Note, put_note};
use crate::reading::read_items;
use co_message::Item;
use co_outside::{Sink, SinkFault, Source, put_all};
use std::alloc::Global;

/// How drawing ended.
#[derive(Drop)]
pub enum Outcome {
    /// There are words, and it knows none. Nothing was read or written.
    Usage,
    /// The transcript was drawn; or it was not.
    Ended(Result<(), DrawFault>),
}

impl Outcome {
    /// The exit code that stands for it: 0 for a picture; 2 for words, 4 and 5 for a source and a sink that failed, 10 for a line that is
    /// too long and for too many of them, 11 for want of memory, and 15 for a line that is no item or breaks the shape.
    pub fn code(&self) -> u8
        ensures { result ≡ exit_code self.now }
    {
        match self {
            Outcome::Usage => 2,
            Outcome::Ended(Ok(())) => 0,
            Outcome::Ended(Err(DrawFault::Read)) => 4,
            Outcome::Ended(Err(DrawFault::Write)) => 5,
            Outcome::Ended(Err(DrawFault::Text { .. })) => 15,
            Outcome::Ended(Err(DrawFault::Long { .. } | DrawFault::Many)) => 10,
            Outcome::Ended(Err(DrawFault::Memory)) => 11,
        }
    }
}

/// A note without the number of a line.
fn words(front: &'static [u8]) -> Note
    ensures { (result.front.now ≡ front.entry.now) × (result.line ≡ None) × (result.back.now ≡ codes "\n") }
{
    Note {
        front,
        line: None,
        back: b"\n",
    }
}

/// The note of an outcome. A picture has none.
fn note_of(outcome: &Outcome) -> Note
    ensures { text_of_note result ≡ note_of outcome.now }
{
    match outcome {
        Outcome::Usage => words(b"usage"),
        Outcome::Ended(Ok(())) => Note {
            front: b"",
            line: None,
            back: b"",
        },
        Outcome::Ended(Err(DrawFault::Read)) => words(b"read fault"),
        Outcome::Ended(Err(DrawFault::Write)) => words(b"write fault"),
        Outcome::Ended(Err(DrawFault::Text { line })) => Note {
            front: b"transcript line ",
            line: Some(*line),
            back: b"\n",
        },
        Outcome::Ended(Err(DrawFault::Long { line })) => Note {
            front: b"limit: line ",
            line: Some(*line),
            back: b" is long\n",
        },
        Outcome::Ended(Err(DrawFault::Many)) => words(b"limit: lines"),
        Outcome::Ended(Err(DrawFault::Memory)) => words(b"want of memory"),
    }
}

/// Writes the picture of these items.
fn write_drawing<K: Sink>(alloc: Global, out: &mut K, items: &[Item]) -> Result<(), DrawFault>
    requires { length items.now ≤ most_lines_drawn }
    ensures put { (held : List ℕ) → K.told out.old ≡ Some held → IsPutAs (drawn_text items.now) held (K.told out.new) result }
    ensures took { IsPutAs (drawn_text items.now) (K.took out.old) (Some (K.took out.new)) result }
    ensures never { IsErrOf result DrawFault.Read → ⊥ }
    ensures counts { K.faults out.old ≤ K.faults out.new }
    ensures write { IsErrOf result DrawFault.Write → HasRisen (K.faults out.old) (K.faults out.new) }
    ensures silent { (IsErrOf result DrawFault.Write → ⊥) → K.faults out.new ≡ K.faults out.old }
{
    let text = drawing_of(alloc, items)?;
    match put_all(alloc, out, &text) {
        Ok(()) => Ok(()),
        Err(SinkFault::Failed) => Err(DrawFault::Write),
        Err(SinkFault::Memory) => Err(DrawFault::Memory),
    }
}

/// Reads a transcript and writes its picture.
fn draw_items<S: Source, K: Sink>(
    alloc: Global,
    source: &mut S,
    out: &mut K,
) -> Result<(), DrawFault>
    ensures drawn { (text held : List ℕ) → S.left source.old ≡ Some text → K.told out.old ≡ Some held → IsDrawnAs text held (K.told out.new) result }
    ensures heard { (text more : List ℕ) → LiesAhead (past S.gave S.ended S.went_on source.old) (past S.gave S.ended S.went_on source.new) text more → IsDrawnAs text (K.took out.old) (Some (K.took out.new)) result }
    ensures reads { S.faults source.old ≤ S.faults source.new }
    ensures read { IsErrOf result DrawFault.Read → HasRisen (S.faults source.old) (S.faults source.new) }
    ensures quiet { (IsErrOf result DrawFault.Read → ⊥) → S.faults source.new ≡ S.faults source.old }
    ensures counts { K.faults out.old ≤ K.faults out.new }
    ensures write { IsErrOf result DrawFault.Write → HasRisen (K.faults out.old) (K.faults out.new) }
    ensures silent { (IsErrOf result DrawFault.Write → ⊥) → K.faults out.new ≡ K.faults out.old }
{
    let items = read_items(alloc, source)?;
    write_drawing(alloc, out, items.as_slice())
}

/// Notes an outcome. The note is put whole, or its sink failed or had no memory, and then a front of it was put.
pub fn note_outcome<N: Sink>(alloc: Global, notes: &mut N, outcome: &Outcome)
    ensures noted { (held : List ℕ) → N.told notes.old ≡ Some held →
        HasNoted held (note_of outcome.now) (N.told notes.new) (N.faults notes.old) (N.faults notes.new) (N.lacks notes.old) (N.lacks notes.new) }
    ensures counts { N.faults notes.old ≤ N.faults notes.new }
{
    put_note(alloc, notes, &note_of(outcome));
}

/// Draws without a note.
fn outcome_of<S: Source, K: Sink>(
    alloc: Global,
    words: &[String],
    source: &mut S,
    out: &mut K,
) -> Outcome
    ensures usage { (result ≡ Outcome.Usage) ↔ (words.now ≢ []) }
    ensures untouched { result ≡ Outcome.Usage → (source.new ≡ source.old) × (out.new ≡ out.old) }
    ensures drawn { (text held : List ℕ) → words.now ≡ [] → S.left source.old ≡ Some text → K.told out.old ≡ Some held → IsOutcome text held (K.told out.new) result }
    ensures heard { (text more : List ℕ) → words.now ≡ [] → LiesAhead (past S.gave S.ended S.went_on source.old) (past S.gave S.ended S.went_on source.new) text more →
        IsOutcome text (K.took out.old) (Some (K.took out.new)) result }
    ensures read { result ≡ Outcome.Ended (Err DrawFault.Read) → HasRisen (S.faults source.old) (S.faults source.new) }
    ensures quiet { (result ≡ Outcome.Ended (Err DrawFault.Read) → ⊥) → S.faults source.new ≡ S.faults source.old }
    ensures write { result ≡ Outcome.Ended (Err DrawFault.Write) → HasRisen (K.faults out.old) (K.faults out.new) }
    ensures silent { (result ≡ Outcome.Ended (Err DrawFault.Write) → ⊥) → K.faults out.new ≡ K.faults out.old }
{
    if !words.is_empty() {
        return Outcome::Usage;
    }
    Outcome::Ended(draw_items(alloc, source, out))
}

/// Draws a transcript: reads it from the source, and writes to the sink its picture, a text in Scalable Vector Graphics. The picture is that of the
/// items whose lines the transcript has (`drawn_text`): one row an item, in their order.
///
/// Words are `Usage`. The clause `drawn` speaks of a source and a sink that tell what they hold. The clause `heard` speaks of any: of each text
/// that begins with what the source gave, and of what the sink took.
///
/// A note of the outcome goes to the sink of notes; a picture has none. `Read` and `Write` come only where the source or the sink of the picture
/// failed; the other faults as `read_items` says.
pub fn draw<S: Source, K: Sink, N: Sink>(
    alloc: Global,
    words: &[String],
    source: &mut S,
    out: &mut K,
    notes: &mut N,
) -> Outcome
    ensures usage { (result ≡ Outcome.Usage) ↔ (words.now ≢ []) }
    ensures untouched { result ≡ Outcome.Usage → (source.new ≡ source.old) × (out.new ≡ out.old) }
    ensures drawn { (text held : List ℕ) → words.now ≡ [] → S.left source.old ≡ Some text → K.told out.old ≡ Some held → IsOutcome text held (K.told out.new) result }
    ensures heard { (text more : List ℕ) → words.now ≡ [] → LiesAhead (past S.gave S.ended S.went_on source.old) (past S.gave S.ended S.went_on source.new) text more →
        IsOutcome text (K.took out.old) (Some (K.took out.new)) result }
    ensures read { result ≡ Outcome.Ended (Err DrawFault.Read) → HasRisen (S.faults source.old) (S.faults source.new) }
    ensures quiet { (result ≡ Outcome.Ended (Err DrawFault.Read) → ⊥) → S.faults source.new ≡ S.faults source.old }
    ensures write { result ≡ Outcome.Ended (Err DrawFault.Write) → HasRisen (K.faults out.old) (K.faults out.new) }
    ensures silent { (result ≡ Outcome.Ended (Err DrawFault.Write) → ⊥) → K.faults out.new ≡ K.faults out.old }
    ensures noted { (held : List ℕ) → N.told notes.old ≡ Some held →
        HasNoted held (note_of result) (N.told notes.new) (N.faults notes.old) (N.faults notes.new) (N.lacks notes.old) (N.lacks notes.new) }
{
    let outcome = outcome_of(alloc, words, source, out);
    note_outcome(alloc, notes, &outcome);
    outcome
}
