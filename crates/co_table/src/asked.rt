//! A transcript, shown as the words of the command line ask for it.
ghost use Rattle.std.specs.Prelude.{◌≡◌, ◌↔◌, ℕ, List, Some, None, Err};
ghost use Rattle.co_outside.specs.Faults.{HasRisen};
ghost use Rattle.co_outside.specs.Onward.{past, LiesAhead};
ghost use Rattle.co_outside.specs.Sink.{HasNoted};
ghost use Rattle.co_picture.specs.Drawn.{note_of};
ghost use Rattle.co_table.specs.Asked.{is_table, form_of, IsOutcome};
ghost use Rattle.co_table.specs.declared.asked.Form.{Form};

use crate::outcome::table;
use co_outside::{Sink, Source};
use co_picture::{DrawFault, Outcome, draw};
use std::alloc::Global;

/// In what form a transcript is shown.
#[derive(Clone, Copy)]
pub enum Form {
    /// As a picture.
    Picture,
    /// As a table.
    Table,
}

/// Whether the word is `table`.
fn is_table(word: &String) -> bool
    ensures { result ≡ is_table word.now }
{
    let table: &[u8] = b"table";
    word.as_bytes() == table
}

/// What the words of the command line ask for, where they are known: no word, or `table`.
fn form_of(words: &[String]) -> Option<Form>
    ensures { result ≡ form_of words.now }
{
    match words {
        [] => Some(Form::Picture),
        [word] if is_table(word) => Some(Form::Table),
        _ => None,
    }
}

/// Shows a transcript: reads it from the source, and writes to the sink its picture, or with the word `table` its table. Other words are `Usage`, and
/// then nothing is read or written.
///
/// The clause `shown` speaks of a source and a sink that tell what they hold. The clause `heard` speaks of any: of each text that begins with
/// what the source gave, and of what the sink took. A note of the outcome goes to the sink of notes, as with `draw` and `table`.
pub fn show<S: Source, K: Sink, N: Sink>(
    alloc: Global,
    words: &[String],
    source: &mut S,
    out: &mut K,
    notes: &mut N,
) -> Outcome
    ensures usage { (result ≡ Outcome.Usage) ↔ (form_of words.now ≡ None) }
    ensures untouched { result ≡ Outcome.Usage → (source.new ≡ source.old) × (out.new ≡ out.old) }
    ensures shown { (how : Form) (text held : List ℕ) → form_of words.now ≡ Some how → S.left source.old ≡ Some text → K.told out.old ≡ Some held → IsOutcome how text held (K.told out.new) result }
    ensures heard { (how : Form) (text more : List ℕ) → form_of words.now ≡ Some how → LiesAhead (past S.gave S.ended S.went_on source.old) (past S.gave S.ended S.went_on source.new) text more →
        IsOutcome how text (K.took out.old) (Some (K.took out.new)) result }
    ensures read { result ≡ Outcome.Ended (Err DrawFault.Read) → HasRisen (S.faults source.old) (S.faults source.new) }
    ensures quiet { (result ≡ Outcome.Ended (Err DrawFault.Read) → ⊥) → S.faults source.new ≡ S.faults source.old }
    ensures write { result ≡ Outcome.Ended (Err DrawFault.Write) → HasRisen (K.faults out.old) (K.faults out.new) }
    ensures silent { (result ≡ Outcome.Ended (Err DrawFault.Write) → ⊥) → K.faults out.new ≡ K.faults out.old }
    ensures noted { (held : List ℕ) → N.told notes.old ≡ Some held →
        HasNoted held (note_of result) (N.told notes.new) (N.faults notes.old) (N.faults notes.new) (N.lacks notes.old) (N.lacks notes.new) }
{
    match form_of(words) {
        Some(Form::Table) => table(alloc, source, out, notes),
        _ => draw(alloc, words, source, out, notes),
    }
}
