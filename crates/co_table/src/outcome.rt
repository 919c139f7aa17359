//! Telling from a source to a sink, with a note of how it ended.
ghost use Rattle.std.specs.Prelude.{◌≡◌, ◌≢◌, ◌≤◌, ℕ, List, Some, Err, IsErrOf, length};
ghost use Rattle.co_outside.specs.Faults.{HasRisen};
ghost use Rattle.co_outside.specs.Onward.{past, LiesAhead};
ghost use Rattle.co_outside.specs.Sink.{HasNoted};
ghost use Rattle.co_picture.specs.Drawn.{IsPutAs, note_of};
ghost use Rattle.co_picture.specs.Read.{most_lines_drawn};
ghost use Rattle.co_table.specs.Table.{table_text};
ghost use Rattle.co_table.specs.Told.{IsToldAs, IsTable};

use crate::telling::table_of;
use co_message::Item;
use co_outside::{Sink, SinkFault, Source, put_all};
use co_picture::{DrawFault, Outcome, note_outcome, read_items};
use std::alloc::Global;

/// Writes the table of these items.
fn write_table<K: Sink>(alloc: Global, out: &mut K, items: &[Item]) -> Result<(), DrawFault>
    requires { length items.now ≤ most_lines_drawn }
    ensures put { (held : List ℕ) → K.told out.old ≡ Some held → IsPutAs (table_text items.now) held (K.told out.new) result }
    ensures took { IsPutAs (table_text items.now) (K.took out.old) (Some (K.took out.new)) result }
    ensures never { IsErrOf result DrawFault.Read → ⊥ }
    ensures counts { K.faults out.old ≤ K.faults out.new }
    ensures write { IsErrOf result DrawFault.Write → HasRisen (K.faults out.old) (K.faults out.new) }
    ensures silent { (IsErrOf result DrawFault.Write → ⊥) → K.faults out.new ≡ K.faults out.old }
{
    let text = table_of(alloc, items)?;
    match put_all(alloc, out, &text) {
        Ok(()) => Ok(()),
        Err(SinkFault::Failed) => Err(DrawFault::Write),
        Err(SinkFault::Memory) => Err(DrawFault::Memory),
    }
}

/// Reads a transcript and writes its table.
fn tell_items<S: Source, K: Sink>(
    alloc: Global,
    source: &mut S,
    out: &mut K,
) -> Result<(), DrawFault>
    ensures told { (text held : List ℕ) → S.left source.old ≡ Some text → K.told out.old ≡ Some held → IsToldAs text held (K.told out.new) result }
    ensures heard { (text more : List ℕ) → LiesAhead (past S.gave S.ended S.went_on source.old) (past S.gave S.ended S.went_on source.new) text more → IsToldAs text (K.took out.old) (Some (K.took out.new)) result }
    ensures reads { S.faults source.old ≤ S.faults source.new }
    ensures read { IsErrOf result DrawFault.Read → HasRisen (S.faults source.old) (S.faults source.new) }
    ensures quiet { (IsErrOf result DrawFault.Read → ⊥) → S.faults source.new ≡ S.faults source.old }
    ensures counts { K.faults out.old ≤ K.faults out.new }
    ensures write { IsErrOf result DrawFault.Write → HasRisen (K.faults out.old) (K.faults out.new) }
    ensures silent { (IsErrOf result DrawFault.Write → ⊥) → K.faults out.new ≡ K.faults out.old }
{
    let items = read_items(alloc, source)?;
    write_table(alloc, out, items.as_slice())
}

/// Tells a transcript as a table: reads it from the source, and writes to the sink a text in Markdown, that of the items whose lines the transcript has
/// (`table_text`): one row an event, one column a node.
///
/// The clause `told` speaks of a source and a sink that tell what they hold. The clause `heard` speaks of any: of each text that begins with
/// what the source gave, and of what the sink took.
///
/// A note of the outcome goes to the sink of notes; a table has none. `Read` and `Write` come only where the source or the sink of the table
/// failed; the other faults as `read_items` says.
pub fn table<S: Source, K: Sink, N: Sink>(
    alloc: Global,
    source: &mut S,
    out: &mut K,
    notes: &mut N,
) -> Outcome
    ensures told { (text held : List ℕ) → S.left source.old ≡ Some text → K.told out.old ≡ Some held → IsTable text held (K.told out.new) result }
    ensures heard { (text more : List ℕ) → LiesAhead (past S.gave S.ended S.went_on source.old) (past S.gave S.ended S.went_on source.new) text more →
        IsTable text (K.took out.old) (Some (K.took out.new)) result }
    ensures asked { result ≢ Outcome.Usage }
    ensures read { result ≡ Outcome.Ended (Err DrawFault.Read) → HasRisen (S.faults source.old) (S.faults source.new) }
    ensures quiet { (result ≡ Outcome.Ended (Err DrawFault.Read) → ⊥) → S.faults source.new ≡ S.faults source.old }
    ensures write { result ≡ Outcome.Ended (Err DrawFault.Write) → HasRisen (K.faults out.old) (K.faults out.new) }
    ensures silent { (result ≡ Outcome.Ended (Err DrawFault.Write) → ⊥) → K.faults out.new ≡ K.faults out.old }
    ensures noted { (held : List ℕ) → N.told notes.old ≡ Some held →
        HasNoted held (note_of result) (N.told notes.new) (N.faults notes.old) (N.faults notes.new) (N.lacks notes.old) (N.lacks notes.new) }
{
    let outcome = Outcome::Ended(tell_items(alloc, source, out));
    note_outcome(alloc, notes, &outcome);
    outcome
}
