//! Notes, put piece by piece.
ghost use Rattle.std.specs.Prelude.{◌≡◌, ◌≤◌, ◌++◌, ℕ, List, Some, OnOk, OnErr, take, IsErrOf};
ghost use Rattle.co_outside.specs.Faults.{HasRisen};
ghost use Rattle.co_outside.specs.Sink.{HasNoted};
ghost use Rattle.co_picture.specs.Drawn.{number_text, text_of_note};

use co_outside::{Sink, SinkFault, put_all};
use itoa::Buffer;
use std::alloc::Global;

/// A note: words, the number of a line where there is one, and words behind it.
#[derive(Clone, Copy)]
pub(crate) struct Note {
    pub(crate) front: &'static [u8],
    pub(crate) line: Option<u32>,
    pub(crate) back: &'static [u8],
}

/// Puts the number of a line, where there is one.
fn put_number<N: Sink>(alloc: Global, notes: &mut N, line: Option<u32>) -> Result<(), SinkFault>
    ensures whole { (held : List ℕ) → N.told notes.old ≡ Some held → OnOk result (N.told notes.new ≡ Some (held ++ number_text line)) }
    ensures front { (held : List ℕ) → N.told notes.old ≡ Some held → OnErr result ((count : ℕ) × (N.told notes.new ≡ Some (held ++ take count (number_text line)))) }
    ensures counts { N.faults notes.old ≤ N.faults notes.new }
    ensures lacks { N.lacks notes.old ≤ N.lacks notes.new }
    ensures failed { IsErrOf result SinkFault.Failed → HasRisen (N.faults notes.old) (N.faults notes.new) }
    ensures memory { IsErrOf result SinkFault.Memory → HasRisen (N.lacks notes.old) (N.lacks notes.new) }
{
    match line {
        Some(line) => put_all(alloc, notes, Buffer::new().format(line).as_bytes()),
        None => Ok(()),
    }
}

/// Puts the pieces of a note, and takes no memory of its own.
fn put_pieces<N: Sink>(alloc: Global, notes: &mut N, note: &Note) -> Result<(), SinkFault>
    ensures whole { (held : List ℕ) → N.told notes.old ≡ Some held → OnOk result (N.told notes.new ≡ Some (held ++ text_of_note note.now)) }
    ensures front { (held : List ℕ) → N.told notes.old ≡ Some held → OnErr result ((count : ℕ) × (N.told notes.new ≡ Some (held ++ take count (text_of_note note.now)))) }
    ensures counts { N.faults notes.old ≤ N.faults notes.new }
    ensures lacks { N.lacks notes.old ≤ N.lacks notes.new }
    ensures failed { IsErrOf result SinkFault.Failed → HasRisen (N.faults notes.old) (N.faults notes.new) }
    ensures memory { IsErrOf result SinkFault.Memory → HasRisen (N.lacks notes.old) (N.lacks notes.new) }
{
    put_all(alloc, notes, note.front)?;
    put_number(alloc, notes, note.line)?;
    put_all(alloc, notes, note.back)
}

/// Puts a note. It is put whole, or the sink failed or had no memory, and then a front of it was put.
pub(crate) fn put_note<N: Sink>(alloc: Global, notes: &mut N, note: &Note)
    ensures noted { (held : List ℕ) → N.told notes.old ≡ Some held →
        HasNoted held (text_of_note note.now) (N.told notes.new) (N.faults notes.old) (N.faults notes.new) (N.lacks notes.old) (N.lacks notes.new) }
    ensures counts { N.faults notes.old ≤ N.faults notes.new }
{
    match put_pieces(alloc, notes, note) {
        Ok(()) | Err(SinkFault::Failed) | Err(SinkFault::Memory) => {}
    }
}
