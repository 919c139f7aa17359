//! A reader and a writer of std, each with what its calls moved.
//!
//! Std's clauses tell no byte of a file, a pipe or a terminal. So each method here makes one call of
//! the system and then notes what that call answered: that it is this call is trusted, and what is
//! proved above rests on it.
ghost use Rattle.std.specs.Prelude.{◌≡◌, ◌++◌};
ghost use Rattle.std.specs.Io.{ReadsAtMost, WritesAtMost};
ghost use Rattle.std.specs.Io.KnownBytes.{ReadConsumes, WriteAppends};
ghost use Rattle.co_outside.specs.Heard.{moved};

use co_trace::Text;
use std::io::{self, Read, Write};

/// A reader, with the bytes that it gave.
#[derive(Drop)]
pub(crate) struct Heard<R: Read + Drop> {
    pub(crate) reader: R,
    pub(crate) gave: Text,
}

impl<R: Read + Drop> Heard<R> {
    /// One `read` of the reader.
    pub(crate) fn read(&mut self, room: &mut [u8]) -> io::Result<usize>
        ensures bound { ReadsAtMost result room.new }
        ensures bytes { ReadConsumes (R.remaining self.old.reader) (R.remaining self.new.reader) result room.new }
        ensures gave { self.new.gave ≡ self.old.gave ++ moved result room.new }
    {
        let count = self.reader.read(room)?;
        self.gave.note(&room[..count]);
        Ok(count)
    }
}

/// A writer, with the bytes that it took.
#[derive(Drop)]
pub(crate) struct Told<W: Write + Drop> {
    pub(crate) writer: W,
    pub(crate) took: Text,
}

impl<W: Write + Drop> Told<W> {
    /// One `write` of the writer.
    pub(crate) fn write(&mut self, piece: &[u8]) -> io::Result<usize>
        ensures bound { WritesAtMost result piece.now }
        ensures bytes { WriteAppends (W.contents self.old.writer) (W.contents self.new.writer) result piece.now }
        ensures took { self.new.took ≡ self.old.took ++ moved result piece.now }
    {
        let count = self.writer.write(piece)?;
        self.took.note(&piece[..count]);
        Ok(count)
    }
}
