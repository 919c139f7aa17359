//! A sink over std's writers.
ghost use Rattle.std.specs.Prelude.{◌≡◌, []};

use crate::heard::Told;
use crate::sink::{Sink, SinkFault};
use co_trace::Text;
use std::alloc::Global;
use std::io::Write;

/// A sink over a writer of std. It tells what the writer is known to hold, which is nothing of a
/// file, a pipe or a terminal, and what the writer took, which is told of each.
#[derive(Drop)]
pub struct SinkStd<W: Write + Drop> {
    writer: Told<W>,
    faults: u64,
}

impl<W: Write + Drop> SinkStd<W> {
    /// A sink into the writer, which has not failed yet. Takes no memory.
    pub fn new(writer: W) -> SinkStd<W>
        ensures writes { result.writer.writer ≡ writer }
        ensures took { result.writer.took ≡ [] }
        ensures faults { result.faults ≡ 0 }
    {
        let took = Text::new();
        SinkStd {
            writer: Told { writer, took },
            faults: 0,
        }
    }
}

impl<W: Write + Drop> Sink for SinkStd<W> {
    ghost told = { λ s. W.contents s.writer.writer };

    ghost took = { λ s. s.writer.took };

    ghost faults = { λ s. s.faults };

    // It holds nothing in memory.
    ghost lacks = { λ _. 0 };

    fn put(&mut self, _alloc: Global, piece: &[u8]) -> Result<u32, SinkFault> {
        if piece.is_empty() {
            return Ok(0);
        }
        let front = &piece[..piece.len().min(u32::MAX as usize)];
        match self.writer.write(front) {
            Ok(0) | Err(_) => {
                self.faults = self.faults.saturating_add(1);
                Err(SinkFault::Failed)
            }
            Ok(count) => Ok(count as u32),
        }
    }
}
