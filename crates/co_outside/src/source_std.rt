//! A source over std's readers.
ghost use Rattle.std.specs.Prelude.{◌≡◌, false, []};

use crate::heard::Heard;
use crate::source::{Source, SourceFault, Taken};
use co_base::Bytes;
use co_trace::Text;
use std::alloc::Global;
use std::io::Read;

/// The most bytes that one call takes from the reader.
const MOST_AT_ONCE: u32 = 65536;

/// A source over a reader of std. It tells what the reader is known to have left, which is nothing
/// of a file, a pipe or a terminal, and what the reader gave, which is told of each.
#[derive(Drop)]
pub struct SourceStd<R: Read + Drop> {
    reader: Heard<R>,
    ended: bool,
    went_on: bool,
    faults: u64,
}

impl<R: Read + Drop> SourceStd<R> {
    /// A source of what the reader gives, which has not failed yet. Takes no memory.
    pub fn new(reader: R) -> SourceStd<R>
        ensures reads { result.reader.reader ≡ reader }
        ensures gave { result.reader.gave ≡ [] }
        ensures ended { result.ended ≡ false }
        ensures went_on { result.went_on ≡ false }
        ensures faults { result.faults ≡ 0 }
    {
        let gave = Text::new();
        SourceStd {
            reader: Heard { reader, gave },
            ended: false,
            went_on: false,
            faults: 0,
        }
    }
}

impl<R: Read + Drop> Source for SourceStd<R> {
    ghost left = { λ s. R.remaining s.reader.reader };

    ghost gave = { λ s. s.reader.gave };

    ghost ended = { λ s. s.ended };

    ghost went_on = { λ s. s.went_on };

    ghost faults = { λ s. s.faults };

    fn take(&mut self, alloc: Global, most: u32) -> Result<Taken, SourceFault> {
        let room = most.min(MOST_AT_ONCE);
        let mut piece = vec![in alloc; 0u8; room as usize]?;
        match self.reader.read(&mut piece) {
            Ok(0) => {
                self.ended = true;
                Ok(Taken::End)
            }
            Ok(count) => {
                self.went_on = self.ended || self.went_on;
                self.ended = false;
                piece.truncate(count);
                Ok(Taken::Bytes(Bytes::of(piece)))
            }
            Err(_) => {
                self.faults = self.faults.saturating_add(1);
                Err(SourceFault::Failed)
            }
        }
    }
}
