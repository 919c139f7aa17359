//! What transactions read and wrote.
ghost use Rattle.std.specs.Prelude.{◌≡◌, IfOk};
ghost use Rattle.co_state.specs.Changes.{no_sets};
ghost use Rattle.co_state.specs.Keys.{reads_meet, writes_meet};

use crate::copies::{copy_ranges, copy_writes};
use crate::engine_state::Sets;
use crate::meeting::{reads_meet, writes_meet};
use co_base::{Range, Ranges, Writes, Written};
use std::alloc::{AllocError, Global};

impl Sets {
    /// Nothing read and nothing written. Takes no memory.
    pub fn new(alloc: Global) -> Sets
        ensures { result ≡ no_sets }
    {
        Sets {
            reads: Ranges::new(alloc),
            writes: Writes::new(alloc),
        }
    }

    /// The ranges that were read, ascending, each once.
    pub fn reads(&self) -> &[Range]
        ensures { result.now ≡ self.now.reads }
    {
        self.reads.as_slice()
    }

    /// The changes by key, each key once.
    pub fn writes(&self) -> &[Written]
        ensures { result.now ≡ self.now.writes }
    {
        self.writes.as_slice()
    }

    /// Equal sets.
    pub fn copy(&self, alloc: Global) -> Result<Sets, AllocError>
        ensures { IfOk result (λ copy. copy ≡ self.now) }
    {
        Ok(Sets {
            reads: copy_ranges(alloc, self.reads())?,
            writes: copy_writes(alloc, self.writes())?,
        })
    }

    /// Whether a read of these has a key that the others changed.
    pub fn meets(&self, other: &Sets) -> bool
        ensures { result ≡ reads_meet self.now.reads other.now.writes }
    {
        reads_meet(self.reads(), other.writes())
    }

    /// Whether both changed one key.
    pub fn both(&self, other: &Sets) -> bool
        ensures { result ≡ writes_meet self.now.writes other.now.writes }
    {
        writes_meet(self.writes(), other.writes())
    }
}
