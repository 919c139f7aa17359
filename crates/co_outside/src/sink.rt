//! Where bytes go.
ghost use Rattle.std.specs.Prelude.{◌≡◌, ◌≤◌, ◌++◌, List, ℕ, Option, length, IfOk, IsErrOf};
ghost use Rattle.co_outside.specs.Faults.{HasRisen};
ghost use Rattle.co_outside.specs.Sink.{accepted};

use std::alloc::{AllocError, Global};
use thiserror::Error;

/// Why a sink took nothing.
#[derive(Debug, Drop, Error)]
pub enum SinkFault {
    /// The outside failed.
    #[error("the sink failed")]
    Failed,
    /// There was no memory.
    #[error("out of memory")]
    Memory,
}

impl From<AllocError> for SinkFault {
    ghost use Rattle.co_outside.specs.declared.sink.SinkFault.TheVariants.{Memory};

    ghost from_gives = { λ _ e. e ≡ Memory };

    fn from(_e: AllocError) -> SinkFault {
        SinkFault::Memory
    }
}

/// A sink of bytes.
pub trait Sink {
    /// The bytes that the sink holds, where it tells them.
    ghost told: { Self → Option (List ℕ) };

    /// All bytes that the sink took, the oldest first.
    ghost took: { Self → List ℕ };

    /// How often the sink has failed.
    ghost faults: { Self → ℕ };

    /// How often it had no memory.
    ghost lacks: { Self → ℕ };

    /// Takes some bytes from the front of the piece and gives their count, at least 1 of a piece
    /// that is not empty. A fault takes nothing.
    ///
    /// `Failed` comes where the count of faults rose in this call, and only there; so it does where
    /// the outside took nothing. `Memory` comes where the other count rose, and only there.
    fn put(&mut self, alloc: Global, piece: &[u8]) -> Result<u32, SinkFault>
        ensures count { IfOk result (λ n. n ≤ length piece.now) }
        ensures some { 1 ≤ length piece.now → IfOk result (λ n. 1 ≤ n) }
        ensures appended { (held : List ℕ) → told self.old ≡ Some held → told self.new ≡ Some (held ++ accepted piece.now result) }
        ensures took { took self.new ≡ took self.old ++ accepted piece.now result }
        ensures counts { faults self.old ≤ faults self.new }
        ensures failed { IsErrOf result SinkFault.Failed → HasRisen (faults self.old) (faults self.new) }
        ensures quiet { (IsErrOf result SinkFault.Failed → ⊥) → faults self.new ≡ faults self.old }
        ensures lacks { lacks self.old ≤ lacks self.new }
        ensures memory { IsErrOf result SinkFault.Memory → HasRisen (lacks self.old) (lacks self.new) }
        ensures fed { (IsErrOf result SinkFault.Memory → ⊥) → lacks self.new ≡ lacks self.old };
}
