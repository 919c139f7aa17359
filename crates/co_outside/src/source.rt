//! Where bytes come from.
ghost use Rattle.std.specs.Prelude.{◌≡◌, ◌≤◌, ◌↔◌, ◌++◌, Bool, List, [], ℕ, Option, length, take, drop, IfOk, IsErrOf};
ghost use Rattle.co_outside.specs.declared.source.Taken.TheVariants.{End};
ghost use Rattle.co_outside.specs.Faults.{HasRisen};
ghost use Rattle.co_outside.specs.Source.{given, ended_by, went_on_by, HasSize};

use co_base::Bytes;
use std::alloc::{AllocError, Global};
use thiserror::Error;

/// What a source gives.
#[derive(Drop)]
pub enum Taken {
    /// These bytes, at least one.
    Bytes(Bytes),
    /// Nothing is left.
    End,
}

/// Why a source gave nothing.
#[derive(Debug, Drop, Error)]
pub enum SourceFault {
    /// The outside failed.
    #[error("the source failed")]
    Failed,
    /// There was no memory.
    #[error("out of memory")]
    Memory,
}

impl From<AllocError> for SourceFault {
    ghost use Rattle.co_outside.specs.declared.source.SourceFault.TheVariants.{Memory};

    ghost from_gives = { λ _ e. e ≡ Memory };

    fn from(_e: AllocError) -> SourceFault {
        SourceFault::Memory
    }
}

/// A source of bytes, read from its front to its end.
pub trait Source {
    /// The bytes that are left, where the source tells them.
    ghost left: { Self → Option (List ℕ) };

    /// All bytes that the source gave, the oldest first.
    ghost gave: { Self → List ℕ };

    /// Whether its last answer, faults apart, was the end.
    ghost ended: { Self → Bool };

    /// Whether it gave bytes behind an end, as a terminal or a growing file may.
    ghost went_on: { Self → Bool };

    /// How often the source has failed.
    ghost faults: { Self → ℕ };

    /// The next bytes, 1 to `most` of them, or the end. A fault takes nothing from what is left.
    ///
    /// `Failed` comes where the count of faults rose in this call, and only there.
    fn take(&mut self, alloc: Global, most: u32) -> Result<Taken, SourceFault>
        requires { 1 ≤ most }
        ensures size { IfOk result (HasSize most) }
        ensures front { (bytes : List ℕ) → left self.old ≡ Some bytes → given result ≡ take (length (given result)) bytes }
        ensures rest { (bytes : List ℕ) → left self.old ≡ Some bytes → left self.new ≡ Some (drop (length (given result)) bytes) }
        ensures end { (bytes : List ℕ) → left self.old ≡ Some bytes → IfOk result (λ taken. (taken ≡ End) ↔ (bytes ≡ [])) }
        ensures gave { gave self.new ≡ gave self.old ++ given result }
        ensures ended { ended self.new ≡ ended_by result (ended self.old) }
        ensures went_on { went_on self.new ≡ went_on_by result (ended self.old) (went_on self.old) }
        ensures counts { faults self.old ≤ faults self.new }
        ensures failed { IsErrOf result SourceFault.Failed → HasRisen (faults self.old) (faults self.new) }
        ensures quiet { (IsErrOf result SourceFault.Failed → ⊥) → faults self.new ≡ faults self.old };
}
