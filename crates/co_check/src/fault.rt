//! Why a transcript was not judged.
ghost use Rattle.std.specs.Prelude.{◌≡◌};

use std::alloc::{AllocError, AllocFailed};
use thiserror::Error;

/// Why a transcript was not judged. Of several faults the first in the order of the input is answered.
#[derive(Debug, Drop, Error)]
pub enum CheckFault {
    /// The source failed.
    #[error("the source failed")]
    Read,
    /// The line, counted from 1, is no item, or breaks the shape of a transcript; or it is the line past the end, where the last
    /// group of lines is not whole.
    #[error("line {line} breaks the transcript")]
    Text { line: u32 },
    /// The line, counted from 1, has more than 16,777,216 bytes.
    #[error("line {line} is long")]
    Long { line: u32 },
    /// There are more than 16,777,216 lines.
    #[error("there are too many lines")]
    Many,
    /// There was no memory.
    #[error("out of memory")]
    Memory,
}

impl From<AllocError> for CheckFault {
    ghost use Rattle.co_check.specs.declared.fault.CheckFault.TheVariants.{Memory};

    ghost from_gives = { λ _ e. e ≡ Memory };

    fn from(_e: AllocError) -> CheckFault {
        CheckFault::Memory
    }
}

impl<T: Drop> From<AllocFailed<T>> for CheckFault {
    ghost use Rattle.co_check.specs.declared.fault.CheckFault.TheVariants.{Memory};

    ghost from_gives = { λ _ e. e ≡ Memory };

    fn from(_e: AllocFailed<T>) -> CheckFault {
        CheckFault::Memory
    }
}
