//! Why a transcript was not drawn.
ghost use Rattle.std.specs.Prelude.{◌≡◌};

use std::alloc::{AllocError, AllocFailed};
use thiserror::Error;

/// Why a transcript was not drawn. Of several faults the first in the order of the input is answered.
#[derive(Debug, Drop, Error)]
pub enum DrawFault {
    /// The source failed.
    #[error("the source failed")]
    Read,
    /// The sink failed.
    #[error("the sink failed")]
    Write,
    /// The line, counted from 1, is no item, or breaks the shape; or it is the line past the end, where the last group of lines is not
    /// whole.
    #[error("line {line} breaks the transcript")]
    Text { line: u32 },
    /// The line, counted from 1, has more than 16,777,216 bytes.
    #[error("line {line} is long")]
    Long { line: u32 },
    /// There are more than 10,000 lines.
    #[error("there are too many lines")]
    Many,
    /// There was no memory.
    #[error("out of memory")]
    Memory,
}

impl From<AllocError> for DrawFault {
    ghost use Rattle.co_picture.specs.declared.fault.DrawFault.TheVariants.{Memory};

    ghost from_gives = { λ _ e. e ≡ Memory };

    fn from(_e: AllocError) -> DrawFault {
        DrawFault::Memory
    }
}

impl<T: Drop> From<AllocFailed<T>> for DrawFault {
    ghost use Rattle.co_picture.specs.declared.fault.DrawFault.TheVariants.{Memory};

    ghost from_gives = { λ _ e. e ≡ Memory };

    fn from(_e: AllocFailed<T>) -> DrawFault {
        DrawFault::Memory
    }
}
