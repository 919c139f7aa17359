//! Why nothing was recovered.
ghost use Rattle.std.specs.Prelude.{◌≡◌};

use std::alloc::AllocError;
use thiserror::Error;

/// Why a log was not recovered.
#[derive(Debug, Drop, Error)]
pub enum RecoverFault {
    /// The record at this place of the file, in bytes from its front, is not allowed where it stands.
    #[error("the record at {at} is not allowed there")]
    Inconsistent { at: u32 },
    /// There was no memory.
    #[error("out of memory")]
    Memory,
}

impl From<AllocError> for RecoverFault {
    ghost use Rattle.co_recover.specs.declared.fault.RecoverFault.TheVariants.{Memory};

    ghost from_gives = { λ _ e. e ≡ Memory };

    fn from(_e: AllocError) -> RecoverFault {
        RecoverFault::Memory
    }
}
