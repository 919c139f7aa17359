//! Why a key, a value or a range was refused.
ghost use Rattle.std.specs.Prelude.{◌≡◌};

use std::alloc::AllocError;
use thiserror::Error;

/// Why a constructor of this crate refused its bytes.
#[derive(Debug, Drop, Error)]
pub enum BaseFault {
    /// There are too few or too many bytes.
    #[error("the count of bytes is outside its bounds")]
    Length,
    /// The count is right, and a byte is no visible character.
    #[error("a byte is no visible character")]
    Letter,
    /// The lower bound of a range is above its upper bound.
    #[error("the bounds of the range are out of order")]
    Order,
    /// There was no memory.
    #[error("out of memory")]
    Memory,
}

impl From<AllocError> for BaseFault {
    ghost use Rattle.co_base.specs.declared.fault.BaseFault.TheVariants.{Memory};

    ghost from_gives = { λ _ e. e ≡ Memory };

    fn from(_e: AllocError) -> BaseFault {
        BaseFault::Memory
    }
}
