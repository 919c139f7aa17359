//! Why a line is no item.
ghost use Rattle.std.specs.Prelude.{◌≡◌};

use std::alloc::AllocError;
use thiserror::Error;

/// Why a line was not read as an item.
#[derive(Debug, Drop, Error)]
pub enum ItemFault {
    /// The line is the text of no item; the place is that of the first byte that is wrong, counted
    /// from 0.
    #[error("no item at place {at}")]
    Text { at: u32 },
    /// There was no memory.
    #[error("out of memory")]
    Memory,
}

impl From<AllocError> for ItemFault {
    ghost use Rattle.co_transcript.specs.declared.fault.ItemFault.TheVariants.{Memory};

    ghost from_gives = { λ _ e. e ≡ Memory };

    fn from(_e: AllocError) -> ItemFault {
        ItemFault::Memory
    }
}
