//! Faults of a federation.
ghost use Rattle.std.specs.Prelude.{◌≡◌};

use co_outside::Spot;
use std::alloc::{AllocError, AllocFailed};
use thiserror::Error;

/// Why a call of a federation did not do its work.
#[derive(Debug, Drop, Error)]
pub enum WorldFault {
    /// The directory of logs failed at this file.
    #[error("the directory of logs failed at {spot}")]
    Device {
        spot: Spot,
    },
    /// The file is not what was kept of it.
    #[error("{spot} differs at {at}")]
    Differs {
        spot: Spot,
        /// The first place that differs, in bytes from the front.
        at: u32,
        /// The byte that was kept, where there is one.
        kept: Option<u8>,
        /// The byte that was read, where there is one.
        read: Option<u8>,
    },
    /// The file has more than one byte, and the run is not resumed.
    #[error("{spot} is in use")]
    InUse {
        spot: Spot,
    },
    /// The file is no log.
    #[error("{spot} is no log: place {at}")]
    Bad {
        spot: Spot,
        /// The place of the first fault, in bytes from the front.
        at: u32,
    },
    /// The file has, or would have, more than 268,435,456 bytes, or there is no next generation.
    #[error("{spot} is full")]
    Full {
        spot: Spot,
    },
    /// There are, or would be, more than 65,536 transactions.
    #[error("too many transactions")]
    Count,
    /// The log is of version 1, and only logs of version 2 are appended to.
    #[error("{spot} is an old log")]
    Old {
        spot: Spot,
    },
    /// There was no memory.
    #[error("out of memory")]
    Memory,
}

impl From<AllocError> for WorldFault {
    ghost use Rattle.co_durable.specs.declared.fault.WorldFault.TheVariants.{Memory};

    ghost from_gives = { λ _ e. e ≡ Memory };

    fn from(_e: AllocError) -> WorldFault {
        WorldFault::Memory
    }
}

impl<T: Drop> From<AllocFailed<T>> for WorldFault {
    ghost use Rattle.co_durable.specs.declared.fault.WorldFault.TheVariants.{Memory};

    ghost from_gives = { λ _ e. e ≡ Memory };

    fn from(_e: AllocFailed<T>) -> WorldFault {
        WorldFault::Memory
    }
}
