//! Faults of a migration.
ghost use Rattle.std.specs.Prelude.{◌≡◌};

use co_outside::Spot;
use std::alloc::{AllocError, AllocFailed};
use thiserror::Error;

/// Why the logs of a directory were not all migrated.
#[derive(Debug, Drop, Error)]
pub enum MigrateFault {
    /// The directory of logs failed at this file.
    #[error("the directory of logs failed at {spot}")]
    Device {
        spot: Spot,
    },
    /// The file is no log.
    #[error("{spot} is no log: place {at}")]
    Bad {
        spot: Spot,
        /// The place of the first fault, in bytes from the front.
        at: u32,
    },
    /// The file has, or would have, more than 268,435,456 bytes, or there is no next generation.
    #[error("{spot} is full")]
    Full {
        spot: Spot,
    },
    /// There was no memory.
    #[error("out of memory")]
    Memory,
}

impl From<AllocError> for MigrateFault {
    ghost use Rattle.co_migrate.specs.declared.fault.MigrateFault.TheVariants.{Memory};

    ghost from_gives = { λ _ e. e ≡ Memory };

    fn from(_e: AllocError) -> MigrateFault {
        MigrateFault::Memory
    }
}

impl<T: Drop> From<AllocFailed<T>> for MigrateFault {
    ghost use Rattle.co_migrate.specs.declared.fault.MigrateFault.TheVariants.{Memory};

    ghost from_gives = { λ _ e. e ≡ Memory };

    fn from(_e: AllocFailed<T>) -> MigrateFault {
        MigrateFault::Memory
    }
}
