//! Why a call of a disk did not do its work.
use co_outside::HomeFault;
use std::alloc::AllocError;
use thiserror::Error;

/// Why a call of a disk did not do its work.
#[derive(Debug, Drop, Error)]
pub enum DiskFault {
    /// The home failed.
    #[error("the directory of logs failed")]
    Device,
    /// The armed device call was reached; the chosen image is left.
    #[error("stopped at device call {call}")]
    Stopped {
        /// The number of that call, counted from 1 after the arming.
        call: u8,
    },
    /// The file that was read again differs from what was kept.
    #[error("the file differs at place {at}")]
    Differs {
        /// The first place where they differ.
        at: u32,
        /// The kept byte there, where there is one.
        kept: Option<u8>,
        /// The byte that was read there, where there is one.
        read: Option<u8>,
    },
    /// The file has more than 268,435,456 bytes.
    #[error("the file is too long")]
    Long,
    /// There was no memory.
    #[error("out of memory")]
    Memory,
}

impl From<AllocError> for DiskFault {
    ghost use Rattle.std.specs.Prelude.{◌≡◌};
    ghost use Rattle.co_disk.specs.declared.fault.DiskFault.TheVariants.{Memory};

    ghost from_gives = { λ _ e. e ≡ Memory };

    fn from(_e: AllocError) -> DiskFault {
        DiskFault::Memory
    }
}

impl From<HomeFault> for DiskFault {
    ghost use Rattle.std.specs.Prelude.{◌≡◌};
    ghost use Rattle.co_disk.specs.Faults.{fault_from};

    ghost from_gives = { λ from e. e ≡ fault_from from };

    fn from(fault: HomeFault) -> DiskFault {
        match fault {
            HomeFault::Failed => DiskFault::Device,
            HomeFault::Memory => DiskFault::Memory,
        }
    }
}
