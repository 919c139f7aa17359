//! Faults of logs.
ghost use Rattle.std.specs.Prelude.{◌≡◌};

use co_base::Marks;
use co_outside::Spot;
use std::alloc::{AllocError, AllocFailed};
use thiserror::Error;

/// Why a call of a log did not do its work. After `Device` and `Memory` a log is only dropped.
#[derive(Debug, Drop, Error)]
pub enum LogFault {
    /// The directory of logs failed at this file.
    #[error("the directory of logs failed at {spot}")]
    Device {
        spot: Spot,
    },
    /// The armed device call of a log write was reached.
    #[error("device call {call} was stopped")]
    Stopped {
        /// The number of the device call within its log write, counted from 1.
        call: u8,
        /// Whether the batch counts: the image that is left has its gate open.
        stable: bool,
        /// What the call would have told, where the batch counts, and nothing else.
        marks: Marks,
    },
    /// The file is no log.
    #[error("{spot} is no log: place {at}")]
    Bad {
        spot: Spot,
        /// The place of the first fault, in bytes from the front.
        at: u32,
    },
    /// The file is not what was kept of it.
    #[error("{spot} differs at {at}")]
    Differs {
        spot: Spot,
        /// The first place that differs, in bytes from the front.
        at: u32,
        /// The byte that was kept, where there is one.
        kept: Option<u8>,
        /// The byte that was read, where there is one.
        read: Option<u8>,
    },
    /// The file has, or would have, more than 268,435,456 bytes, or there is no next generation.
    #[error("{spot} is full")]
    Full {
        spot: Spot,
    },
    /// The file has more than one byte, and the run is not resumed.
    #[error("{spot} is in use")]
    InUse {
        spot: Spot,
    },
    /// There was no memory.
    #[error("out of memory")]
    Memory,
}

impl From<AllocError> for LogFault {
    ghost use Rattle.co_log.specs.declared.fault.LogFault.TheVariants.{Memory};

    ghost from_gives = { λ _ e. e ≡ Memory };

    fn from(_e: AllocError) -> LogFault {
        LogFault::Memory
    }
}

impl<T: Drop> From<AllocFailed<T>> for LogFault {
    ghost use Rattle.co_log.specs.declared.fault.LogFault.TheVariants.{Memory};

    ghost from_gives = { λ _ e. e ≡ Memory };

    fn from(_e: AllocFailed<T>) -> LogFault {
        LogFault::Memory
    }
}

/// A log write that was stopped at its armed device call.
#[derive(Drop)]
pub struct StoppedWrite {
    /// The number of the device call within its log write, counted from 1.
    pub call: u8,
    /// Whether the batch counts: the image that is left has its gate open.
    pub stable: bool,
    /// What the call would have told, where the batch counts, and nothing else.
    pub marks: Marks,
}

impl LogFault {
    ghost use Rattle.co_log.specs.NodeFaults.{IsOfNode, IsSplit};

    /// Takes the fault of a call other than `attach` apart: a stop, from which the node goes on, or a fault of the
    /// node, with which a run ends.
    pub fn split(self) -> Result<StoppedWrite, NodeFault>
        requires { IsOfNode self }
        ensures { IsSplit self result }
    {
        match self {
            LogFault::Stopped {
                call,
                stable,
                marks,
            } => Ok(StoppedWrite {
                call,
                stable,
                marks,
            }),
            LogFault::Device { spot } => Err(NodeFault::Device { spot }),
            LogFault::Differs {
                spot,
                at,
                kept,
                read,
            } => Err(NodeFault::Differs {
                spot,
                at,
                kept,
                read,
            }),
            LogFault::Full { spot } => Err(NodeFault::Full { spot }),
            LogFault::Memory => Err(NodeFault::Memory),
            LogFault::Bad { .. } | LogFault::InUse { .. } => unreachable!(),
        }
    }
}

/// Why a call of a node on its log did not do its work. After each of them a run ends.
#[derive(Debug, Drop, Error)]
pub enum NodeFault {
    /// The directory of logs failed at this file.
    #[error("the directory of logs failed at {spot}")]
    Device {
        spot: Spot,
    },
    /// The file is not what was kept of it.
    #[error("{spot} differs at {at}")]
    Differs {
        spot: Spot,
        /// The first place that differs, in bytes from the front.
        at: u32,
        /// The byte that was kept, where there is one.
        kept: Option<u8>,
        /// The byte that was read, where there is one.
        read: Option<u8>,
    },
    /// The file would have more than 268,435,456 bytes, or there is no next generation.
    #[error("{spot} is full")]
    Full {
        spot: Spot,
    },
    /// There was no memory.
    #[error("out of memory")]
    Memory,
}

impl From<AllocError> for NodeFault {
    ghost use Rattle.co_log.specs.declared.fault.NodeFault.TheVariants.{Memory};

    ghost from_gives = { λ _ e. e ≡ Memory };

    fn from(_e: AllocError) -> NodeFault {
        NodeFault::Memory
    }
}

impl<T: Drop> From<AllocFailed<T>> for NodeFault {
    ghost use Rattle.co_log.specs.declared.fault.NodeFault.TheVariants.{Memory};

    ghost from_gives = { λ _ e. e ≡ Memory };

    fn from(_e: AllocFailed<T>) -> NodeFault {
        NodeFault::Memory
    }
}
